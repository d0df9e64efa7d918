//! The sample's blocks, the lines that explain the last of them, and what all count, made by vectors/explained.py.

pub(crate) fn block0() -> &'static [u8] {
    BLOCK0
}

static BLOCK0: &[u8] =
    b"FBK1\0\0\0\0\0\0\0\0\0\xd6r\x94\xcb\x15\xa1&\xce\x04-\xb1\0U!+IO}\xcd\x89\x17\xd5\x93\\\xaa{\
    '\xd3\xdd\xf1k\xb5\0\0\0\x05\0\0\0\xc2\x02ch4d941d69b676a61aff49cd6e78f11d3727d68eebad17b933\
    dd85233f09067498\x04Org1\x01\x02c0\x02n1\x02cc\0\x01\x02cc\0\x01\0\x04car1\0\0\0\0\x01\0\x04\
    car1\x01\0\0\0\x03red\0\0\x01\x04Org1\x02\x02p0\0 \xf4\xcf\x90\xa9w\xd2x\x7f\\F\xac\xbd-\xe3\
    Rh9Jx\xfa\x10D.\xd6b\x92\xd4V(\xd7\xd7\x9b\0 \x1ed\x8aH\xe9?I\x06\xadB\xa2\xb8\xc4\xe2\xac\
    \xe6\x8f\x96BA\xc0\xc47\xb9=\xe3\xc3\x03RpIc\0\0\0\xc3\x02chb76915c274f990013592df05fee17b74\
    6f061366372c51ee83dc9d555cca5389\x04Org1\x01\x02c0\x02n2\x02cc\0\x01\x02cc\0\x01\0\x04car2\0\
    \0\0\0\x01\0\x04car2\x01\0\0\0\x04blue\0\0\x01\x04Org2\x02\x02p0\0 \xa0=\x1c\xfeug\x0f{f\x1b\
    \x0c~\xe8\x08W\x17O\xa5\x82+d\xf7\xd4e\x16\x01D\x0d!\x96\xa0P\0 \x034\x1e\xce5\xe7*\x86\x0f#\
    \xec\xa9\xb2;v|\x1f\xb9z(\x19K\x05\xb5\xcf\xbch\xd8v/\x9d\xe9\0\0\0\x91\x02chdf9ae39a69c858c\
    1a7bd54294d1c59f242892a6ba276255f2d18b918f5f6da6f\x04Org1\x01\x02c0\x02n3\x02cc\0\x01\x02cc\
    \0\0\0\0\0\x01\0\x04car3\x01\0\0\0\x04grey\0\0\0\0 \x89\x06*5\xfc\xc3\x9f\xb5\x18\x13\xaf\
    \xbf\xda\xd5\xf0My\x83\xc7\xf6?\xfb\xac\x8f\x8b\x87\xf9QJ\x9a\xa0\x1d\0\0\0\xbc\x02ch4d941d6\
    9b676a61aff49cd6e78f11d3727d68eebad17b933dd85233f09067498\x04Org1\x01\x02c0\x02n1\x02cc\0\
    \x01\x02cc\0\0\0\0\0\x01\0\x04car4\x01\0\0\0\x04grey\0\0\x01\x04Org1\x02\x02p0\0 \xd2\x1c\
    \x0e8W\xbc\xa8\x0a\xf7\xe7\xbfn\xfe\xd1z\xf9\xb5V\"\x9eSE\xbb\x81\x01\x82\xb2\x10\x84\x9d\
    \xed\xaf\0 \xe1\xeaD\xeb\xfa\x91Au\xe9&\xab\xde\xfa<\x04\xc4\xed\xd3\xd0\xd7\x09D\x85\xfc[\
    \x90\x96\x09\x87Z\x1b\x82\0\0\0\x02no";

pub(crate) fn block1() -> &'static [u8] {
    BLOCK1
}

static BLOCK1: &[u8] =
    b"FBK1\0\0\0\0\0\0\0\x01 r]\x8c\xb1\x15\x80\x01Fa\xa0\xc4re\xef\0\x07\x05\xbf\0\xd76:\\\xd5\
    \xad\x94\xb5z\x97ut\x90kj\xb7\x82\xef+\xca\xd3Zu\xf8\xdc3 $\xac\xedV!\x11\x871k\x80\xc5\xf2\
    \x8f\\\x18\x979\xad\0\0\0\x05\0\0\0\xd0\x02chc645fc47b120eee38305fa70923ee9b94bf27df6048d8e9\
    2ad6ad5160b1fbb51\x04Org1\x01\x02c0\x02n5\x02cc\0\x01\x02cc\0\x01\0\x04car1\x01\0\0\0\0\0\0\
    \0\0\0\0\0\0\0\0\0\x01\0\x04car1\x01\0\0\0\x05green\0\0\x01\x04Org1\x02\x02p0\0 \xbcZ\x1c`p\
    \xa8\xb5p\xf9n\x98\xfb\xf5\xb5\x8b\x80[\xfe\xbf\xb9!\xf5\xb4\x8d\x08\xd0\xc6\xcc\xcc/\xb6\
    \x14\0 O^\xb8\xce)\x03\x8e\x04\xb9j\xf9,\xf8w\xf5IC2N\x8c2\xb9\xcd\xb1.\xd1_\x1e\x8d\xdeC\
    \x1d\0\0\0\xd0\x02ch291332360adafa3423b9c53a39a9e2d7728ec1023a0de7c05e53a03574b1fdb7\x04Org1\
    \x01\x02c0\x02n6\x02cc\0\x01\x02cc\0\x01\0\x04car1\x01\0\0\0\0\0\0\0\0\0\0\0\0\0\0\0\x01\0\
    \x04car1\x01\0\0\0\x05black\0\0\x01\x04Org1\x02\x02p0\0 Y\x1d\x9e&\xdc\xdf\x01{z,\x09>\xcf\
    \xe4\xbe\x80\xeeFt\xd2\x047\x1a\xed\xc2h\x07@c\xeb <\0 \xb2\x04\x1bS\xc41Y\xcd\xe9U\xa7\xd8z\
    \x9e\xda\xa5\xc5\x8aKki\xd0 \x0d\xb0Fz\xf2\x83r\x0d\xdb\0\0\0\xed\x02chb3a3ddced069beb56269d\
    e7fc4bce33047936705c0d783bbaf0e6b90e99df9a6\x04Org1\x01\x02c0\x02n7\x02cc\0\x01\x02cc\0\0\0\
    \x01\0\x04car1\0\x04car9\x01\0\x02\0\x04car1\0\0\0\0\0\0\0\0\0\0\0\0\0\x04car2\0\0\0\0\0\0\0\
    \0\0\0\0\x01\0\x01\0\x05count\x01\0\0\0\x012\0\0\x01\x04Org1\x02\x02p0\0 V\x83\xd3w\xb9\x19\
    \x8c\xff\xb6\x87YD\xb3\x89g\xcdHJU/\x12\xf5c\xed\x03\xfc\xaaF\xa4I\x03\x02\0 \x04O\xad\xaf\
    \xf9Zv\xec\xd4+\xb6\x13\xe2\x02.]\x0e\xc2\xa0\x02\xf1\xeb\xd4\xaa\xab\x9f\x9a\xa8F\x10\x05`\
    \0\0\0\xd6\x02chf58d4b0daf61fc1bcaa5f78da380cc03ac8b5ee409dc7c216be6592c3538616a\x04Org1\x01\
    \x02c0\x02n8\x02cc\0\x01\x02cc\0\x01\0\x04car1\x01\0\0\0\0\0\0\0\x01\0\0\0\0\0\0\0\x01\0\x04\
    car1\x01\0\0\0\x0bpearl white\0\0\x01\x04Org2\x02\x02p0\0 \x9bC\xd4\xf5\xd5\xe7Pi\xac\xea\"\
    \x0f\x1f\x0e\x09\x09N\xe4G\xd2O3\x1a\xfa\x1fP\x08\x03`\xd2\\\xa5\0 $\x9d\x14{\x9f\x80I\xbd\
    \xaf2\xed\x8c\x01S\xec\\\x9b\xc5\xa1\xeeg\xacr\xd0\xf7\x13\x1d\xe9\xd4\xe9\x8cc\0\0\0\xd2\
    \x02chfb0c9466ed86bfdb17d745d330ba7c64a3e97b000639e63c034c77ec765ed8b6\x04Org1\x01\x02c0\x02\
    n9\x02cc\0\x01\x02cc\0\0\0\0\0\0\0\x01\0\x04car2\x01\0\x1cAND('Org1.peer','Org2.peer')\x01\
    \x04Org1\x02\x02p0\0 \x0f\x9f\xc7\x9ao\x90Fe\x7f\xad\xaa\x0c\xc8\x8b\xc5\xf3\x172\xf7\x04\
    \x06\xb9\xa8\xd2V]\xc0\x91\xf4\x99\xc9\"\0 \xe5\x98y\x07\xef\xf7\xda\x1c\xc5\xc9,\x95\xe8\
    \x8eq1e\xd8lF,\xa4\xc0\xb9\xbe7\xbc\xc0\xf8\xcesU";

pub(crate) fn block2() -> &'static [u8] {
    BLOCK2
}

static BLOCK2: &[u8] =
    b"FBK1\0\0\0\0\0\0\0\x02 B\x03\x80\xc2-2\xd1\xf4;p\xd9\xb7\x8f\x94\x12f\xb9Q,\xe0Y\xa2\xd0Y\
    \x93\xb9\xdf\xcd\xaa\xd3\x8a\x9c>#\x03\xe1\xb0\xd1\xf6\xa7h&\xb3\x1e\xd4\x94\xcc\x9ay\"(U>\
    \xde\xb5V\x97\x04\x81\xf3\x03\xfc\xf6\xd8\0\0\0\x04\0\0\0\xbe\x02ch1527b80098d87f315d357bd83\
    1b62730186aea10870f759532c0664de8fa1547\x04Org1\x01\x02c0\x03n10\x02cc\0\x01\x02cc\0\0\0\0\0\
    \x01\0\x04car2\x01\0\0\0\x05black\0\0\x01\x04Org1\x02\x02p0\0 S\x89P\xf2q\xdc\xb8w\xef\xf5v\
    \x96-\xfb\x14o\xcep\xf0\x0d\xa8\xe1\x8af\xf4\x06\x95d\xd2U\xa5\x92\0 :M\xc9<\xfb~\xcf\xa7\
    \xc3\x15\xb9\x0a\x1c\\\xa4\xca)\xb86\xd57a\xb1\x9e\xaf<\xffU\x7f\x9b\x9e*\0\0\x01\x04\x02ch0\
    03344f8f7840e96f76ef00d5e5591235974d5951c67623f1f0ff2d2ade0a717\x04Org1\x01\x02c0\x03n11\x02\
    cc\0\x01\x02cc\0\x01\0\x04car2\x01\0\0\0\0\0\0\0\x01\0\0\0\x04\0\0\0\x01\0\x04car2\x01\0\0\0\
    \x0dmidnight blue\0\0\x02\x04Org1\x02\x02p0\0 \xd4\xc55\x86\x15'/*`\x1d\xae\x10\xc9\x1d\xe3\
    \xb1\xb0\x8c\x0dW\x97LraQ\x93\x8f\xcaJcr\x9d\x04Org2\x02\x02p0\0 Yw$\xf4\xb4Y(mD\x08[\xce\
    \xba\x0d{rs\x8e\x99:W&kw\x8fl?YB2\xea6\0 \xc7vu\xcctr\x9f\xab\x85x\xe9\x91\xad\x83\xad\x81\
    \xb8\xac%\x0d\xfa;\xe9\xa2\xa0\xeb\x06\xa1\xf1(2.\0\0\0\xc8\x02ch60d54f34655897673a40b662200\
    9f6f33deaf07b561cfd7da7ef9c435a364f88\x04Org1\x01\x02c0\x03n12\x02cc\0\x01\x02cc\0\x01\0\x04\
    car1\x01\0\0\0\0\0\0\0\x01\0\0\0\x03\0\0\0\x01\0\x04car1\0\0\0\x01\x04Org1\x02\x02p0\0 ?\xa9\
    \x12\x0b\xd7\x80\"!\x9e\xf4\x9e\x96L\xd7\xa6\xb09I\xa2\x8d\xbb\x98\xec\xb2{\xcb\x1eWuSG\x16\
    \0 \xed@\xc8\x97\xa9\x17h\x9dJ\xa3\x84\xf4`k\xa7\xd0\\\xfe\xdf\x8bG\xda\x84o\x88a\xb2\xabT\
    \xfa\xe5<\0\0\0\xc6\x02ch6222d6c57bf59c3fe6cdd454830893799f40d5aeca4fcf93f375888f6af22d5b\
    \x04Org1\x01\x02c0\x03n13\x02cc\0\x01\x02cc\0\x01\0\x04car3\0\0\0\0\x01\0\x04car3\x01\0\0\0\
    \x06yellow\0\0\x01\x04Org2\x02\x02p0\0  \x9a\x93\xee\\\xbe\xe2\xf2\x10{a\x18\xdcQ;\xbc\xb2\
    \xc30\x99K1\xd1Hf_\x7f#P\x90\xeb\x99\0 \xfd\x0f\x0c\xac\xf2\0F2;D\xfc\xc9;@\xe8\xf5\x9dw\xa2\
    \x9d4<\x9d\xba=\x1cR\xe2\x91\xc6\xe0#";

pub(crate) fn block3() -> &'static [u8] {
    BLOCK3
}

static BLOCK3: &[u8] =
    b"FBK1\0\0\0\0\0\0\0\x03 \xd7\x15\xdc\xf6\x83\xf5\xff\xcc\x02k\xfc\xa7)\xda/\x92\x8bvo\x7f\xcc\
    \xe55\xce\x10\x87\xe2n\x1f\xc3\xfa-G\xfao\xbb\xa5\xa4\xde\xfeW\xc9\x18\x03\xd7`\x95Y\x1a\xe9\
    O\xa8\x17\xc6\x9f\xe7BGn\x11>ND\x82\0\0\0\x01\0\0\0\xc5\x02cha804741408c0adb0354d44952480478\
    1a5e0004616ace7861d5caad099e30a11\x04Org1\x01\x02c0\x03n14\x02cc\0\x01\x02cc\0\x01\0\x04car4\
    \0\0\0\0\x01\0\x04car4\x01\0\0\0\x05white\0\0\x01\x04Org1\0\x02a0\0 \"V\xe8*\xbf\xd5C\x95\
    \x9b(\x1cF\x1ci\x06Ce>\x90W\x05\xa4g\x8e\xd0\xbd\x11\xda\x16\xc9\xeb-\0 \xf4u{2\xf4\x1f\x0d\
    \x0f\x80\xea}\xaaEq\x09\xecn\x9f\xbdR_\xbc\x1b5\xef0\xe1X9F]6";

pub(crate) fn block4() -> &'static [u8] {
    BLOCK4
}

static BLOCK4: &[u8] =
    b"FBK2\0\0\0\0\0\0\0\x04 \xe3\xf7\"\x1e\xca\xe0\x9c\x19l\x14~\xfa0\xe9c\xb4\xdb\x91s\x16\x1e]\
    \xb9\xb5\xa3\xc1]\x8e\xb7\xa1\xb6\xf8\x14\xee\x95{\xfeS}b\xe8\xe1\xe1\x16\x9d!\xd4\xe59\x99\
    \xf3\x8c$\xfb\xea\x1e\x87v\x9b\x1c\xfb5\x1f\x92\0\0\0\x01\0\0\0\xcc\0\x02chdfd186189af9e02ed\
    36475b19b29326fe9747216885d5cb4e321b7ab1676062d\x04Org1\0\x02a0\x03n15\x02cc\0(OR('Org1.peer\
    ','Org2.peer','Org1.admin')\x01\x04Org1\0\x02a0\0 \x82\xcb\xa0j\x10\xe0!\x08\xb2kamX\xbaPz\
    \xc6\xc2\0\xf1^\xa3\xdfc\xff\xfb\x9d\xba]n\xb2\xff\0 \xef\xbcG\x1a\xc0\x7fIj\xb9|\xe6\x0d\
    \xa6;\"w\x1e:\x05\x0e\xf5N\x9e#\xb9\xf3r\x9a*\x81\xe7,";

pub(crate) fn block5() -> &'static [u8] {
    BLOCK5
}

static BLOCK5: &[u8] =
    b"FBK2\0\0\0\0\0\0\0\x05 ,\xe2\x85G\xd3\x04\xa5\xa7\x89~\x9f^\x95\xf4\xdb8s\x91:M\x1d\x84VoD+v\
    \xf7\x7f\x95?p\xb9;\x08\xad\x16)\x08;\xc1a\xaf\xf2K\xbb;\xf0\xea\xbfY\x06%\x0dw<\xbd\x05!\
    \xb6Wy\xc4\xd4\0\0\0\x01\0\0\0\xc5\x02ch94bb7a12b60da944f7faf1b386b8bb4f4cff3e11eac99317a924\
    81595b5f9b3a\x04Org1\x01\x02c0\x03n16\x02cc\0\x01\x02cc\0\x01\0\x04car4\0\0\0\0\x01\0\x04car\
    4\x01\0\0\0\x05white\0\0\x01\x04Org1\0\x02a0\0 3\x99d\xe1\xa7\xb2\x0f\x97)\x09b\xb0\xaf\xb1d\
    \xbc\x0f\x0ca\x9c\xc0LN\x96\x1de\xd9\xd8V1\x93\xfc\0 \xd7\xc0jR\xff(\xc8\x8f\xb7y\xb1\xe8\
    \x18\xcd\x1f\xc0j\x8f\xccV~\xe2\x04<\x85\x0e\xe23\x0e\x10\xbcG";

pub(crate) fn every_flag() -> &'static [u8] {
    EVERY_FLAG
}

static EVERY_FLAG: &[u8] =
    b"FBK2\0\0\0\0\0\0\0\x06 \x0a\x1e\xff\x09\xc2\xc4\x19\xab\xd3\x99,\xe5\xaa+\x03\x99\x07\xbc62\
    \xa6\xe2h\xc4\x9b\x87a\xfd7\xf4\x81n\xe6\xba\x02\xaax\x08\xe2\xce\xc2\x13\x01-\x8b0\xf5M\xd5\
    \x18!\xe8\x97\x85\xa06\xcc\xbc\xf1\x91\xf8\xf3t\xf6\0\0\0\x0c\0\0\0\xc5\x02ch6c2c3ef7af12670\
    e3bb9b5f57f8e342374ff729ee173fa633b8ed7b3682ce007\x04Org1\x01\x02c0\x03n17\x02cc\0\x01\x02cc\
    \0\x01\0\x04car5\0\0\0\0\x01\0\x04car5\x01\0\0\0\x05white\0\0\x01\x04Org1\x02\x02p0\0 \xe2\
    \xf4\xea\xf8\xf7#\x15\x17m\xdbXADa\xbch\xc7(\x0d\xd5\x08%\x11\"m0\x1d\x8ffS\xba\x80\0 e1\xb3\
    \xc5|c\xd3\x1a\x11w\xc9\x05\xdf\xa6\xa8\xec\x0f@\x89\0\xb0\x19d\xa6S\xc1\x16\xbbJ\xd8\xd8\
    \xd9\0\0\0\x02no\0\0\0\xbd\x02ch3be6f5f886a0057525e13bcfecb1d51fb100cfca411abbb488589fd466e1\
    a318\x04Org1\x01\x02c0\x03n18\x02cc\0\x01\x02cc\0\0\0\0\0\x01\0\x04car6\x01\0\0\0\x04grey\0\
    \0\x01\x04Org1\x02\x02p0\0 \xf8\xc7\x8a\xfe\xa3\xe1/\xc0\xa5*\x8b&\xac\xe5\xb98\x9f\x94M\x95\
    Z\xb1\xb6y\xc3\x16\x18lvU\xd3\xc8\0 !\xbfc\xf4AEU\x7f\xc0dA\x8dg-O\xbe\xe4(\xaaB\x1d\x1b\xc1\
    \xfaK<\xec\xdb@~d?\0\0\0\xaf\0\x02ch041025169220575ee9a75dfce2562224a54972024cf5e7a95c4a96de\
    e33e57c2\x04Org1\0\x02a0\x03n19\x02cc\0\x0b'Org2.peer'\x01\x04Org1\0\x02a0\0 \x1c\x86I\x17\
    \xea\x0arH&7]\xa0;\x91\x15l\x11C\xc5\xeb\xed*\xc9hRw\xbe\xfdR\xa6\x070\0 \x98\xa4\xbd\x14\
    \x90\xac\x9b\xea\xab\x05\0\xcb\xb2\xf8\xee\x99X\xb7\x05 +\xecASD\x10n\xe0\xc3\x8b_\xc6\0\0\0\
    \xbd\x02chdcc244f8a84649a5906976c26d1142780031de99a79bb567dff482cd7398d63e\x04Org1\x01\x02c0\
    \x03n20\x02cc\0\x01\x02cc\0\0\0\0\0\x01\0\x04car6\x01\0\0\0\x04grey\0\0\x01\x04Org1\x02\x02p\
    0\0 bnwo\x94\xabF\x99\xb5\x93\xd8\x13\xbb.W\xaf\x99s\x8f\xef\xecYv\xb0x\x82Dh\x07\xe65\xfc\0\
    \x20\xae\xdai\xb1`\x16\x10\xeb\x84gD/r\xd1@\xacZu\x92\xe3\xb3\xe7sj@\xa7_\x05\x88\x13\xde\
    \xbd\0\0\0\xbc\x02ch4d941d69b676a61aff49cd6e78f11d3727d68eebad17b933dd85233f09067498\x04Org1\
    \x01\x02c0\x02n1\x02cc\0\x01\x02cc\0\0\0\0\0\x01\0\x04car6\x01\0\0\0\x04grey\0\0\x01\x04Org1\
    \x02\x02p0\0 p\x19\x87>\x94\xb3\x06\x16\xb3g[\xdf\xed\x8e\xae\\f }\x1f\x80\x1f`\xbf~\xc7\xcb\
    \x07d3\x95\xdc\0 \xd5z\xce\xfeW\xbb\x94\x06\0\x97\x06\xa8\xea\x02\xf0\xc4\x80\xdd\x90\xbc\
    \x86\xbbk\x8fd\x97\x93\xd0\xc0\x91\x83\xea\0\0\0\xbe\x02chbbafbc9f0d08ceea8b0de8e2d7d5939fcd\
    8b686b57d0234560f80da2d7021bac\x04Org1\x01\x02c0\x03n22\x02cc\0\x01\x02cc\0\0\0\0\0\x01\0\
    \x04car2\x01\0\0\0\x05black\0\0\x01\x04Org1\x02\x02p0\0 \x89\xb1|\xc3\x93\xbak\xa1\xef\xe59\
    \xf7\xd5\xaf\xcf\xc9I\x80\xcaK\x99E\xc0\xfb\xe3\xac\x02k\xcc\x7f\x97\xe4\0 \xb6\xa2\xf7\xa5\
    \x0c\xe6\xec\x0b\xe6H[\x19.i\xf3)\xe0\x933\x19\x0e)\x13\xd4\xe3\xae\xc6\xea\x1f8\x9b\x9b\0\0\
    \0\xc5\x02ch0f579d4729f33a7b8723dafd643761daf14ba46bb5fdcaab3ef95edf5eced644\x04Org1\x01\x02\
    c0\x03n23\x02cc\0\x01\x02cc\0\x01\0\x04car5\0\0\0\0\x01\0\x04car5\x01\0\0\0\x05black\0\0\x01\
    \x04Org1\x02\x02p0\0 \xd0r\xba\xc91iK\xb7+F\x95\xa0\x18\x14h\x90x\xd8\x84L\xe8\xb3`\xd8R\x12\
    Z\0\x8cr\x88\x87\0 C\x1c\x1f&\xea\xc86\x8bc\x0f\xf2\xb1t\xbatDF7\xc7;\xc3\xfe\x89\xb0\xea\
    \x1e|zE@\x99\xca\0\0\x01\0\x02ch165b6934724e09bcc7dcf412d528c9f55413e9fd445903f1eb2c874c96f6\
    13ab\x04Org1\x01\x02c0\x03n24\x02cc\0\x01\x02cc\0\0\0\x01\0\x04car1\0\x04car9\x01\0\x03\0\
    \x04car2\0\0\0\0\0\0\0\x02\0\0\0\x01\0\x04car3\0\0\0\0\0\0\0\x02\0\0\0\x03\0\x04car4\0\0\0\0\
    \0\0\0\x05\0\0\0\0\0\x01\0\x05count\x01\0\0\0\x013\0\0\x01\x04Org1\x02\x02p0\0 \x0e]\x10\x9b\
    \xf4\xde\xfcx\xc0\x0a\xfe\xa8\xf3\xde\x90\xf0\x16\xe2(Qf\xaa\xc9p\xe0\x9a\x802\xd2\xcb\x1a\
    \xf5\0 \x0b\xe4\xec:\xd8\x81S!H9n\xfb\xbe\x04\x89\xf1v\\h\xe5aP8\xf7\xa8\x15\xcc\xab\xe4\xaa\
    \xca\xb5\0\0\0\xc0\x05otherc4c12c399273920fe066e90456f2e4141cd20f75c89d6350792d90f9678736e7\
    \x04Org1\x01\x02c0\x03n25\x02cc\0\x01\x02cc\0\0\0\0\0\x01\0\x04car6\x01\0\0\0\x04grey\0\0\
    \x01\x04Org1\x02\x02p0\0 e\xc0R\xee/i\x87k\xf8j\xc6i\x9f7?c\xa4\x84\x0f\xfb\x14\x18\x0b\xebS\
    \x04\x87\x80\xa3\x9f\x97B\0 J\xba\x7f\x06C\xdbu\xbe\xfctN3\x15I\xd8\xd1A\xd3\xdcc\xf4D\x9b\
    \xa6\xaf\xc7\xfc\xba@\x83\x11\xd4\0\0\0\xe3\x02ch3e4f7840baf4f6658c0fa9c6b312a53deab5917fec7\
    c7f44129b5c0db2b23a7c\x04Org1\x01\x02c0\x03n26\x02cc\0\x01\x02cc\0\x02\0\x04car2\x01\0\0\0\0\
    \0\0\0\x02\0\0\0\x01\0\x04car2\x01\0\0\0\0\0\0\0\x02\0\0\0\x01\0\0\0\x01\0\x04car6\x01\0\0\0\
    \x04grey\0\0\x01\x04Org1\x02\x02p0\0 Zg*\x0e\x03\xa2\x8bV\xccR\x9d$\x8a(\x18\xc0\xccg|\x9c\
    \xb0\xfe\xa0k\xfa]'\x16XF\xad\x04\0 =%w\xc3\xb9\xb1\xeb\x17\xca\x12AuL\xef\x18\xba&\xf4\xba\
    \"\x90(V\xba\xfcA\x03\x96\0\x7f\xbe\xf2\0\0\0\xbe\x02ch4fecde780b00ea81dc5b8fd860d9c4d917b60\
    db5e53969f6694f83b418c453f1\x04Org1\x01\x02c0\x03n27\x02cc\0\x01\x05parts\0\0\0\0\0\x01\0\
    \x05wheel\x01\0\0\0\x014\0\0\x01\x04Org1\x02\x02p0\0 %\xe3\xc5\xf6\x93\xa1\xc2\x09&v\xf6\xd7\
    \x0dk\xd2\xf7\xdfW\xde5\\F\xff\xdf\xb5\x86\xc7\xd7\x17\xfd\xcc+\0 X\x19\\\xf0\x1e\xcfT>\x06\
    \xad_\xfa\x81\"m!@\xdc\xdd\x07t`W\xb0\x9f\x12\xc0\x8d\xce\xcb\xf8Q";

pub(crate) fn lines() -> &'static str {
    LINES
}

static LINES: &str = "\
block 6 8a789cd576e3ddbe999daa46eb5af17df3f7bdebd04de980e932642975fe60c5
0 0 VALID
1 2 BAD_PAYLOAD
2 4 BAD_CREATOR_SIGNATURE creator Org1:client:c0
3 6 INVALID_CONFIG_TRANSACTION not-alone
4 8 BAD_PROPOSAL_TXID wanted fc72a154647f39ba60c7503b7c2debd18c99608711ac5adadee2152d196b82d3
5 9 DUPLICATE_TXID used 0 0 0 VALID
6 10 ENDORSEMENT_POLICY_FAILURE key cc car2 AND('Org1.peer','Org2.peer') Org1:peer:p0 missing Org2.peer
7 11 MVCC_READ_CONFLICT read cc car5 was absent is 6 0 by 0
8 12 PHANTOM_READ_CONFLICT range cc car1 car9 key car5 was absent is 6 0 all by 0
9 14 TARGET_CHAIN_NOT_FOUND channel other
10 22 BAD_RWSET repeated cc reads car2
11 25 INVALID_CHAINCODE undefined parts
";

pub(crate) fn objects() -> &'static str {
    OBJECTS
}

static OBJECTS: &str = "\
{\"kind\":\"block\",\"number\":6,\"hash\":\"8a789cd576e3ddbe999daa46eb5af17df3f7bdebd04de980e932642975fe60c5\"}
{\"kind\":\"reason\",\"tx\":0,\"flag\":0,\"name\":\"VALID\"}
{\"kind\":\"reason\",\"tx\":1,\"flag\":2,\"name\":\"BAD_PAYLOAD\"}
{\"kind\":\"reason\",\"tx\":2,\"flag\":4,\"name\":\"BAD_CREATOR_SIGNATURE\",\"reason\":\"creator\",\"creator\":{\"org\":\"Org1\",\"role\":\"client\",\"label\":\"c0\"}}
{\"kind\":\"reason\",\"tx\":3,\"flag\":6,\"name\":\"INVALID_CONFIG_TRANSACTION\",\"reason\":\"not-alone\"}
{\"kind\":\"reason\",\"tx\":4,\"flag\":8,\"name\":\"BAD_PROPOSAL_TXID\",\"reason\":\"wanted\",\"wanted\":\"fc72a154647f39ba60c7503b7c2debd18c99608711ac5adadee2152d196b82d3\"}
{\"kind\":\"reason\",\"tx\":5,\"flag\":9,\"name\":\"DUPLICATE_TXID\",\"reason\":\"used\",\"used\":{\"block\":0,\"tx\":0,\"flag\":0,\"name\":\"VALID\"}}
{\"kind\":\"reason\",\"tx\":6,\"flag\":10,\"name\":\"ENDORSEMENT_POLICY_FAILURE\",\"reason\":\"key\",\"namespace\":\"cc\",\"key\":\"car2\",\"policy\":\"AND('Org1.peer','Org2.peer')\",\"signers\":[{\"org\":\"Org1\",\"role\":\"peer\",\"label\":\"p0\"}],\"missing\":\"Org2.peer\"}
{\"kind\":\"reason\",\"tx\":7,\"flag\":11,\"name\":\"MVCC_READ_CONFLICT\",\"reason\":\"read\",\"namespace\":\"cc\",\"key\":\"car5\",\"was\":null,\"is\":{\"block\":6,\"tx\":0},\"by\":0}
{\"kind\":\"reason\",\"tx\":8,\"flag\":12,\"name\":\"PHANTOM_READ_CONFLICT\",\"reason\":\"range\",\"namespace\":\"cc\",\"start\":\"car1\",\"end\":\"car9\",\"key\":\"car5\",\"was\":null,\"is\":{\"block\":6,\"tx\":0},\"extent\":\"all\",\"by\":0}
{\"kind\":\"reason\",\"tx\":9,\"flag\":14,\"name\":\"TARGET_CHAIN_NOT_FOUND\",\"reason\":\"channel\",\"channel\":\"other\"}
{\"kind\":\"reason\",\"tx\":10,\"flag\":22,\"name\":\"BAD_RWSET\",\"reason\":\"repeated\",\"namespace\":\"cc\",\"list\":\"reads\",\"key\":\"car2\"}
{\"kind\":\"reason\",\"tx\":11,\"flag\":25,\"name\":\"INVALID_CHAINCODE\",\"reason\":\"undefined\",\"chaincode\":\"parts\"}
";

pub(crate) fn graph() -> &'static str {
    GRAPH
}

static GRAPH: &str = "\
digraph \"block 6\" {
  rankdir=RL
  node [fontname=\"sans-serif\", fontsize=12, style=filled]
  edge [fontname=\"sans-serif\", fontsize=10]
  t0 [label=\"0\\n0 VALID\", shape=ellipse, fillcolor=\"#dcefdc\"]
  t5 [label=\"5\\n9 DUPLICATE_TXID\", shape=trapezium, fillcolor=\"#cfe2f7\"]
  b0_0 [label=\"0 0\", shape=plain, style=\"\", fontsize=10]
  t5 -> b0_0 [label=\"id\"]
  t7 [label=\"7\\n11 MVCC_READ_CONFLICT\", shape=octagon, fillcolor=\"#f8c9c4\"]
  t7 -> t0 [label=\"cc car5\"]
  t8 [label=\"8\\n12 PHANTOM_READ_CONFLICT\", shape=hexagon, fillcolor=\"#e3cdf2\"]
  t8 -> t0 [label=\"cc car5\"]
}
";

pub(crate) fn whole_graph() -> &'static str {
    WHOLE_GRAPH
}

static WHOLE_GRAPH: &str = "\
digraph \"block 6\" {
  rankdir=RL
  node [fontname=\"sans-serif\", fontsize=12, style=filled]
  edge [fontname=\"sans-serif\", fontsize=10]
  t0 [label=\"0\\n0 VALID\", shape=ellipse, fillcolor=\"#dcefdc\"]
  t1 [label=\"1\\n2 BAD_PAYLOAD\", shape=box, fillcolor=\"#e6e6e6\"]
  t2 [label=\"2\\n4 BAD_CREATOR_SIGNATURE\", shape=box, fillcolor=\"#e6e6e6\"]
  t3 [label=\"3\\n6 INVALID_CONFIG_TRANSACTION\", shape=box, fillcolor=\"#e6e6e6\"]
  t4 [label=\"4\\n8 BAD_PROPOSAL_TXID\", shape=box, fillcolor=\"#e6e6e6\"]
  t5 [label=\"5\\n9 DUPLICATE_TXID\", shape=trapezium, fillcolor=\"#cfe2f7\"]
  b0_0 [label=\"0 0\", shape=plain, style=\"\", fontsize=10]
  t5 -> b0_0 [label=\"id\"]
  t6 [label=\"6\\n10 ENDORSEMENT_POLICY_FAILURE\", shape=house, fillcolor=\"#fbe3b6\"]
  t7 [label=\"7\\n11 MVCC_READ_CONFLICT\", shape=octagon, fillcolor=\"#f8c9c4\"]
  t7 -> t0 [label=\"cc car5\"]
  t8 [label=\"8\\n12 PHANTOM_READ_CONFLICT\", shape=hexagon, fillcolor=\"#e3cdf2\"]
  t8 -> t0 [label=\"cc car5\"]
  t9 [label=\"9\\n14 TARGET_CHAIN_NOT_FOUND\", shape=box, fillcolor=\"#e6e6e6\"]
  t10 [label=\"10\\n22 BAD_RWSET\", shape=box, fillcolor=\"#e6e6e6\"]
  t11 [label=\"11\\n25 INVALID_CHAINCODE\", shape=box, fillcolor=\"#e6e6e6\"]
}
";

pub(crate) fn counts() -> &'static str {
    COUNTS
}

static COUNTS: &str = "\
flag 0 VALID 11
flag 2 BAD_PAYLOAD 2
flag 4 BAD_CREATOR_SIGNATURE 1
flag 6 INVALID_CONFIG_TRANSACTION 1
flag 8 BAD_PROPOSAL_TXID 1
flag 9 DUPLICATE_TXID 2
flag 10 ENDORSEMENT_POLICY_FAILURE 4
flag 11 MVCC_READ_CONFLICT 2
flag 12 PHANTOM_READ_CONFLICT 2
flag 14 TARGET_CHAIN_NOT_FOUND 1
flag 22 BAD_RWSET 1
flag 25 INVALID_CHAINCODE 1
key cc car1 2 stale 1 phantom 1 policy 0 touched 0 in-block 2
key cc car2 2 stale 0 phantom 0 policy 2 touched 0 in-block 0
key cc car5 2 stale 1 phantom 1 policy 0 touched 0 in-block 2
chaincode cc 2 missing Org1.peer 2
";

pub(crate) fn later_counts() -> &'static str {
    LATER_COUNTS
}

static LATER_COUNTS: &str = "\
flag 0 VALID 3
flag 2 BAD_PAYLOAD 1
flag 4 BAD_CREATOR_SIGNATURE 1
flag 6 INVALID_CONFIG_TRANSACTION 1
flag 8 BAD_PROPOSAL_TXID 1
flag 9 DUPLICATE_TXID 1
flag 10 ENDORSEMENT_POLICY_FAILURE 2
flag 11 MVCC_READ_CONFLICT 1
flag 12 PHANTOM_READ_CONFLICT 1
flag 14 TARGET_CHAIN_NOT_FOUND 1
flag 22 BAD_RWSET 1
flag 25 INVALID_CHAINCODE 1
key cc car5 2 stale 1 phantom 1 policy 0 touched 0 in-block 2
chaincode cc 1 missing Org1.peer 1
";
