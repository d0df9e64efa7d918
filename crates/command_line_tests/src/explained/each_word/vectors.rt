//! A chain that has each word of a reason, and what is answered of it, made by vectors/explained.py.

use crate::fixture::Row;

pub(crate) fn channel() -> &'static [u8] {
    CHANNEL
}

static CHANNEL: &[u8] =
    b"channel ch\x0achaincode cc OR('Org1.peer','Org2.peer')\x0achaincode late AND('Org1.member','\
    Org1.admin')\x0achaincode deep OutOf(2,AND('Org1.peer','Org2.peer'),'Org2.peer','Org1.ordere\
    r')\x0aadmin AND('Org1.member',OR('Org1.admin','Org2.admin'))\x0a";

pub(crate) fn keys() -> &'static [u8] {
    KEYS
}

static KEYS: &[u8] =
    b"Org1:client:c0 11\x0aOrg1:peer:p0 22\x0aOrg2:peer:p0 33\x0aOrg1:admin:a0 44\x0a";

pub(crate) fn first_block() -> &'static [u8] {
    FIRST_BLOCK
}

static FIRST_BLOCK: &[u8] =
    b"FBK1\0\0\0\0\0\0\0\0\02\xccs?\x94\x11O\xd2\xf2U\xc5\xf2[%R\x04\x85\xa4\x1e\xd7\x0d$\xdb\x82-\
    '\xfc\x09\xdaH\x8d\x1c\0\0\0\x03\0\0\x01\xae\x02ch4d941d69b676a61aff49cd6e78f11d3727d68eebad\
    17b933dd85233f09067498\x04Org1\x01\x02c0\x02n1\x02cc\0\x01\x02cc\0\0\0\0\0\x05\0\x01a\x01\0\
    \0\0\x01v\0\x01c\x01\0\0\0\x01v\0\x01g\x01\0\0\0\x01v\0\x01k\x01\0\0\0\x01v\0\x01m\x01\0\0\0\
    \x01v\0\x03\0\x01g\x01\0@AND(OR(AND('Org1.peer','Org2.admin'),'Org1.peer'),'Org1.client')\0\
    \x01k\x01\0@AND('Org1.peer',OutOf(2,'Org2.peer','Org2.member','Org1.admin'))\0\x01m\x01\0BAN\
    D('Org1.member',OR('Org2.admin',AND('Org1.member','Org1.peer')))\x01\x04Org1\x02\x02p0\0 m!\
    \xb5\xcc\x87\x0839g\xe2\xdf\x17\xd7[\xf4T\xc2}k,\xac\xbf\xb46\x8c\xc5a\xe4\xc9\xeeV\xbc\0 \
    \x0c\x97Kc\xd8bo\xc0{/\xe9\xa1\xdb\x92^\x06\x13\xb3qE7a\xe6\x12/\xc1\xbc\x8a\x1a\xbf\xac\x0f\
    \0\0\0w\x02chb76915c274f990013592df05fee17b746f061366372c51ee83dc9d555cca5389\x04Org1\x01\
    \x02c0\x02n2\x02cc\0\0\0\0 <\xd3\x88\xc9V\x92\xf6\xac\x8f\xb2\x9cu\x9fa\xed\xd3\x09\\\x81\
    \xbf~\x04\xd7\xd2\xe8\xaa~\x8e!zl.\0\0\0w\x02chcf3bb1fc090fdf940ec32a523823d9f46da9203ce8208\
    7745337cb7eb11b2955\x04Org1\x02\x02p1\x02n3\x02cc\0\0\0\0 \xff\x11 &G\x094\x89\xca\x13T0\xe1\
    \\\xa2\x98\x9c\xc0\xf1;\x8e)\x015y\xbc\xd7\x19\xa5E]\xb3";

pub(crate) fn second_block() -> &'static [u8] {
    SECOND_BLOCK
}

static SECOND_BLOCK: &[u8] =
    b"FBK1\0\0\0\0\0\0\0\x01 \xa6\x95\xd0\xae\xb2O\x0e\xae\xda\xb4\xd4\xb0r\xbdi\x166\x96\xf4\xe5\
    \xcd\x12\x80Q\xa1\x14\x1da\xe7\x825\xcc\xb3\xb8n7P5\xa5wg`\xf2\x8a\xfd-\xf3\xcc\xfc\x95`\xb5\
    \xb9\x1e7\xc1]\xbe\xe8h.\xdaW\xf2\0\0\0\x1c\0\0\0\x02no\0\0\0x\x02ch9b9e5b9c8c4bfa943863db65\
    4d2653018cc85e02070290bfc39d54e458205114\x04Org3\x03\x03x y\x02n4\x02cc\0\0\0\0 \x90\x1e\xf9\
    A-\x95\x95\xfc\xbd\xc6\xc9\x86V\x18d\xc5\0\xa0\xab\xfb\xd3\xd5\xf6\xb24\xb5(=\x15\xde\x1dh\0\
    \0\0w\x02ch4d941d69b676a61aff49cd6e78f11d3727d68eebad17b933dd85233f09067498\x04Org1\x01\x02c\
    0\x02n1\x02cc\0\0\0\0 9\x9cD\xb8Mhs}12I\xea\x90xz\x8aW\xdaa:l\x88\x05\xc9A'.\x91\xcd^\xd7\
    \xea\0\0\0w\x02chb76915c274f990013592df05fee17b746f061366372c51ee83dc9d555cca5389\x04Org1\
    \x01\x02c0\x02n2\x02cc\0\0\0\0 <\xd3\x88\xc9V\x92\xf6\xac\x8f\xb2\x9cu\x9fa\xed\xd3\x09\\\
    \x81\xbf~\x04\xd7\xd2\xe8\xaa~\x8e!zl.\0\0\0\xbf\x02chc645fc47b120eee38305fa70923ee9b94bf27d\
    f6048d8e92ad6ad5160b1fbb51\x04Org1\x01\x02c0\x02n5\x02cc\0\x01\x02cc\0\0\0\0\0\x02\0\x01a\
    \x01\0\0\0\x01w\0\x01b\x01\0\0\0\x01v\0\0\x01\x04Org1\x02\x02p0\0 zc\x1f\xe7v\xd2\xddU\x80&\
    \xfc\xb4\xf8Q@Z\xce\x18:\xd0\xf9\x17\xa8\xb0\xd5\xcf\x1c\x0evdL\x0d\0 c\\\xc8\xfc\xa9}\xfd\
    \x9b\xed\xdd\xcb4\x949u\x0e\x95<\x1c\\z\x8c\x1a\x0e\xbap\xda\xb0\x01?\xb0=\0\0\0w\x02chc645f\
    c47b120eee38305fa70923ee9b94bf27df6048d8e92ad6ad5160b1fbb51\x04Org1\x01\x02c0\x02n5\x02cc\0\
    \0\0\0 \xec^\x9d`e\xbaQi\x1c{\xcd\x8a\xc8\x95\xba\x14 \xd16N5\x0eq\xb5\xab[\x7f\x89LBry\0\0\
    \0\xe3\x02ch291332360adafa3423b9c53a39a9e2d7728ec1023a0de7c05e53a03574b1fdb7\x04Org1\x01\x02\
    c0\x02n6\x02cc\0\x01\x02cc\0\0\0\x01\0\x01a\0\x01d\x01\0\x03\0\x01a\0\0\0\0\0\0\0\0\0\0\0\0\
    \0\x01b\0\0\0\0\0\0\0\x01\0\0\0\x04\0\x01c\0\0\0\0\0\0\0\0\0\0\0\0\0\0\0\0\x01\x04Org1\x02\
    \x02p0\0 1@\x1a\xad\xd6\xb1\xb8\xaf=U\x95\xddCJ\xd7\xadsE\x1a\xb7r\x88\xc1q\xc4\xfe\xb4\xc7\
    \x8ay:\xe5\0 \x7f\xb3\x96\x04\xa1q\x913\xb7uT\xbe[\xd4UW%z\xa2\xa9\xaf\xbe\x8a\x0d\xac\xb5ZF\
    \x8e\x0d\xf1j\0\0\0w\x02ch291332360adafa3423b9c53a39a9e2d7728ec1023a0de7c05e53a03574b1fdb7\
    \x04Org1\x01\x02c0\x02n6\x02cc\0\0\0\0 \xdb_\xa8\x8a\xc9Xu\x8cZ\x12\xa5\xd8\xf4\x83q\xc0 \
    \x9b\x02\xb3\xa9Q\x86tE\x9e#\x1e\xde\xe11\x0c\0\0\0\xc5\x02chb3a3ddced069beb56269de7fc4bce33\
    047936705c0d783bbaf0e6b90e99df9a6\x04Org1\x01\x02c0\x02n7\x02cc\0\x01\x02cc\0\0\0\x01\0\x01a\
    \0\x01d\0\0\x01\0\x01b\0\0\0\0\0\0\0\x01\0\0\0\x04\0\0\0\0\x01\x04Org1\x02\x02p0\0 \xe8\x8d\
    \xdc6\x1e\xc9\0\xb6\x9a\xd7g'\x98\x084\xa9d8\x9e]\0\xd1uI\xee\x96\xed\x96\x93\xbfEV\0 \xd6b5\
    \xa7\xae\xe3\x7f~\xd6\xf9\xef\xc0ag\x86\x87IG\x10\xb7\x01[\xb2N\x83\x81\\\xa1\x96\x11\x86,\0\
    \0\0\xe2\x02chf58d4b0daf61fc1bcaa5f78da380cc03ac8b5ee409dc7c216be6592c3538616a\x04Org1\x01\
    \x02c0\x02n8\x02cc\0\x01\x02cc\0\0\0\x01\0\x01a\0\0\0\0\x03\0\x01a\0\0\0\0\0\0\0\x01\0\0\0\
    \x04\0\x01b\0\0\0\0\0\0\0\x01\0\0\0\x04\0\x01c\0\0\0\0\0\0\0\x09\0\0\0\x09\0\0\0\0\x01\x04Or\
    g1\x02\x02p0\0 \x8bo\xb1\x17;\x8f;\x0c\x0e\xa57\x96\xcft\x95\xecW\x1d\xc5b\x01j\xc3%\xbd\xa3\
    V\xd5\x83\xe8\xf7\xd3\0 \xa6\x8a\xc4\xb5\x87\x04v\xc2\x9c\x1a\xb8\x0c\x0e\x14\x97\xf4\x01\
    \xa2\x1dI~z\xc5\x98\x1c\x1d\x8d\xab\x10\xcd\0\xc2\0\0\0\xb6\x02chfb0c9466ed86bfdb17d745d330b\
    a7c64a3e97b000639e63c034c77ec765ed8b6\x04Org1\x01\x02c0\x02n9\x02cc\0\x01\x02cc\0\0\0\x01\0\
    \x01c\0\x01d\x01\0\0\0\0\0\0\x01\x04Org1\x02\x02p0\0 6\xfa\x82>P\x86\x9bE\x94\xd1\x81Az\x89{\
    q\xc8Q[q\x8a\"*R\x97\xb2f\x8a\xe4cF\xb5\0 \xe8v\x97\xa2~\x06\xb7W\x86\x91\x81m\xfd^\xa9\x97w\
    \xe2\"\x8ba<\x85.\0-\xa0\x9d\x86S\xb7\x9a\0\0\0\xb2\x02ch1527b80098d87f315d357bd831b62730186\
    aea10870f759532c0664de8fa1547\x04Org1\x01\x02c0\x03n10\x02cc\0\x01\x02cc\0\0\0\0\0\x01\0\x01\
    c\0\0\0\x01\x04Org1\x02\x02p0\0 \x08%\xe0\xa4cBJ\x97\x1a\xa8sL\x8a\"\x9b\x09J\xa8\xd7\xe3\
    \xc8\x90\x03\xa47\xe5\x8c=@\xf9\xb6\xec\0 \xdf\x94j^\x10\"\xcaG\xda\x94z\xe3\x15\xed\xfbX>\
    \x87\xbfc0 \xf4\x0b\xcc(H\xc8\x1d\xb2 \xfc\0\0\0\xc6\x02ch003344f8f7840e96f76ef00d5e55912359\
    74d5951c67623f1f0ff2d2ade0a717\x04Org1\x01\x02c0\x03n11\x02cc\0\x01\x02cc\0\0\0\x01\0\x01c\0\
    \x01d\x01\0\x01\0\x01c\0\0\0\0\0\0\0\0\0\0\0\0\0\0\0\0\x01\x04Org1\x02\x02p0\0 qxA\x17\x1e\
    \xd8\xe8\xc9\xb4 |\x8a^\x99\xf5\x8d\xaf\x83dD\xb2\x8f\xae![=@\x12\xe8k\xb6\x15\0 a\x93\xa6\
    \xa1\xeaS\xbbV\xc7\x08\xd7\xb8\xbfBt\x94\xe5\x03\xee%n\xc6/\xc4\x9c2\x08H\xc0\x82}\x93\0\0\0\
    \xd4\x02ch60d54f34655897673a40b6622009f6f33deaf07b561cfd7da7ef9c435a364f88\x04Org1\x01\x02c0\
    \x03n12\x02cc\0\x01\x02cc\0\0\0\0\0\0\0\x02\0\x01a\x01\0\x0d'Org1.member'\0\x01c\x01\0\x0d'O\
    rg1.member'\x01\x04Org1\x02\x02p0\0 1\xfa\x90g\xd4e\x9a\x89Z=y\x94\x17\xa4\xe9I\x9a\x0b\x99\
    \xf1\xb7Z\xfc\x8dc\xa6}9\xf8\x11\xa3A\0 \x15=\xcb\xac\xb0\xb6&\x1aQ\xe4\xde|N-n\xd7\x93\x9ay\
    \xb4\xaf~\xc0\x1e?\x96\xb9\xb9\x8c$_\x10\0\0\0\xc6\x02ch6222d6c57bf59c3fe6cdd454830893799f40\
    d5aeca4fcf93f375888f6af22d5b\x04Org1\x01\x02c0\x03n13\x02cc\0\x01\x02cc\0\0\0\x01\0\x01a\0\
    \x01b\x01\0\x01\0\x01a\0\0\0\0\0\0\0\x01\0\0\0\x04\0\0\0\0\x01\x04Org1\x02\x02p0\0 \x13\xbfO\
    \xd3\xd9\xfd\0L\xa5\xd5\xe2\xb6/\xf5.3\x03T\xe4\xfd\xce\x9d|\x92\xdd\xe9\xda\xfcW\xad\xab\
    \xc7\0 \xff\xf1\xf5\0S\xf8\xf0t&[cC$va\xd5\xfb\xf2\xba\x19\xc2\xa1\xec\xbc?\xdbE\xaa+\x85`\
    \xb3\0\0\0\xc6\x02cha804741408c0adb0354d449524804781a5e0004616ace7861d5caad099e30a11\x04Org1\
    \x01\x02c0\x03n14\x02cc\0\x01\x02cc\0\0\0\x01\0\x01c\0\x01d\x01\0\x01\0\x01c\0\0\0\0\0\0\0\0\
    \0\0\0\0\0\0\0\0\x01\x04Org1\x02\x02p0\0 \xcb+\x1d\xa0\xee\xdd\xa5\xe6Ri\xe9\xafs\x82k\x9e\
    \x12gec\x15\xa1\xe3\xa8t\xa3OM\x92`=\x02\0 \xdf\xbf$\x0b\xe6e\x8c\\\xa8\xfc\x8dgJ\x90\xd1\\\
    \xbb\x8fef\x8eB\xaf\xb6\xc7\xb9\x90\xfaAcDT\0\0\0\xd0\x02ch1b46b3c439f50894985c33091696b4630\
    6f0a8cf5f0d9f57b21b2cefcb71881b\x04Org1\x01\x02c0\x03n15\x02cc\0\x01\x02cc\0\0\0\x02\0\x01a\
    \0\x01d\x01\0\x01\0\x01a\0\0\0\0\0\0\0\x01\0\0\0\x0d\0\x01a\0\0\0\0\x03\0\x01b\0\0\0\0\0\0\0\
    \0\0\0\0\0\0\x01c\0\0\0\0\0\0\0\0\0\0\0\0\0\x01c\0\0\0\0\0\0\0\0\0\0\0\x01\0\0\0\0\0\0 \xbb\
    \x87\xd0\x1f8;\xf1\xedO3)\xdb}\x80\xc6Z\x91+\x9bl\xd2\x92\x15\xb1\xb8H\xe7Lu\xbdb\x92\0\0\0\
    \xd7\x02ch94bb7a12b60da944f7faf1b386b8bb4f4cff3e11eac99317a92481595b5f9b3a\x04Org1\x01\x02c0\
    \x03n16\x02cc\0\x02\x02cc\0\0\0\x01\0\x01a\0\x01d\x01\0\x01\0\x01b\0\0\0\0\0\0\0\x01\0\0\0\
    \x04\0\0\0\0\x04deep\0\0\0\x02\0\x01a\0\x01b\x01\0\0\0\0\0\x01b\0\0\x02\0\x01a\0\0\0\0\0\0\0\
    \0\0\0\0\0\0\x01b\0\0\0\0\0\0\0\0\0\0\0\0\0\0\0\0\0\0 \xc5\xc6Z8\x0d\x1e\xfd0sT\xd8C5\xca5\
    \xd1kd\xbe'\xb3^\xdb \xbe\x08|\xac\x06\x0e\x18\x83\0\0\x019\x02ch6c2c3ef7af12670e3bb9b5f57f8\
    e342374ff729ee173fa633b8ed7b3682ce007\x04Org1\x01\x02c0\x03n17\x02cc\0\x01\x02cc\0\0\0\0\0\
    \x01\0\x01k\x01\0\0\0\x01w\0\0\x04\x04Org1\x02\x02p0\0 \xb6\xbc\xcf\x8c\x16\xb6T\xac-\x7f\
    \x1fqHu\x85F,,]\xf1\x8d\x8f\x18\x19##LJ\x1c\xb8\x16\xff\x04Org1\x02\x02p1\0 \xcaC\x9c]\x7f\
    \xbe\xc1\x9d\xd8\xa4\x98\xc3?\xe3\xe1*]$\xe5\xd3\xcd\xbe\x16j\x80Wn\xe2s\xf4\x89E\x04Org3\
    \x03\x03x y\0 \x9f\x86\x86\xe5\xa5\x0b\xbc7\xa3B\x0f\x89\x81\x90\xb7\xae(\xd3_j0^\xe8\xf8\
    \xd3\x97\xd0,N\xcd\x92\x1f\x04Org1\x02\x02p1\0 \xcaC\x9c]\x7f\xbe\xc1\x9d\xd8\xa4\x98\xc3?\
    \xe3\xe1*]$\xe5\xd3\xcd\xbe\x16j\x80Wn\xe2s\xf4\x89E\0 w\xaf\xe9\xa5\xd46\xb5y\xf3n\xc5#^8\
    \x0f\x10\x0e\x88MY\x1c\xa9\xed\xcc\x88\x9c\x0b\x9cK\xa75*\0\0\0\xe2\x02ch3be6f5f886a0057525e\
    13bcfecb1d51fb100cfca411abbb488589fd466e1a318\x04Org1\x01\x02c0\x03n18\x02cc\0\x01\x02cc\0\0\
    \0\0\0\x01\0\x01k\x01\0\0\0\x01w\0\0\x02\x04Org1\x02\x02p0\0 [\xf7\x93)\x97,C\x0a\xc2\xb1N,\
    \xef\xf5\x15\xb7F\x9a\xb0:aK\x9d\xc5%\xc4\xa6\xbd\0m\xf9\xb1\x04Org2\x02\x02p0\0 \x03V+e\xd6\
    \x17\x0b\xb7#\x82\xcd\xebP\x02\x13J\xdckp\xf0\xc1F[I\xebX\x9c\x98\xe6\xec\xecO\0 \xab\xf7\
    \x02\x03\x8d\xab\xeb\x19m\xde$K\x978\x9ak\xafL\xb8\\\xc7\x06\xfdN\xea\x0f\xbf\x81>_\xa4R\0\0\
    \0\xdb\x02chab65862a9c53645598c16203e0f825917785d734dc67304370d207b0b7e69c2f\x04Org1\x01\x02\
    c0\x03n19\x02cc\0\x01\x02cc\0\0\0\0\0\x01\0\x01k\x01\0\0\0\x04grey\0\0\x04\x04Org2\x02\x02p0\
    \0\0\x04Org1\x02\x02p0\0\0\x04Org1\x02\x02p0\0 w69\x8d\x1b\x85\x0a\x87\xce\x89\xc3\xa9\xd0P\
    \x08\xb92\xb8\x834\x07x\xdaF\xf5\xbb\xea\xa1\x12\x85\xd7h\x04Org2\x02\x02p0\0\0\0 \xd5\xbc7\
    \x87Urv\x07\xec{\xc9\x1c\xef9\x02\0\xfa\x9c\xf2P\xecq=\xf1\x19\x94\x811#\x849\xcc\0\0\0\xb7\
    \x02chfc72a154647f39ba60c7503b7c2debd18c99608711ac5adadee2152d196b82d3\x04Org1\x01\x02c0\x03\
    n20\x02cc\0\x01\x02cc\0\0\0\0\0\x01\0\x01g\x01\0\0\0\x01w\0\0\x01\x04Org1\x02\x02p0\0 \xda\
    \xd3\xdf'm>\xf7\"v\xec)\xb1\xd5n\x1b\x92\x95N$\xe0\x9d\xe2\x1a\x05Mwf1?\xc7\x11W\0 |\xc0j\
    \x9a\x8a\xa7\x8d\xaf\xd0=I\x18\x91OJu\x10[\xafJ\x03\x81\xe7\xdd\xcaq\x98\xd3\x14l\xe4_\0\0\
    \x01\x0d\x02chdcc244f8a84649a5906976c26d1142780031de99a79bb567dff482cd7398d63e\x04Org1\x01\
    \x02c0\x03n21\x02cc\0\x01\x02cc\0\0\0\0\0\x01\0\x01m\x01\0\0\0\x01w\0\0\x03\x04Org1\x02\x02p\
    0\0 \xc3\x80H.P|\xa7\xf3\xdeN\xf5}@\x9dv\x83\x04~\xc2\x960\xf7xz|\xb9FU$\x1ePO\x04Org1\0\x02\
    a0\0 \xd1\x0d\x80\x02\xf00\xa9\xa8?\x10\x86.\xc4\x12\x17f\xca\x81\xda:\xd1(}\x9b\xe0\x08\xe5\
    t\xda\x06\xc9\x86\x04Org1\x01\x02c0\0 }@$\xc5Q\xe5\xc7I\x9f\xc5k]\x16\xf6\x1ci\xa0`#\xf3\xb2\
    $&\xf2\xe9\xe5@_X\xb9H\xb5\0 0 \x18A^\xeaU\xe7 \xff\x14\xe3B6\x9e\xfe\x825d#\xbd\x9d\x0d\x1e\
    \xa4\x9d\xb2\x8c\x0de\x1f\x16\0\0\x01\x11\x02chbbafbc9f0d08ceea8b0de8e2d7d5939fcd8b686b57d02\
    34560f80da2d7021bac\x04Org1\x01\x02c0\x03n22\x04late\0\x01\x04late\0\0\0\0\0\x01\0\x01x\x01\
    \0\0\0\x01w\0\0\x03\x04Org1\0\x02a0\0 \xe9\xfbk\x7f\x09\xb6\x83\x1fI\x975)!\xc1f\xb4\xba\xc2\
    \xf0\xf7\x9b\x1a\xa5+\xe5\x87S\xac\x8c\xdb\xac\xc0\x04Org1\x02\x02p0\0 nbo7\x96v\x9c\x02\x05\
    \xa3\x9a\x0a\xd12\x98bX\xa09\x19\xb8\x09\xe6~\x93\xc9\xfadn\xe3\xc5\x19\x04Org1\0\x02a0\0 \
    \xe9\xfbk\x7f\x09\xb6\x83\x1fI\x975)!\xc1f\xb4\xba\xc2\xf0\xf7\x9b\x1a\xa5+\xe5\x87S\xac\x8c\
    \xdb\xac\xc0\0 \xae\xef\x19\xb1\xcf?\xc4\x0f\"\x0a\x17\x8f\xed\xc4\xb3\xb6t\xf2\x7f\xeb&\xfe\
    \x8d\xa0\x80\x960NM\x0dtR\0\0\0\xa5\x02ch0f579d4729f33a7b8723dafd643761daf14ba46bb5fdcaab3ef\
    95edf5eced644\x04Org1\x01\x02c0\x03n23\x04deep\0\0\x01\x04Org1\x02\x02p1\0 a\xc4\xed\x83C\
    \xa1\xa1%\xf6\x8c\x9a\xe1\x09c\xe8\x10O\xf1\xea\x0c%(V*\0\xe3\xdf\x1a\xe9\xc2\xce\x03\0 \xe5\
    \xd5i\xac\x90\xdf9\xffp5\x1b\x8b\xc9\xd1\xb8\x10\x8b.`\x17\xb4CF\x02\xfa\x89\x06@\xf9\xdec_\
    \0\0\0\xd0\x02ch165b6934724e09bcc7dcf412d528c9f55413e9fd445903f1eb2c874c96f613ab\x04Org1\x01\
    \x02c0\x03n24\x04deep\0\0\x02\x04Org1\x02\x02p0\0 \x1b\x9b>\xfaw\xd3\xe6\x95\xa1\xff\x81\x0d\
    \x1c\xc1rc\xe8\x16\xf5\xb3\xd0_sJ\x7f\xc2n\x05\xbb\x8a\xa2\xa3\x04Org2\x02\x02p0\0 \x0e$\x1c\
    \x81\x03T\x87\x10)\xf1-\xd6'\xfa.n~\xdf_\x07\xeeR\xd8\x08\xdc\xfd\xe2[\xd1u\0\xbb\0 \x0d\x0f\
    \x9b\05\xb5\xac\xe0\xec\x97\x16\x07&v^\xa5\xd1\x88R\xaa\xd4>rd\xf7N\xf5)(\xa2>\xc4\0\0\0\xbd\
    \x02ch\0 %\xff------------------------------------------------------------\x04Org1\x01\x02c0\
    \x03n26\x02cc\0\x01\x02cc\0\0\0\0\0\x01\0\x04car6\x01\0\0\0\x04grey\0\0\x01\x04Org1\x02\x02p\
    0\0 W\x97qV\xf0\xd0fU\xd5\x13\xaf\xd8sp3\xb4\x0a\x8bc\x8f\x81f\xeaA&\xa8\xc1i+\xe28\x7f\0 \
    \xc5\xd4\xda\xeb\x8d`\x82\xf1E\xec\xb3\xa4\xacb\x91\xf6[\xcb\x88\xd8\x0b\xa53\xb2<?-\xaaF~\
    \xb0\x94\0\0\0\xbf\x05otherc645fc47b120eee38305fa70923ee9b94bf27df6048d8e92ad6ad5160b1fbb51\
    \x04Org1\x01\x02c0\x02n5\x02cc\0\x01\x02cc\0\0\0\0\0\x01\0\x04car6\x01\0\0\0\x04grey\0\0\x01\
    \x04Org1\x02\x02p0\0 \x9fN?Xz\x95\xd8A\xbc\x0a\x7fTEL\xf5\xf31\x1d/G\x82\x1a\x91L\x8cc\xe8\
    \xe8\xa3\x88\x0b\x16\0 \xb5+\xbe\x12\xbdj\x1f\x09\xaa\xc9\xfe\xc2\xc7#\xf4\xd8\x8f\xbd|\xa0K\
    \xce\x15\x90\x8b\x1a\x1f\xd8\x0d\xe1\x06o";

pub(crate) fn third_block() -> &'static [u8] {
    THIRD_BLOCK
}

static THIRD_BLOCK: &[u8] =
    b"FBK2\0\0\0\0\0\0\0\x02 \xbf\x87\xb9n\x1d\xf1\xfe9}3\xa2\x0c:\xde\xa0m\xc5\x0f\xb4#\x0f\x9d\
    \x87H\xb9Y\x81^\xdfAzK\xaeKm\xee\x07\x93`\"\xfcj\x07+\xe4d\xe6\xcd5\xac\xf9\xe3\xba\xa6\x9fh\
    \xc0\xec\xf3\x1e\x0c2\xfe\x93\0\0\0\x01\0\0\x01\x05\0\x02chc4c12c399273920fe066e90456f2e4141\
    cd20f75c89d6350792d90f9678736e7\x04Org1\x01\x02c0\x03n25\x02cc\0\x0b'Org2.peer'\x03\x04Org1\
    \0\x02a0\0 d7\x07(2\xc7\xaa\xa6_\x1d6\xf7\xd8\xac\x93*S\xe8\x1f\x0e\x0b\x7f\xcf\x99\xd0\xf2\
    \xf23\xf2\xab9\x80\x04Org1\x02\x02p1\0 q\x19\x88HW{s r\xfc\x1bo\xe1?\x0a\xbc\x8dED\x03e\x06#\
    \xec%\xe7\xd8\"\\\x197\xca\x04Org1\x02\x02p0\0 \xf0\x0a\xfb*\xd2D\x05UdB\xf0*\x85c\xc6\x86\
    \xbd\x0drPI@\xe3q\x99\xe10~\x84U\xda\xac\0 A=<\xab\x0b\xa4A\x17\xc6Hwb\xedpb\xa1\xce\x9aE\
    \xd0]C\xaa\x91wd\x14\xf8\xac\x1d\xd1+";

/// Words behind those of the channel and the keys.
pub(crate) fn answers() -> &'static [Row<'static>] {
    &ANSWERS
}

static ANSWERS: [Row<'static>; 28] = [
    (
        "explain b0 b1",
        0,
        "\
block 1 bf87b96e1df1fe397d33a20c3adea06dc50fb4230f9d8748b959815edf417a4b
0 2 BAD_PAYLOAD
1 4 BAD_CREATOR_SIGNATURE creator Org3:orderer:x%20y
2 9 DUPLICATE_TXID used 0 0 0 VALID
3 9 DUPLICATE_TXID used 0 1 10 ENDORSEMENT_POLICY_FAILURE
4 0 VALID
5 9 DUPLICATE_TXID used 1 4 0 VALID
6 12 PHANTOM_READ_CONFLICT range cc a d key a was 0 0 is 1 4 all by 4
7 9 DUPLICATE_TXID used 1 6 12 PHANTOM_READ_CONFLICT
8 12 PHANTOM_READ_CONFLICT range cc a d key a was absent is 1 4 part by 4
9 12 PHANTOM_READ_CONFLICT range cc a % key c was 9 9 is 0 0 part
10 12 PHANTOM_READ_CONFLICT range cc c d key c was absent is 0 0 all
11 0 VALID
12 12 PHANTOM_READ_CONFLICT range cc c d key c was 0 0 is absent all by 11
13 0 VALID
14 12 PHANTOM_READ_CONFLICT range cc a b key a was 1 4 is 1 13 all by 13
15 12 PHANTOM_READ_CONFLICT range cc c d key c was 0 0 is absent all by 11
16 22 BAD_RWSET fallen cc a % key c range 1 result 2
17 22 BAD_RWSET outside deep % b key b range 1 result 1
18 10 ENDORSEMENT_POLICY_FAILURE key cc k AND('Org1.peer',OutOf(2,'Org2.peer','Org2.member','Org1.admin')) Org1:peer:p0 refused Org1:peer:p1 Org3:orderer:x%20y missing Org2.peer
19 10 ENDORSEMENT_POLICY_FAILURE key cc k AND('Org1.peer',OutOf(2,'Org2.peer','Org2.member','Org1.admin')) Org1:peer:p0 Org2:peer:p0 missing Org2.member
20 10 ENDORSEMENT_POLICY_FAILURE key cc k AND('Org1.peer',OutOf(2,'Org2.peer','Org2.member','Org1.admin')) Org1:peer:p0 refused Org2:peer:p0 missing Org2.peer
21 10 ENDORSEMENT_POLICY_FAILURE key cc g AND(OR(AND('Org1.peer','Org2.admin'),'Org1.peer'),'Org1.client') Org1:peer:p0 missing Org1.client
22 10 ENDORSEMENT_POLICY_FAILURE key cc m AND('Org1.member',OR('Org2.admin',AND('Org1.member','Org1.peer'))) Org1:peer:p0 Org1:admin:a0 Org1:client:c0 missing Org2.admin order
23 10 ENDORSEMENT_POLICY_FAILURE chaincode late x AND('Org1.member','Org1.admin') Org1:admin:a0 Org1:peer:p0 missing Org1.admin order
24 10 ENDORSEMENT_POLICY_FAILURE named deep OutOf(2,AND('Org1.peer','Org2.peer'),'Org2.peer','Org1.orderer') refused Org1:peer:p1 missing Org1.peer
25 10 ENDORSEMENT_POLICY_FAILURE named deep OutOf(2,AND('Org1.peer','Org2.peer'),'Org2.peer','Org1.orderer') Org1:peer:p0 Org2:peer:p0 missing Org2.peer
26 8 BAD_PROPOSAL_TXID wanted 3e4f7840baf4f6658c0fa9c6b312a53deab5917fec7c7f44129b5c0db2b23a7c
27 14 TARGET_CHAIN_NOT_FOUND channel other
",
        "",
    ),
    (
        "explain --ids b0 b1",
        0,
        "\
block 1 bf87b96e1df1fe397d33a20c3adea06dc50fb4230f9d8748b959815edf417a4b
0 2 BAD_PAYLOAD
1 4 BAD_CREATOR_SIGNATURE creator Org3:orderer:x%20y id 9b9e5b9c8c4bfa943863db654d2653018cc85e02070290bfc39d54e458205114
2 9 DUPLICATE_TXID used 0 0 0 VALID id 4d941d69b676a61aff49cd6e78f11d3727d68eebad17b933dd85233f09067498
3 9 DUPLICATE_TXID used 0 1 10 ENDORSEMENT_POLICY_FAILURE id b76915c274f990013592df05fee17b746f061366372c51ee83dc9d555cca5389
4 0 VALID id c645fc47b120eee38305fa70923ee9b94bf27df6048d8e92ad6ad5160b1fbb51
5 9 DUPLICATE_TXID used 1 4 0 VALID id c645fc47b120eee38305fa70923ee9b94bf27df6048d8e92ad6ad5160b1fbb51
6 12 PHANTOM_READ_CONFLICT range cc a d key a was 0 0 is 1 4 all by 4 id 291332360adafa3423b9c53a39a9e2d7728ec1023a0de7c05e53a03574b1fdb7
7 9 DUPLICATE_TXID used 1 6 12 PHANTOM_READ_CONFLICT id 291332360adafa3423b9c53a39a9e2d7728ec1023a0de7c05e53a03574b1fdb7
8 12 PHANTOM_READ_CONFLICT range cc a d key a was absent is 1 4 part by 4 id b3a3ddced069beb56269de7fc4bce33047936705c0d783bbaf0e6b90e99df9a6
9 12 PHANTOM_READ_CONFLICT range cc a % key c was 9 9 is 0 0 part id f58d4b0daf61fc1bcaa5f78da380cc03ac8b5ee409dc7c216be6592c3538616a
10 12 PHANTOM_READ_CONFLICT range cc c d key c was absent is 0 0 all id fb0c9466ed86bfdb17d745d330ba7c64a3e97b000639e63c034c77ec765ed8b6
11 0 VALID id 1527b80098d87f315d357bd831b62730186aea10870f759532c0664de8fa1547
12 12 PHANTOM_READ_CONFLICT range cc c d key c was 0 0 is absent all by 11 id 003344f8f7840e96f76ef00d5e5591235974d5951c67623f1f0ff2d2ade0a717
13 0 VALID id 60d54f34655897673a40b6622009f6f33deaf07b561cfd7da7ef9c435a364f88
14 12 PHANTOM_READ_CONFLICT range cc a b key a was 1 4 is 1 13 all by 13 id 6222d6c57bf59c3fe6cdd454830893799f40d5aeca4fcf93f375888f6af22d5b
15 12 PHANTOM_READ_CONFLICT range cc c d key c was 0 0 is absent all by 11 id a804741408c0adb0354d449524804781a5e0004616ace7861d5caad099e30a11
16 22 BAD_RWSET fallen cc a % key c range 1 result 2 id 1b46b3c439f50894985c33091696b46306f0a8cf5f0d9f57b21b2cefcb71881b
17 22 BAD_RWSET outside deep % b key b range 1 result 1 id 94bb7a12b60da944f7faf1b386b8bb4f4cff3e11eac99317a92481595b5f9b3a
18 10 ENDORSEMENT_POLICY_FAILURE key cc k AND('Org1.peer',OutOf(2,'Org2.peer','Org2.member','Org1.admin')) Org1:peer:p0 refused Org1:peer:p1 Org3:orderer:x%20y missing Org2.peer id 6c2c3ef7af12670e3bb9b5f57f8e342374ff729ee173fa633b8ed7b3682ce007
19 10 ENDORSEMENT_POLICY_FAILURE key cc k AND('Org1.peer',OutOf(2,'Org2.peer','Org2.member','Org1.admin')) Org1:peer:p0 Org2:peer:p0 missing Org2.member id 3be6f5f886a0057525e13bcfecb1d51fb100cfca411abbb488589fd466e1a318
20 10 ENDORSEMENT_POLICY_FAILURE key cc k AND('Org1.peer',OutOf(2,'Org2.peer','Org2.member','Org1.admin')) Org1:peer:p0 refused Org2:peer:p0 missing Org2.peer id ab65862a9c53645598c16203e0f825917785d734dc67304370d207b0b7e69c2f
21 10 ENDORSEMENT_POLICY_FAILURE key cc g AND(OR(AND('Org1.peer','Org2.admin'),'Org1.peer'),'Org1.client') Org1:peer:p0 missing Org1.client id fc72a154647f39ba60c7503b7c2debd18c99608711ac5adadee2152d196b82d3
22 10 ENDORSEMENT_POLICY_FAILURE key cc m AND('Org1.member',OR('Org2.admin',AND('Org1.member','Org1.peer'))) Org1:peer:p0 Org1:admin:a0 Org1:client:c0 missing Org2.admin order id dcc244f8a84649a5906976c26d1142780031de99a79bb567dff482cd7398d63e
23 10 ENDORSEMENT_POLICY_FAILURE chaincode late x AND('Org1.member','Org1.admin') Org1:admin:a0 Org1:peer:p0 missing Org1.admin order id bbafbc9f0d08ceea8b0de8e2d7d5939fcd8b686b57d0234560f80da2d7021bac
24 10 ENDORSEMENT_POLICY_FAILURE named deep OutOf(2,AND('Org1.peer','Org2.peer'),'Org2.peer','Org1.orderer') refused Org1:peer:p1 missing Org1.peer id 0f579d4729f33a7b8723dafd643761daf14ba46bb5fdcaab3ef95edf5eced644
25 10 ENDORSEMENT_POLICY_FAILURE named deep OutOf(2,AND('Org1.peer','Org2.peer'),'Org2.peer','Org1.orderer') Org1:peer:p0 Org2:peer:p0 missing Org2.peer id 165b6934724e09bcc7dcf412d528c9f55413e9fd445903f1eb2c874c96f613ab
26 8 BAD_PROPOSAL_TXID wanted 3e4f7840baf4f6658c0fa9c6b312a53deab5917fec7c7f44129b5c0db2b23a7c id %00%20%25%FF------------------------------------------------------------
27 14 TARGET_CHAIN_NOT_FOUND channel other id c645fc47b120eee38305fa70923ee9b94bf27df6048d8e92ad6ad5160b1fbb51
",
        "",
    ),
    (
        "explain b0 b1 b2",
        0,
        "\
block 2 e3eedc67c93de5ac8a3350fb70bf28efdc6c7939726a59b4f7830479ebb51d5b
0 6 INVALID_CONFIG_TRANSACTION admin AND('Org1.member',OR('Org1.admin','Org2.admin')) Org1:admin:a0 Org1:peer:p0 refused Org1:peer:p1 missing Org1.admin order
",
        "",
    ),
    (
        "explain --ids b0 b1 b2",
        0,
        "\
block 2 e3eedc67c93de5ac8a3350fb70bf28efdc6c7939726a59b4f7830479ebb51d5b
0 6 INVALID_CONFIG_TRANSACTION admin AND('Org1.member',OR('Org1.admin','Org2.admin')) Org1:admin:a0 Org1:peer:p0 refused Org1:peer:p1 missing Org1.admin order id c4c12c399273920fe066e90456f2e4141cd20f75c89d6350792d90f9678736e7
",
        "",
    ),
    (
        "explain --tx 22 b0 b1",
        0,
        "\
block 1 bf87b96e1df1fe397d33a20c3adea06dc50fb4230f9d8748b959815edf417a4b
22 10 ENDORSEMENT_POLICY_FAILURE key cc m AND('Org1.member',OR('Org2.admin',AND('Org1.member','Org1.peer'))) Org1:peer:p0 Org1:admin:a0 Org1:client:c0 missing Org2.admin order
",
        "",
    ),
    (
        "explain --ids --tx 0 b0 b1",
        0,
        "\
block 1 bf87b96e1df1fe397d33a20c3adea06dc50fb4230f9d8748b959815edf417a4b
0 2 BAD_PAYLOAD
",
        "",
    ),
    (
        "explain --ids --tx 26 b0 b1",
        0,
        "\
block 1 bf87b96e1df1fe397d33a20c3adea06dc50fb4230f9d8748b959815edf417a4b
26 8 BAD_PROPOSAL_TXID wanted 3e4f7840baf4f6658c0fa9c6b312a53deab5917fec7c7f44129b5c0db2b23a7c id %00%20%25%FF------------------------------------------------------------
",
        "",
    ),
    ("explain --ids --tx 28 b0 b1", 2, "", "no transaction 28\n"),
    (
        "explain --id c645fc47b120eee38305fa70923ee9b94bf27df6048d8e92ad6ad5160b1fbb51 b0 b1",
        0,
        "\
block 1 bf87b96e1df1fe397d33a20c3adea06dc50fb4230f9d8748b959815edf417a4b
4 0 VALID
5 9 DUPLICATE_TXID used 1 4 0 VALID
27 14 TARGET_CHAIN_NOT_FOUND channel other
",
        "",
    ),
    (
        "explain --ids --id c645fc47b120eee38305fa70923ee9b94bf27df6048d8e92ad6ad5160b1fbb51 b0 b1",
        0,
        "\
block 1 bf87b96e1df1fe397d33a20c3adea06dc50fb4230f9d8748b959815edf417a4b
4 0 VALID id c645fc47b120eee38305fa70923ee9b94bf27df6048d8e92ad6ad5160b1fbb51
5 9 DUPLICATE_TXID used 1 4 0 VALID id c645fc47b120eee38305fa70923ee9b94bf27df6048d8e92ad6ad5160b1fbb51
27 14 TARGET_CHAIN_NOT_FOUND channel other id c645fc47b120eee38305fa70923ee9b94bf27df6048d8e92ad6ad5160b1fbb51
",
        "",
    ),
    (
        "explain --id 4d941d69b676a61aff49cd6e78f11d3727d68eebad17b933dd85233f09067498 b0 b1",
        0,
        "\
block 1 bf87b96e1df1fe397d33a20c3adea06dc50fb4230f9d8748b959815edf417a4b
2 9 DUPLICATE_TXID used 0 0 0 VALID
",
        "",
    ),
    (
        "explain --id %00%20%25%FF------------------------------------------------------------ b0 b1",
        0,
        "\
block 1 bf87b96e1df1fe397d33a20c3adea06dc50fb4230f9d8748b959815edf417a4b
26 8 BAD_PROPOSAL_TXID wanted 3e4f7840baf4f6658c0fa9c6b312a53deab5917fec7c7f44129b5c0db2b23a7c
",
        "",
    ),
    (
        "explain --ids --id %00%20%25%ff%2d%2d%2d%2d%2d%2d%2d%2d%2d%2d%2d%2d%2d%2d%2d%2d%2d%2d%2d%2d%\
    2d%2d%2d%2d%2d%2d%2d%2d%2d%2d%2d%2d%2d%2d%2d%2d%2d%2d%2d%2d%2d%2d%2d%2d%2d%2d%2d%2d%2d%2d%2d\
    %2d%2d%2d%2d%2d%2d%2d%2d%2d b0 b1",
        0,
        "\
block 1 bf87b96e1df1fe397d33a20c3adea06dc50fb4230f9d8748b959815edf417a4b
26 8 BAD_PROPOSAL_TXID wanted 3e4f7840baf4f6658c0fa9c6b312a53deab5917fec7c7f44129b5c0db2b23a7c id %00%20%25%FF------------------------------------------------------------
",
        "",
    ),
    (
        "explain --id 4d941d69b676a61aff49cd6e78f11d3727d68eebad17b933dd85233f09067498 b0",
        0,
        "\
block 0 a695d0aeb24f0eaedab4d4b072bd69163696f4e5cd128051a1141d61e78235cc
0 0 VALID
",
        "",
    ),
    (
        "explain --ids --id c4c12c399273920fe066e90456f2e4141cd20f75c89d6350792d90f9678736e7 b0 b1 b2",
        0,
        "\
block 2 e3eedc67c93de5ac8a3350fb70bf28efdc6c7939726a59b4f7830479ebb51d5b
0 6 INVALID_CONFIG_TRANSACTION admin AND('Org1.member',OR('Org1.admin','Org2.admin')) Org1:admin:a0 Org1:peer:p0 refused Org1:peer:p1 missing Org1.admin order id c4c12c399273920fe066e90456f2e4141cd20f75c89d6350792d90f9678736e7
",
        "",
    ),
    (
        "explain --id 4d941d69b676a61aff49cd6e78f11d3727d68eebad17b933dd85233f09067498 b0 b1 b2",
        0,
        "\
block 2 e3eedc67c93de5ac8a3350fb70bf28efdc6c7939726a59b4f7830479ebb51d5b
earlier 0 0 0 VALID
",
        "",
    ),
    (
        "explain --id b76915c274f990013592df05fee17b746f061366372c51ee83dc9d555cca5389 b0 b1 b2",
        0,
        "\
block 2 e3eedc67c93de5ac8a3350fb70bf28efdc6c7939726a59b4f7830479ebb51d5b
earlier 0 1 10 ENDORSEMENT_POLICY_FAILURE
",
        "",
    ),
    (
        "explain --id 291332360adafa3423b9c53a39a9e2d7728ec1023a0de7c05e53a03574b1fdb7 b0 b1 b2",
        0,
        "\
block 2 e3eedc67c93de5ac8a3350fb70bf28efdc6c7939726a59b4f7830479ebb51d5b
earlier 1 6 12 PHANTOM_READ_CONFLICT
",
        "",
    ),
    (
        "explain --ids --id 291332360adafa3423b9c53a39a9e2d7728ec1023a0de7c05e53a03574b1fdb7 b0 b1 b2",
        0,
        "\
block 2 e3eedc67c93de5ac8a3350fb70bf28efdc6c7939726a59b4f7830479ebb51d5b
earlier 1 6 12 PHANTOM_READ_CONFLICT
",
        "",
    ),
    (
        "explain --id cf3bb1fc090fdf940ec32a523823d9f46da9203ce82087745337cb7eb11b2955 b0 b1 b2",
        2,
        "",
        "no transaction cf3bb1fc090fdf940ec32a523823d9f46da9203ce82087745337cb7eb11b2955\n",
    ),
    (
        "explain --id %00%20%25%ff%2d%2d%2d%2d%2d%2d%2d%2d%2d%2d%2d%2d%2d%2d%2d%2d%2d%2d%2d%2d%2d%2d%\
    2d%2d%2d%2d%2d%2d%2d%2d%2d%2d%2d%2d%2d%2d%2d%2d%2d%2d%2d%2d%2d%2d%2d%2d%2d%2d%2d%2d%2d%2d%2d\
    %2d%2d%2d%2d%2d%2d%2d b0 b1 b2",
        2,
        "",
        "no transaction %00%20%25%ff%2d%2d%2d%2d%2d%2d%2d%2d%2d%2d%2d%2d%2d%2d%2d%2d%2d%2d%2d%2d%2d%2\
    d%2d%2d%2d%2d%2d%2d%2d%2d%2d%2d%2d%2d%2d%2d%2d%2d%2d%2d%2d%2d%2d%2d%2d%2d%2d%2d%2d%2d%2d%2d%\
    2d%2d%2d%2d%2d%2d%2d%2d\n",
    ),
    (
        "explain --id c4c12c399273920fe066e90456f2e4141cd20f75c89d6350792d90f9678736e7 b0 b2 b1",
        2,
        "",
        "no transaction c4c12c399273920fe066e90456f2e4141cd20f75c89d6350792d90f9678736e7\n",
    ),
    (
        "explain --id 459475528dc038f899a89dddf066c78d533138cdcf2fd4efe1a99d8c9cadfaed b0 b1",
        2,
        "",
        "no transaction 459475528dc038f899a89dddf066c78d533138cdcf2fd4efe1a99d8c9cadfaed\n",
    ),
    (
        "explain --id 4d941d69b676a61aff49cd6e78f11d3727d68eebad17b933dd85233f09067498 b0 b1 k",
        1,
        "refused 3 C1 B1\n",
        "",
    ),
    (
        "explain --ids --id 459475528dc038f899a89dddf066c78d533138cdcf2fd4efe1a99d8c9cadfaed b0 b1 b1",
        1,
        "\
refused 3 C2 want 2 got 1
known 1 same bf87b96e1df1fe397d33a20c3adea06dc50fb4230f9d8748b959815edf417a4b is bf87b96e1df1fe397d33a20c3adea06dc50fb4230f9d8748b959815edf417a4b
",
        "",
    ),
    (
        "explain --ids b0 b0",
        1,
        "\
refused 2 C2 want 1 got 0
known 0 same a695d0aeb24f0eaedab4d4b072bd69163696f4e5cd128051a1141d61e78235cc is a695d0aeb24f0eaedab4d4b072bd69163696f4e5cd128051a1141d61e78235cc
",
        "",
    ),
    (
        "explain --id b76915c274f990013592df05fee17b746f061366372c51ee83dc9d555cca5389 b0 k b1",
        1,
        "\
block 1 bf87b96e1df1fe397d33a20c3adea06dc50fb4230f9d8748b959815edf417a4b
3 9 DUPLICATE_TXID used 0 1 10 ENDORSEMENT_POLICY_FAILURE
",
        "",
    ),
    (
        "explain --id b76915c274f990013592df05fee17b746f061366372c51ee83dc9d555cca5389 b0 b0 b1 b2",
        1,
        "\
block 2 e3eedc67c93de5ac8a3350fb70bf28efdc6c7939726a59b4f7830479ebb51d5b
earlier 0 1 10 ENDORSEMENT_POLICY_FAILURE
",
        "",
    ),
];
