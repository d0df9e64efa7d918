//! Blocks of one chain, made by vectors/make.py.

use super::Committed;

/// The first 16 of the chain's 32 blocks, in order.
pub fn first_blocks() -> &'static [Committed] {
    &FIRST_BLOCKS
}

static FIRST_BLOCKS: [Committed; 16] = [
    Committed {
        bytes: b"FBK1\0\0\0\0\0\0\0\0\0\xe0o0\x8b\x9d\xc5dj\xec\xd3\x80\x8a\xf5\xea\x0d\x87\xaa\xfa\xdc0\xe6v\
    II\x7fis\xf0\x905\x173\0\0\0\x02\0\0\0\xa8\x02ch4d941d69b676a61aff49cd6e78f11d3727d68eebad17\
    b933dd85233f09067498\x04Org1\x01\x02c0\x02n1\x02cc\0\x01\x02cc\0\0\0\0\0\x05\0\x02k1\x01\0\0\
    \0\x02v1\0\x02k2\x01\0\0\0\x02v2\0\x02k3\x01\0\0\0\x02v3\0\x02k4\x01\0\0\0\x02v4\0\x02k5\x01\
    \0\0\0\x02v5\0\0\x01\x04Org1\x02\x02p0\0\x02ok\0\x02ok\0\0\0\x83\x02chb76915c274f990013592df\
    05fee17b746f061366372c51ee83dc9d555cca5389\x04Org1\x01\x02c0\x02n2\x02cc\0\x01\x02cc\0\0\0\0\
    \0\x02\0\x01a\x01\0\0\0\x01v\0\x01c\x01\0\0\0\x01v\0\0\x01\x04Org1\x02\x02p0\0\x02ok\0\x02ok",
        header_hash: b"v\xf3h\xfa\x9a\xa5\x16]\xfa}\x0a\xc1\x11\xb1\xe9\xb2|L?\xd3awg\x05\xe9\x96\xa8\x80\xe4N5\x87",
        flags: &[0, 0],
    },
    Committed {
        bytes: b"FBK1\0\0\0\0\0\0\0\x01 v\xf3h\xfa\x9a\xa5\x16]\xfa}\x0a\xc1\x11\xb1\xe9\xb2|L?\xd3awg\x05\
    \xe9\x96\xa8\x80\xe4N5\x87\xfc\xd4\x19\xc6K\xc2\x9c\xb9\xb3\xac\x09\x1b\x17\xfc\x0f\xe8;#\
    \xbe\xf8\xfd\xa8v?\x9c\xa1\x1c\"\x8f\xb7h\x19\0\0\0\x05\0\0\0\x87\x02chdf9ae39a69c858c1a7bd5\
    4294d1c59f242892a6ba276255f2d18b918f5f6da6f\x04Org1\x01\x02c0\x02n3\x02cc\0\x01\x02cc\0\0\0\
    \0\0\x02\0\x02k1\x01\0\0\0\x02w1\0\x02k2\x01\0\0\0\x02w2\0\0\x01\x04Org1\x02\x02p0\0\x02ok\0\
    \x02ok\0\0\0\x90\x02chd0274fb48f03650b515ae9d4dadcbdf03d154dd1dcc7a2d1ca56987962db88c5\x04Or\
    g1\x01\x02c0\x05stale\x02cc\0\x01\x02cc\0\x01\0\x02k1\x01\0\0\0\0\0\0\0\0\0\0\0\0\0\0\0\x01\
    \0\x02k3\x01\0\0\0\x02w3\0\0\x01\x04Org1\x02\x02p0\0\x02ok\0\x02ok\0\0\0|\x02chc645fc47b120e\
    ee38305fa70923ee9b94bf27df6048d8e92ad6ad5160b1fbb51\x04Org1\x01\x02c0\x02n5\x02cc\0\x01\x02c\
    c\0\0\0\0\0\x01\0\x02k2\x01\0\0\0\x02x2\0\0\x01\x04Org1\x02\x02p0\0\x02ok\0\x02ok\0\0\0\x8d\
    \x02ch291332360adafa3423b9c53a39a9e2d7728ec1023a0de7c05e53a03574b1fdb7\x04Org1\x01\x02c0\x02\
    n6\x02cc\0\x01\x02cc\0\x01\0\x02k2\x01\0\0\0\0\0\0\0\0\0\0\0\0\0\0\0\x01\0\x02k2\x01\0\0\0\
    \x02y2\0\0\x01\x04Org1\x02\x02p0\0\x02ok\0\x02ok\0\0\0\x8d\x02chb3a3ddced069beb56269de7fc4bc\
    e33047936705c0d783bbaf0e6b90e99df9a6\x04Org1\x01\x02c0\x02n7\x02cc\0\x01\x02cc\0\x01\0\x02k5\
    \x01\0\0\0\0\0\0\0\0\0\0\0\0\0\0\0\x01\0\x02k6\x01\0\0\0\x02w6\0\0\x01\x04Org1\x02\x02p0\0\
    \x02ok\0\x02ok",
        header_hash: b"\xa8\x01v\xd2^C\x9cu\xddn\xe2\x0f\xf5\xc8H\xa1O\x81\x9d\xf5\xae?\x10\xec\x13\x9do%\xac\xac)\
    \xc1",
        flags: &[0, 11, 0, 11, 0],
    },
    Committed {
        bytes: b"FBK1\0\0\0\0\0\0\0\x02 \xa8\x01v\xd2^C\x9cu\xddn\xe2\x0f\xf5\xc8H\xa1O\x81\x9d\xf5\xae?\x10\
    \xec\x13\x9do%\xac\xac)\xc1\xfeTU9\x0e\xfd2\xa4U\x04\x9f\xf8\xf6+\x88\xc6&Yu2O$%\xbaZ\xeaZ\
    \x92\0\x80t\x83\0\0\0\x06\0\0\0\0\0\0\0\x80\x02chc1b6d7bbaa79d1348bf69eac3e45570ebe00eed4476\
    847d46ade1e32e3e0fdab\x04Org1\x01\x02c0\x04late\x02cc\0\x01\x02cc\0\0\0\0\0\x01\0\x04late\
    \x01\0\0\0\x01v\0\0\x01\x04Org1\x02\x02p0\0\x02ok\0\x02ok\0\0\0\0|\x02ch1527b80098d87f315d35\
    7bd831b62730186aea10870f759532c0664de8fa1547\x04Org1\x01\x02c0\x03n10\x02cc\0\x01\x02cc\0\0\
    \0\0\0\x01\0\x02u0\x01\0\0\0\x01v\0\0\x01\x04Org1\x04\x02p0\0\x02ok\0\x02ok\0\0\0\x85\x05oth\
    er14231a1ef50180ececfbe1caad40919cff4f8f34f0145e9726968637f2efd57b\x04Org1\x01\x02c0\x09else\
    where\x02cc\0\x01\x02cc\0\0\0\0\0\x01\0\x02u3\x01\0\0\0\x01v\0\0\x01\x04Org1\x02\x02p0\0\x02\
    ok\0\x02ok\0\0\0\x81\x02ch81952aa60a4eb31d1a26f0ec14d24caf95400ddc31b53d27719b6aff70a89828\
    \x04Org1\x01\x02c0\x08unsigned\x02cc\0\x01\x02cc\0\0\0\0\0\x01\0\x02u1\x01\0\0\0\x01v\0\0\
    \x01\x04Org1\x02\x02p0\0\x02ok\0\x02no\0\0\0~\x02ch7f61c2f1d280d7bd2d61bdc362993862dc00da2a1\
    ae5b61215195d53881fdf5f\x04Org1\x01\x02c0\x05thief\x02cc\0\x01\x02cc\0\0\0\0\0\x01\0\x02u2\
    \x01\0\0\0\x01v\0\0\x01\x04Org1\x02\x02p0\0\x02ok\0\x02ok",
        header_hash: b"\x19\xd2\xb1\x8a[\xe1\xffD#c\xa9\xf2I2\x1d\xa9\x09\x0a/\x9f\xa0\xbe\xc5\xf2/\x02\x95\xc4\x14\
    \xc2\x13.",
        flags: &[2, 2, 2, 14, 4, 8],
    },
    Committed {
        bytes: b"FBK1\0\0\0\0\0\0\0\x03 \x19\xd2\xb1\x8a[\xe1\xffD#c\xa9\xf2I2\x1d\xa9\x09\x0a/\x9f\xa0\xbe\
    \xc5\xf2/\x02\x95\xc4\x14\xc2\x13.\x13y\xe6\xfb\xb9B\xd7\xf6\xdb\x9c\x03\x97\x1f\xf24S\xcaci\
    \xe2\xaf\x0f\xf49\xb4\x87?\xae\xc8+[r\0\0\0\x06\0\0\0q\x02ch2f975cfa406da74c74140e2d0fe20f3d\
    f3092d740db2ee82d51988cb524c7161\x04Org1\x01\x02c0\x05twice\x02cc\0\x01\x02cc\0\0\0\0\0\x01\
    \0\x02u0\x01\0\0\0\x01v\0\0\0\0\x02ok\0\0\0~\x02ch2f975cfa406da74c74140e2d0fe20f3df3092d740d\
    b2ee82d51988cb524c7161\x04Org1\x01\x02c0\x05twice\x02cc\0\x01\x02cc\0\0\0\0\0\x01\0\x02u0\
    \x01\0\0\0\x01v\0\0\x01\x04Org1\x02\x02p0\0\x02ok\0\x02ok\0\0\0\x81\x02ch81952aa60a4eb31d1a2\
    6f0ec14d24caf95400ddc31b53d27719b6aff70a89828\x04Org1\x01\x02c0\x08unsigned\x02cc\0\x01\x02c\
    c\0\0\0\0\0\x01\0\x02u1\x01\0\0\0\x01v\0\0\x01\x04Org1\x02\x02p0\0\x02ok\0\x02ok\0\0\0~\x02c\
    h7f61c2f1d280d7bd2d61bdc362993862dc00da2a1ae5b61215195d53881fdf5f\x04Org1\x01\x02c0\x05owner\
    \x02cc\0\x01\x02cc\0\0\0\0\0\x01\0\x02u2\x01\0\0\0\x01v\0\0\x01\x04Org1\x02\x02p0\0\x02ok\0\
    \x02ok\0\0\0\x82\x02ch14231a1ef50180ececfbe1caad40919cff4f8f34f0145e9726968637f2efd57b\x04Or\
    g1\x01\x02c0\x09elsewhere\x02cc\0\x01\x02cc\0\0\0\0\0\x01\0\x02u3\x01\0\0\0\x01v\0\0\x01\x04\
    Org1\x02\x02p0\0\x02ok\0\x02ok\0\0\0\x7f\x02chc1b6d7bbaa79d1348bf69eac3e45570ebe00eed4476847\
    d46ade1e32e3e0fdab\x04Org1\x01\x02c0\x04late\x02cc\0\x01\x02cc\0\0\0\0\0\x01\0\x04late\x01\0\
    \0\0\x01v\0\0\x01\x04Org1\x02\x02p0\0\x02ok\0\x02ok",
        header_hash: b"\xd5\x81\xab\\F\x84\xa1\xf0\xed\xfb\xdbq\xbe\xc1m\xad)3z~j\xf5\x83\x11\xf5ufYK!\x84\xa4",
        flags: &[10, 9, 0, 0, 0, 0],
    },
    Committed {
        bytes: b"FBK1\0\0\0\0\0\0\0\x04 \xd5\x81\xab\\F\x84\xa1\xf0\xed\xfb\xdbq\xbe\xc1m\xad)3z~j\xf5\x83\
    \x11\xf5ufYK!\x84\xa4k4rPlQ\xb7\xb2'H\x9c\x8a\xa3O\xdb\xbcP\xdc1\x9b\x0eT\x9f\x98\xba+K\xf8\
    \x11\xd3@\x16\0\0\0\x05\0\0\0~\x02ch2f975cfa406da74c74140e2d0fe20f3df3092d740db2ee82d51988cb\
    524c7161\x04Org1\x01\x02c0\x05twice\x02cc\0\x01\x02cc\0\0\0\0\0\x01\0\x02u0\x01\0\0\0\x01v\0\
    \0\x01\x04Org1\x02\x02p0\0\x02ok\0\x02ok\0\0\0\x85\x02ch81952aa60a4eb31d1a26f0ec14d24caf9540\
    0ddc31b53d27719b6aff70a89828\x04Org1\x01\x02c0\x08unsigned\x02cc\0\x01\x02cc\0\0\0\0\0\x01\0\
    \x02u1\x01\0\0\0\x05again\0\0\x01\x04Org1\x02\x02p0\0\x02ok\0\x02ok\0\0\0~\x02ch97e54c3f6237\
    16b7cc913a1ce35b37e9f91022cdf682d873c8fa6c8a24aea28e\x04Org1\x01\x02c1\x05twice\x02cc\0\x01\
    \x02cc\0\0\0\0\0\x01\0\x02u4\x01\0\0\0\x01v\0\0\x01\x04Org1\x02\x02p0\0\x02ok\0\x02ok\0\0\0\
    \x84\x02ch7f61c2f1d280d7bd2d61bdc362993862dc00da2a1ae5b61215195d53881fdf5f\x04Org1\x01\x02c0\
    \x05owner\x02cc\0\x01\x02cc\0\0\0\0\0\x01\0\x02u2\x01\0\0\0\x05again\0\0\x01\x04Org1\x02\x02\
    p0\0\x02ok\0\x04okay\0\0\0\x7f\x02ch2f975cfa406da74c74140e2d0fe20f3df3092d740db2ee82d51988cb\
    524c7161\x04Org1\x01\x02c0\x05twice\x02cc\0\x02\x02cc\0\0\0\0\0\0\0\0\x02cc\0\0\0\0\0\0\0\0\
    \x01\x04Org1\x02\x02p0\0\x02ok\0\x02ok",
        header_hash: b"\x1bqYb\xa5S5s\xdf\xe7\xb9|\x83\xc2\x113\xbc\x8b\xc2|kS\xf9\xd8u\x0b2\xab\xda\xbf\x1c\xbc",
        flags: &[9, 9, 0, 4, 9],
    },
    Committed {
        bytes: b"FBK1\0\0\0\0\0\0\0\x05 \x1bqYb\xa5S5s\xdf\xe7\xb9|\x83\xc2\x113\xbc\x8b\xc2|kS\xf9\xd8u\x0b2\
    \xab\xda\xbf\x1c\xbc\xedZ\xff\xf8\x1a4\x10\x0f\xd7U\xb4Zo\x8b\xde\x9fQ\xfb\x8d\xef?\x15!l\
    \xe0\x11\xcc\x8d\xf76\x01\xab\0\0\0\x06\0\0\0\x87\x02ch84cccfaccda40d313232141e6bb711dd50428\
    e87ffe4e4ad04efd522c9a74d5b\x04Org1\x01\x02c0\x04form\x02cc\0\x02\x02cc\0\0\0\0\0\x01\0\x01x\
    \x01\0\0\0\x01v\0\0\x02cc\0\0\0\0\0\0\0\0\x01\x04Org1\x02\x02p0\0\x02ok\0\x02ok\0\0\0z\x02ch\
    165b6934724e09bcc7dcf412d528c9f55413e9fd445903f1eb2c874c96f613ab\x04Org1\x01\x02c0\x03n24\
    \x02cc\0\x01\x02cc\0\x02\0\x01x\0\0\x01x\0\0\0\0\0\0\0\x01\x04Org1\x02\x02p0\0\x02ok\0\x02ok\
    \0\0\0\x7f\x02chc4c12c399273920fe066e90456f2e4141cd20f75c89d6350792d90f9678736e7\x04Org1\x01\
    \x02c0\x03n25\x02cc\0\x01\x02cc\0\0\0\0\0\x02\0\x01x\x01\0\0\0\x01v\0\x01x\0\0\0\x01\x04Org1\
    \x02\x02p0\0\x02ok\0\x02ok\0\0\0\x98\x02ch3e4f7840baf4f6658c0fa9c6b312a53deab5917fec7c7f4412\
    9b5c0db2b23a7c\x04Org1\x01\x02c0\x03n26\x02cc\0\x01\x02cc\0\0\0\0\0\0\0\x02\0\x01x\x01\0\x1c\
    AND('Org1.peer','Org2.peer')\0\x01x\0\x01\x04Org1\x02\x02p0\0\x02ok\0\x02ok\0\0\0\x99\x02ch4\
    fecde780b00ea81dc5b8fd860d9c4d917b60db5e53969f6694f83b418c453f1\x04Org1\x01\x02c0\x03n27\x02\
    cc\0\x01\x02cc\0\0\0\x01\0\x01a\0\x01d\x01\0\x02\0\x01c\0\0\0\0\0\0\0\0\0\0\0\x01\0\x01a\0\0\
    \0\0\0\0\0\0\0\0\0\x01\0\0\0\0\x01\x04Org1\x02\x02p0\0\x02ok\0\x02ok\0\0\0\x99\x02ch34f486a0\
    7d7ad7a7df57f491fc2d4aa1c3011d561e9615e0cfd247aa8aad8ff1\x04Org1\x01\x02c0\x03n28\x02cc\0\
    \x01\x02cc\0\0\0\x01\0\x01a\0\x01d\0\0\x02\0\x01a\0\0\0\0\0\0\0\0\0\0\0\x01\0\x01a\0\0\0\0\0\
    \0\0\0\0\0\0\x01\0\0\0\0\x01\x04Org1\x02\x02p0\0\x02ok\0\x02ok",
        header_hash: b"\xe7\xe0>\xe5\xb9@\xeb.|\xe7c\x0e9\xb4dG\xa7\x0dwaXTI\xd2\xafz\x03\x7f\xfc;\x14\xff",
        flags: &[22, 22, 22, 22, 22, 22],
    },
    Committed {
        bytes: b"FBK1\0\0\0\0\0\0\0\x06 \xe7\xe0>\xe5\xb9@\xeb.|\xe7c\x0e9\xb4dG\xa7\x0dwaXTI\xd2\xafz\x03\
    \x7f\xfc;\x14\xff\xce\xb7\x7f\xeea%7!\xe8*\xb5\xbe\xd2l\x94q\x8a\x9d\xb6z\x85\x9e\xc9\x02\
    \x9a\x03\xcc\xd1\xbb,r\xe2\0\0\0\x06\0\0\0\x99\x02ch7b957302810d9cb4fdd5bbfd6405a7c0f3e08002\
    d99b3387dc1956bc886ede66\x04Org1\x01\x02c0\x03n29\x02cc\0\x01\x02cc\0\0\0\x01\0\x01b\0\x01d\
    \x01\0\x02\0\x01a\0\0\0\0\0\0\0\0\0\0\0\x01\0\x01c\0\0\0\0\0\0\0\0\0\0\0\x01\0\0\0\0\x01\x04\
    Org1\x02\x02p0\0\x02ok\0\x02ok\0\0\0\x99\x02ch49276c28f2c055743cd6da6fc5d1fa27219bfa6c5ccf67\
    940bdb06f7c89d4b2b\x04Org1\x01\x02c0\x03n30\x02cc\0\x01\x02cc\0\0\0\x01\0\x01a\0\x01c\x01\0\
    \x02\0\x01a\0\0\0\0\0\0\0\0\0\0\0\x01\0\x01c\0\0\0\0\0\0\0\0\0\0\0\x01\0\0\0\0\x01\x04Org1\
    \x02\x02p0\0\x02ok\0\x02ok\0\0\0\x8a\x02ch62126437dae2321651cdf778f97c1ebba5e3908a0657585a8a\
    1af4db89ce7584\x04Org1\x01\x02c0\x03n31\x02cc\0\x01\x02cc\0\0\0\x01\0\x01d\0\x01a\x01\0\x01\
    \0\x01c\0\0\0\0\0\0\0\0\0\0\0\x01\0\0\0\0\x01\x04Org1\x02\x02p0\0\x02ok\0\x02ok\0\0\0}\x02ch\
    356d9b87f5af77b2586a80f756758ff4f5ebc49d70265bfd6a6947691f4370a6\x04Org1\x01\x02c0\x03n32\
    \x02cc\0\x01\x02cc\0\0\0\0\0\0\0\x01\0\x02k1\x01\0\x04AND(\x01\x04Org1\x02\x02p0\0\x02ok\0\
    \x02ok\0\0\0z\x02ch989ea6e1702c57d6640c702ad79814d21c41ee60b60fbc1614c9a9cf66202eb8\x04Org1\
    \x01\x02c0\x03n33\x02cc\0\x01\x02cc\0\0\0\0\0\0\0\x01\0\x02k1\x01\0\x01\xff\x01\x04Org1\x02\
    \x02p0\0\x02ok\0\x02ok\0\0\0y\x02ch1631221f07031ee4323c545e554ad666055809076fda785f79e3e6bd7\
    190da6f\x04Org1\x01\x02c0\x03n34\x02cc\0\x01\x02cc\0\0\0\0\0\0\0\x01\0\x02k1\x01\0\0\x01\x04\
    Org1\x02\x02p0\0\x02ok\0\x02ok",
        header_hash: b"\xa1C\xbeX\x13\xd8\x0c\xddL=\x98K\xa1\xef}~Xb\xde\xb9\xf7\xb8\x7f\xc2CS=%#\xdbE\xbb",
        flags: &[22, 22, 22, 22, 22, 22],
    },
    Committed {
        bytes: b"FBK1\0\0\0\0\0\0\0\x07 \xa1C\xbeX\x13\xd8\x0c\xddL=\x98K\xa1\xef}~Xb\xde\xb9\xf7\xb8\x7f\xc2\
    CS=%#\xdbE\xbbm\x09\xbf\x06\x0d\x8c*\xd2\xc4\xbd`\xdd\xf8\xb7\xf2\xaaI\x9b\xb3\xc2DN\xbd\x81\
    xL\xcf7\0\xf2\x81@\0\0\0\x06\0\0\0|\x02ch84cccfaccda40d313232141e6bb711dd50428e87ffe4e4ad04e\
    fd522c9a74d5b\x04Org1\x01\x02c0\x04form\x02cc\0\x01\x02cc\0\0\0\0\0\x01\0\x01x\x01\0\0\0\x01\
    v\0\0\x01\x04Org1\x02\x02p0\0\x02ok\0\x02ok\0\0\0{\x02chad765710d74a6a8d8388ef5f217b0fb6fdc8\
    1a6ef1e3c892c0ef2fca11f6e09a\x04Org1\x01\x02c0\x03n36\x02cc\0\x01\x02cc\0\0\0\x01\0\x01d\0\
    \x01a\x01\0\0\0\0\0\0\x01\x04Org1\x02\x02p0\0\x02ok\0\x02ok\0\0\0\x9b\x02ch88fe220900b795e5a\
    a55634cb2400053815b7c6fe76dc3152b27c279a29e1b37\x04Org1\x01\x02c0\x03n37\x02cc\0\x01\x02cc\0\
    \x01\0\x04once\0\0\0\0\x01\0\x04once\x01\0\0\0\x01v\0\x01\0\x04once\x01\0\x0d'Org2.member'\
    \x01\x04Org1\x02\x02p0\0\x02ok\0\x02ok\0\0\0\x95\x02ch6f807df805d3681972216702a71b2508bfff14\
    22f342c1f48bd3365f509292f8\x04Org1\x01\x02c0\x03n38\x02cc\0\x02\x02cc\0\0\0\0\0\x01\0\x04sam\
    e\x01\0\0\0\x01v\0\0\x02dd\0\0\0\0\0\x01\0\x04same\x01\0\0\0\x01v\0\0\x01\x04Org1\x02\x02p0\
    \0\x02ok\0\x02ok\0\0\0\xba\x02ch448e8bdcf1413062c70960a0d04d69e0d090a1fb965109f8a468397276d4\
    f8d4\x04Org1\x01\x02c0\x03n39\x02cc\0\x01\x02cc\0\0\0\x01\0\x01u\0\0\x01\0\x04\0\x02u1\0\0\0\
    \0\0\0\0\x03\0\0\0\x02\0\x02u2\0\0\0\0\0\0\0\x03\0\0\0\x03\0\x02u3\0\0\0\0\0\0\0\x03\0\0\0\
    \x04\0\x02u4\0\0\0\0\0\0\0\x04\0\0\0\x02\0\0\0\0\x01\x04Org1\x02\x02p0\0\x02ok\0\x02ok\0\0\0\
    \xb5\x02cheb7dc22d538c35bbe2a35da6c640b1de6d642ec39a6310f680151f36ebd75f4e\x04Org1\x01\x02c0\
    \x03n40\x02cc\0\x01\x02cc\0\0\0\0\0\x01\0\x06spaced\x01\0\0\0\x01v\0\x01\0\x06spaced\x01\0*a\
    nd( \"Org1.peer\" , OutOf(1,'Org2.admin') )\x01\x04Org1\x02\x02p0\0\x02ok\0\x02ok",
        header_hash: b"\x17\x01\x83\xed@\xef\x97[\xbf\x1a\xa7`\xd6\xc4\xb2\x99\xf4\xee8\x9d\xf5Q\xb6\x97\xb9\x0d:\
    \xd9rF\x1fk",
        flags: &[9, 0, 0, 0, 0, 0],
    },
    Committed {
        bytes: b"FBK1\0\0\0\0\0\0\0\x08 \x17\x01\x83\xed@\xef\x97[\xbf\x1a\xa7`\xd6\xc4\xb2\x99\xf4\xee8\x9d\
    \xf5Q\xb6\x97\xb9\x0d:\xd9rF\x1fk\xb4\x1e\xb0'\xc6%\x8e\xc6\\\x0a\x9c\x8d\xeed\x16*\xc1?J_\
    \xbaW\x96\x94\xc1\x9cjx\xcb\x87p1\0\0\0\x06\0\0\0k\x02chf1fb32100ae2ed284ac9491862cf990152b2\
    84f90cff64bccf3e10ee5e12fe8b\x04Org1\x01\x02c0\x07nowhere\x02zz\0\0\x01\x04Org1\x02\x02p0\0\
    \x02ok\0\x02ok\0\0\0\x8f\x02ch4490bd96646d6750445e3180474fa22c7f67ef975193f2fa709ae92b8d370c\
    21\x04Org1\x01\x02c0\x03n42\x02cc\0\x02\x02cc\0\0\0\0\0\x01\0\x01x\x01\0\0\0\x01v\0\0\x02zz\
    \0\0\0\0\0\x01\0\x01x\x01\0\0\0\x01v\0\0\x01\x04Org1\x02\x02p0\0\x02ok\0\x02ok\0\0\0\x94\x02\
    ch9771a8fba3f6783e346a38bd8ca729833a2e4fda464bf628647d83355df0a7a0\x04Org1\x01\x02c0\x03n43\
    \x02cc\0\x01\x02zz\0\0\0\0\0\0\0\x01\0\x01x\x01\0\x1cAND('Org1.peer','Org2.peer')\x01\x04Org\
    1\x02\x02p0\0\x02ok\0\x02ok\0\0\0}\x02chded9d7795bc82924b57f8a194c97e336991efebf1d0e168788f6\
    8f79c054c8ec\x04Org1\x01\x02c0\x03n44\x02cc\0\x01\x02zz\0\x01\0\x01x\0\0\x01\0\0\0\0\x01\0\0\
    \0\0\0\0\x01\x04Org1\x02\x02p0\0\x02ok\0\x02ok\0\0\0\x84\x02che195881bd98cd4c196c7e42e5adb83\
    b5c349fc39fd6e5b7a30d92abae2fba938\x04Org1\x01\x02c0\x03n45\x02cc\0\x01\x02zz\0\0\0\0\0\x02\
    \0\x01x\x01\0\0\0\x01v\0\x01x\x01\0\0\0\x01v\0\0\x01\x04Org1\x02\x02p0\0\x02ok\0\x02ok\0\0\0\
    v\x02ch44e9725328827fbe0a113505eeb2abb9658b18a78f9f55337975be3ded9254d3\x04Org1\x01\x02c0\
    \x03n46\x02cc\0\x01\x02zz\0\0\0\0\0\x01\0\x01x\0\0\0\x01\x04Org1\x02\x02p0\0\x02ok\0\x02ok",
        header_hash: b"O\xd1a8\xbd\xd2\xe3\xc7,3\xab\xc5(\x87\xe1\xf0\xbas\xae\xe1\x88\xd3\x02\xdb\xc7\xb8\x95y$\
    \x01J\xe9",
        flags: &[25, 25, 25, 0, 22, 25],
    },
    Committed {
        bytes: b"FBK1\0\0\0\0\0\0\0\x09 O\xd1a8\xbd\xd2\xe3\xc7,3\xab\xc5(\x87\xe1\xf0\xbas\xae\xe1\x88\xd3\
    \x02\xdb\xc7\xb8\x95y$\x01J\xe9\xa6\xf0>|\xd3\xd9Nd)\xff\x03\xf0\xce\x82[\x14\x19\xda\xc1Q\
    \xe5\xb5quS)\x93\xbe\xbe\x07\xd4\x94\0\0\0\x06\0\0\0\x7f\x02chf1fb32100ae2ed284ac9491862cf99\
    0152b284f90cff64bccf3e10ee5e12fe8b\x04Org1\x01\x02c0\x07nowhere\x02cc\0\x01\x02cc\0\0\0\0\0\
    \x01\0\x01x\x01\0\0\0\x01v\0\0\x01\x04Org1\x02\x02p0\0\x02ok\0\x02ok\0\0\0o\x02ch5d2fa75318c\
    f62072510c00704f45ab675c32a07b9182ec8561efd6b6ab81337\x04Org1\x01\x02c0\x03n48\x02cc\0\x01\
    \x02cc\0\0\0\0\0\x01\0\x02v1\x01\0\0\0\x01v\0\0\0\0\x02ok\0\0\0|\x02ch6e79e67da95fbb0d8c8b11\
    b2483600f3222f557439bc7a53018caad38856f9f9\x04Org1\x01\x02c0\x03n49\x02cc\0\x01\x02cc\0\0\0\
    \0\0\x01\0\x02v1\x01\0\0\0\x01v\0\0\x01\x04Org1\x02\x02p0\0\x02no\0\x02ok\0\0\0|\x02chde686a\
    f84150a75c7993f085721ce8309eb70a599ecc13cf08a8d414e13ed422\x04Org1\x01\x02c0\x03n50\x02cc\0\
    \x01\x02cc\0\0\0\0\0\x01\0\x02v1\x01\0\0\0\x01v\0\0\x01\x04Org1\x01\x02p0\0\x02ok\0\x02ok\0\
    \0\0|\x02cha859daea629a7cafe80ad05753315f4080c4e5cb3c65f9bd05aa399ec3b40351\x04Org1\x01\x02c\
    0\x03n51\x02cc\0\x01\x02cc\0\0\0\0\0\x01\0\x02v1\x01\0\0\0\x01v\0\0\x01\x04Org2\x02\x02q0\0\
    \x02ok\0\x02ok\0\0\0|\x02ch4bc79162f71307094c96fe3d8fa716c4a50601bca1589a708cb48584c2ccbb9b\
    \x04Org1\x01\x02c0\x03n52\x02cc\0\x01\x02cc\0\0\0\0\0\x01\0\x02v1\x01\0\0\0\x01v\0\0\x01\x04\
    Org3\x02\x02p0\0\x02ok\0\x02ok",
        header_hash: b"\xee?D~\xcb\xce*\x84*=\x89\xfcJ\x10\xac\xf6\xad\x0b\xffmu\xd0\xde\xd7!fyw\x16\x9aQ\x09",
        flags: &[9, 10, 10, 10, 0, 10],
    },
    Committed {
        bytes: b"FBK1\0\0\0\0\0\0\0\x0a \xee?D~\xcb\xce*\x84*=\x89\xfcJ\x10\xac\xf6\xad\x0b\xffmu\xd0\xde\xd7\
    !fyw\x16\x9aQ\x09\xd31\xec\xd0U\xb0\x0c{\xdf3J\xb4\xf1\x8c\xe5\x05\x1ao\xa1Jv\xf1\xbap\xb2\
    \xff\xed\x15mx\xe7\xea\0\0\0\x06\0\0\0\x8c\x02cha12cfe0e589559e7194e98d19db7dbcfbe73715f8073\
    00cddf70778c7316655e\x04Org1\x01\x02c0\x03n53\x04pair\0\x01\x04pair\0\0\0\0\0\x01\0\x01x\x01\
    \0\0\0\x01v\0\0\x02\x04Org1\x02\x02p0\0\x02ok\x04Org1\x02\x02p0\0\x02ok\0\x02ok\0\0\0\x8c\
    \x02ch160208dfad75c74f88ec5218b6733fce6452a330ad82430409c74e0b4027830d\x04Org1\x01\x02c0\x03\
    n54\x04pair\0\x01\x04pair\0\0\0\0\0\x01\0\x01x\x01\0\0\0\x01v\0\0\x02\x04Org1\x02\x02p0\0\
    \x02ok\x04Org1\x02\x02p1\0\x02ok\0\x02ok\0\0\0\x99\x02che7fe2921339451d07f2e2956ffc5c9289975\
    03462effe77bed49dc2cc2cf4482\x04Org1\x01\x02c0\x03n55\x04pair\0\x01\x04pair\0\0\0\0\0\x01\0\
    \x01x\x01\0\0\0\x01v\0\0\x03\x04Org1\x02\x02p0\0\x02no\x04Org1\x02\x02p0\0\x02ok\x04Org1\x02\
    \x02p1\0\x02ok\0\x02ok\0\0\0\x8b\x02chae60d6b161e31e5390c984f54df13091ed64781ab8d343ca814b59\
    544714bb35\x04Org1\x01\x02c0\x03n56\x04pair\0\x01\x04pair\0\0\0\0\0\x01\0\x01x\x01\0\0\0\x01\
    v\0\0\x02\x04Org1\x02\x02p0\0\x02ok\x04Org1\0\x01a\0\x02ok\0\x02ok\0\0\0\x8d\x02chd763b312b7\
    7bc2b91f48a9a3a6f38aea1ee06bf14749865ab27982fb58c6a59c\x04Org1\x01\x02c0\x03n57\x05chief\0\
    \x01\x05chief\0\0\0\0\0\x01\0\x01x\x01\0\0\0\x01v\0\0\x02\x04Org1\0\x01a\0\x02ok\x04Org1\x02\
    \x02p0\0\x02ok\0\x02ok\0\0\0\x8d\x02ch1d2395c67a5850facab8c024643213e4ddb91a2e0ff001ed9716a9\
    3b8c422395\x04Org1\x01\x02c0\x03n58\x05chief\0\x01\x05chief\0\0\0\0\0\x01\0\x01x\x01\0\0\0\
    \x01v\0\0\x02\x04Org1\x02\x02p0\0\x02ok\x04Org1\0\x01a\0\x02ok\0\x02ok",
        header_hash: b"4X4\x069\xa43~6a\xf3`\x04\x95\xdc\xc2\xc9\xa7G,\xeb\xefd\x1f\x95\x85+\xa8x\x03z|",
        flags: &[10, 0, 0, 10, 10, 0],
    },
    Committed {
        bytes: b"FBK1\0\0\0\0\0\0\0\x0b 4X4\x069\xa43~6a\xf3`\x04\x95\xdc\xc2\xc9\xa7G,\xeb\xefd\x1f\x95\x85+\
    \xa8x\x03z|>\xf6\xe0y[\xc8\x9fA\xf0\xfb\xe6H\xf2\x9b\xb3\xc8\xc3#2k\xfe\xfb\x9b\x95\xd0\xd2\
    \xac>+y0\xad\0\0\0\x06\0\0\0\x83\x02ch9e1b71594d547b64ef44abbc21e2d0012994b1efe35c8dc0c3f390\
    3ebfe72c85\x04Org1\x01\x02c0\x03n59\x06either\0\x01\x06either\0\0\0\0\0\x01\0\x01x\x01\0\0\0\
    \x01v\0\0\x01\x04Org1\x02\x02p0\0\x02ok\0\x02ok\0\0\0\x90\x02ch25ed3d7c32f26ee1b2ec0b063450c\
    ad1358c2f3d54bc70043d08766829768a9e\x04Org1\x01\x02c0\x03n60\x06greedy\0\x01\x06greedy\0\0\0\
    \0\0\x01\0\x01x\x01\0\0\0\x01v\0\0\x02\x04Org1\x02\x02p0\0\x02ok\x04Org1\x02\x02p1\0\x02ok\0\
    \x02ok\0\0\0\x9d\x02ch2ebf8b163b473f13a63580e0880fb0ea013001a20c8907e97971c6872839daf0\x04Or\
    g1\x01\x02c0\x03n61\x06greedy\0\x01\x06greedy\0\0\0\0\0\x01\0\x01x\x01\0\0\0\x01v\0\0\x03\
    \x04Org1\x02\x02p0\0\x02ok\x04Org1\x02\x02p1\0\x02ok\x04Org1\x02\x02p2\0\x02ok\0\x02ok\0\0\0\
    \x90\x02ch59977536b123d39a1e762d90c444f249595c5bdb10ef2b221e3c5bcdf164aef7\x04Org1\x01\x02c0\
    \x03n62\x06nested\0\x01\x06nested\0\0\0\0\0\x01\0\x01x\x01\0\0\0\x01v\0\0\x02\x04Org1\x02\
    \x02p0\0\x02ok\x04Org1\x02\x02p1\0\x02ok\0\x02ok\0\0\0\x83\x02chf86eda95a825d339aeb296b4f6f4\
    64bb385525c866c6470ee58012af0cd84924\x04Org1\x01\x02c0\x03n63\x06nested\0\x01\x06nested\0\0\
    \0\0\0\x01\0\x01x\x01\0\0\0\x01v\0\0\x01\x04Org1\x02\x02p0\0\x02ok\0\x02ok\0\0\0\x90\x02chf6\
    2994f051bb74071c0c5306879f15c113792408ad9749b811434ddca90d3b8e\x04Org1\x01\x02c0\x03n64\x06n\
    ested\0\x01\x06nested\0\0\0\0\0\x01\0\x01x\x01\0\0\0\x01v\0\0\x02\x04Org1\x02\x02p0\0\x02ok\
    \x04Org2\x02\x02q0\0\x02ok\0\x02ok",
        header_hash: b"2\x82\x02e9\xef\x88\xbb{\xedL\xf4]\x81\xf4\xad\xafK\xcd\xeb'\xf7D&S\\\x0f\x0c\xd4t\xb1y",
        flags: &[0, 10, 0, 0, 10, 10],
    },
    Committed {
        bytes: b"FBK1\0\0\0\0\0\0\0\x0c 2\x82\x02e9\xef\x88\xbb{\xedL\xf4]\x81\xf4\xad\xafK\xcd\xeb'\xf7D&S\\\
    \x0f\x0c\xd4t\xb1y\x9a\xaa\xbc\xedR\x14\x8a\xc6#]V\xe6\x99\xe1q\xb6\xd1\x85?\xfe\x16\x0b\x16\
    \x06\xf0\xa2\xe7\xb7\xb3\x8d\x94\x11\0\0\0\x06\0\0\0~\x02cheadcdfe1604fc3c9cf9f862b37e6aa868\
    819027ca0ac150fecf18d178b7eb064\x04Org1\x01\x02c0\x03n65\x04both\0\x01\x02cc\0\0\0\0\0\x01\0\
    \x02w1\x01\0\0\0\x01v\0\0\x01\x04Org1\x02\x02p0\0\x02ok\0\x02ok\0\0\0\x8b\x02ch3560d191c64a6\
    0ccab0eb0beec38c076b43e4b3a870f3c9107af7a9c8bbfb2ad\x04Org1\x01\x02c0\x03n66\x04both\0\x01\
    \x02cc\0\0\0\0\0\x01\0\x02w1\x01\0\0\0\x01v\0\0\x02\x04Org1\x02\x02p0\0\x02ok\x04Org2\x02\
    \x02q0\0\x02ok\0\x02ok\0\0\0\x8f\x02chdc5259c96bfc9f62f8cfd03097e5fbc3f0bff336a4530741faee30\
    3a7f4bc4f8\x04Org1\x01\x02c0\x03n67\x04both\0\x02\x04both\0\x01\0\x01x\0\0\0\0\0\0\0\x02cc\0\
    \0\0\0\0\x01\0\x02w1\x01\0\0\0\x01v\0\0\x01\x04Org1\x02\x02p0\0\x02ok\0\x02ok\0\0\0Z\x02ch23\
    92f825672c885076a577cac8fb97c626ba55fefbb4a9a8584f9f2ce4721e39\x04Org1\x01\x02c0\x03n68\x02c\
    c\0\0\0\0\x02ok\0\0\0g\x02cha71637b61630ff0bbbc4f2e8024f970d05112eeabeb45908658288095363e883\
    \x04Org1\x01\x02c0\x03n69\x02cc\0\0\x01\x04Org1\x02\x02p0\0\x02ok\0\x02ok\0\0\0\x8d\x02ch954\
    9bce3a3183b0021702ca6129a9de5dce674c4a29b1a15b14b08b4209cc84d\x04Org1\x01\x02c0\x03n70\x02cc\
    \0\x02\x02cc\0\0\0\0\0\x01\0\x02w2\x01\0\0\0\x01v\0\0\x04both\0\x01\0\x01x\0\0\0\0\0\0\0\x01\
    \x04Org1\x02\x02p0\0\x02ok\0\x02ok",
        header_hash: b"\x89u4\x89\xbe\xc2\x85>\xb3\x18B\xb2\xe3P3J\xc9\xd0\x8d?\xb1\xe3\xc2\x8e\x81(\xdf\xb4\xc50\
    \x8e\xc5",
        flags: &[10, 0, 10, 10, 0, 0],
    },
    Committed {
        bytes: b"FBK1\0\0\0\0\0\0\0\x0d \x89u4\x89\xbe\xc2\x85>\xb3\x18B\xb2\xe3P3J\xc9\xd0\x8d?\xb1\xe3\xc2\
    \x8e\x81(\xdf\xb4\xc50\x8e\xc5\xccE\xfb\x19\x9b\x17\xb3\xff\x1c\x87$p\x87:\xb9\x1e\xed\xb5\
    \x0e1\xeb(\x9a\x0a\xc0\x0dZ\xb4\xb0\xccg\xa5\0\0\0\x04\0\0\0\x91\x02ch77b7a91feb390edbca986e\
    ddec6fdf4edb99aa073c4ac6acb23c5a0df71aa841\x04Org1\x01\x02c0\x03n71\x02cc\0\x02\x02cc\0\0\0\
    \0\0\x01\0\x01t\x01\0\0\0\x01v\0\0\x04both\0\0\0\0\0\x01\0\x01t\x01\0\0\0\x01v\0\0\x01\x04Or\
    g1\x02\x02p0\0\x02ok\0\x02ok\0\0\0\x9e\x02che6062f1e9708dfabba706498a4cce342690a23e5acb7e2e8\
    3126cd6b3239bf6b\x04Org1\x01\x02c0\x03n72\x02cc\0\x02\x02cc\0\0\0\0\0\x01\0\x01t\x01\0\0\0\
    \x01v\0\0\x04both\0\0\0\0\0\x01\0\x01t\x01\0\0\0\x01v\0\0\x02\x04Org1\x02\x02p0\0\x02ok\x04O\
    rg2\x02\x02q0\0\x02ok\0\x02ok\0\0\0\x96\x02ch328e4e179b8da6806f3b788e7c516bb1afc14baab67ade1\
    13645a4c0ab192cf2\x04Org1\x01\x02c0\x03n73\x02dd\0\x02\x02dd\0\0\0\0\0\x01\0\x01t\x01\0\0\0\
    \x01v\0\0\x02cc\0\x01\0\x01t\x01\0\0\0\0\0\0\0\x0d\0\0\0\x01\0\0\0\0\0\0\x01\x04Org1\x01\x02\
    c0\0\x02ok\0\x02ok\0\0\0\x8f\x02chfa8dbb6f4ccea2cb1d1631802b7915043cae07a47ca78ba9516959f9a4\
    4f7e0d\x04Org1\x01\x02c0\x03n74\x02dd\0\x02\x02dd\0\0\0\0\0\x01\0\x01t\x01\0\0\0\x01v\0\0\
    \x02cc\0\0\0\0\0\x01\0\x01t\x01\0\0\0\x01v\0\0\x01\x04Org1\x01\x02c0\0\x02ok\0\x02ok",
        header_hash: b"\x85\xf6\xf5\x94^5s~\xb20}\xde\xf0?\x08^=j\x84\x15\x87\xdaX\xe8\xf1\xb0\xc6-\x8bb7\xae",
        flags: &[10, 0, 0, 10],
    },
    Committed {
        bytes: b"FBK1\0\0\0\0\0\0\0\x0e \x85\xf6\xf5\x94^5s~\xb20}\xde\xf0?\x08^=j\x84\x15\x87\xdaX\xe8\xf1\
    \xb0\xc6-\x8bb7\xae\xa1\xfeDz\xc7\x85R\x19\xe9\xfdQ`\x9eG\x19\x04\xc2\x18%\x9a\xcb\xd8\xa5h\
    \xc7\xd8\xce\xf27\x0d\xda\x88\0\0\0\x06\0\0\0\x95\x02ch21d0ed5382b59e41264b2865629b1efce9bd0\
    98c56cb34ebe87c0de265721818\x04Org1\x01\x02c0\x03n75\x02cc\0\x01\x02cc\0\0\0\0\0\0\0\x01\0\
    \x02k1\x01\0\x1cAND('Org1.peer','Org2.peer')\x01\x04Org1\x02\x02p0\0\x02ok\0\x02ok\0\0\0\x89\
    \x02chb4d69686fcb589827d46dffbcb6a3554cc4e2a70540881d4caa15f06f92444d1\x04Org1\x01\x02c0\x03\
    n76\x02cc\0\x01\x02cc\0\0\0\0\0\x01\0\x02k1\x01\0\0\0\x01v\0\0\x02\x04Org1\x02\x02p0\0\x02ok\
    \x04Org2\x02\x02q0\0\x02ok\0\x02ok\0\0\0w\x02chd90e86ee1c1340638b505a11a43ebef884ba3e98a4397\
    d38af11b8347d136530\x04Org1\x01\x02c0\x03n77\x02cc\0\x01\x02cc\0\0\0\0\0\0\0\x01\0\x02k2\0\
    \x01\x04Org1\x02\x02p0\0\x02ok\0\x02ok\0\0\0|\x02ch9dd7e602e3ea340a23bf7b2a198c119061f021485\
    7f7843b258e7a9caf13cf0b\x04Org1\x01\x02c0\x03n78\x02cc\0\x01\x02cc\0\0\0\0\0\x01\0\x02k2\x01\
    \0\0\0\x01v\0\0\x01\x04Org1\x02\x02p0\0\x02ok\0\x02ok\0\0\0\x94\x02ch6ae31359968dd6226181bc2\
    6581cd55aa92d6b3bcff338d5753a962ffe6abeb0\x04Org1\x01\x02c0\x03n79\x02cc\0\x01\x02cc\0\0\0\0\
    \0\0\0\x01\0\x01j\x01\0\x1cAND('Org1.peer','Org2.peer')\x01\x04Org1\x02\x02p0\0\x02ok\0\x02o\
    k\0\0\0{\x02ch04b6f7972c3c733e1f625a71ebaed95546d47fb77ab2413657003aee1ab5e6dc\x04Org1\x01\
    \x02c0\x03n80\x02cc\0\x01\x02cc\0\0\0\0\0\x01\0\x01j\x01\0\0\0\x01v\0\0\x01\x04Org1\x02\x02p\
    0\0\x02ok\0\x02ok",
        header_hash: b"\xba\xe9\x80\xdc\xda\xf0g[/|\x17\xe4t\x84{b\x92\x0d\xc0\xcc\xbf{]\x182\xba\xbb\xe7\x03v\xbf\
    \xef",
        flags: &[0, 10, 0, 10, 0, 10],
    },
    Committed {
        bytes: b"FBK1\0\0\0\0\0\0\0\x0f \xba\xe9\x80\xdc\xda\xf0g[/|\x17\xe4t\x84{b\x92\x0d\xc0\xcc\xbf{]\x18\
    2\xba\xbb\xe7\x03v\xbf\xef\"z\xf4p\xbd\xb5\x8c7\xabE\xf5}\xa8\x0b}\x0a\xf3\xc1\x12\xe3\x86\
    \xe7\xc0\xb3\xc8\xda\x16\xff\xaf\xf2\xec|\0\0\0\x06\0\0\0\x87\x02ch79a16f6ec9e201a6146df297f\
    f137ebc09f38dfc383a7174c030ff9b3ac2fb6c\x04Org1\x01\x02c0\x03n81\x02cc\0\x01\x02cc\0\x02\0\
    \x02k1\x01\0\0\0\0\0\0\0\x0e\0\0\0\0\0\x01j\0\0\0\0\0\0\0\x01\x04Org1\x02\x02p0\0\x02ok\0\
    \x02ok\0\0\0\x83\x02ch0ab97ff55a8008e57e19b14b96b3b6be4ab10761ebd78647013c4c243ba135e7\x04Or\
    g1\x01\x02c0\x03n82\x02cc\0\x01\x02cc\0\x01\0\x02k1\x01\0\0\0\0\0\0\0\x01\0\0\0\0\0\0\0\0\0\
    \0\x01\x04Org1\x02\x02p0\0\x02ok\0\x02ok\0\0\0|\x02ch4bf14e7b06f380768342956e1d96f5a70a0ae74\
    68e61b9ad515254f1ee665389\x04Org1\x01\x02c0\x03n83\x02cc\0\x01\x02cc\0\0\0\0\0\x01\0\x02k1\
    \x01\0\0\0\x01v\0\0\x01\x04Org1\x02\x02p0\0\x02ok\0\x02ok\0\0\0\x8c\x02ch3ad1b6cc77a70f14198\
    a6d664f6fdc3d66f2890280cc37952fa9de1f2bc83c23\x04Org1\x01\x02c0\x03n84\x02cc\0\x01\x02cc\0\0\
    \0\0\0\x01\0\x02k1\x01\0\0\0\x04both\0\0\x02\x04Org2\x02\x02q0\0\x02ok\x04Org1\x02\x02p0\0\
    \x02ok\0\x02ok\0\0\0\x83\x02ch8ac5356a37b266fcb44531b26ad97562d3fa03609d957c73ee879667710382\
    f0\x04Org1\x01\x02c0\x03n85\x02cc\0\x01\x02cc\0\x01\0\x02k1\x01\0\0\0\0\0\0\0\x0e\0\0\0\0\0\
    \0\0\0\0\0\x01\x04Org1\x02\x02p0\0\x02ok\0\x02ok\0\0\0\x83\x02ch9874ed10e892dafb34a2bdc88c4f\
    7095be1275a24222c880569bf86b767b9a8e\x04Org1\x01\x02c0\x03n86\x02cc\0\x01\x02cc\0\x01\0\x02k\
    1\x01\0\0\0\0\0\0\0\x0f\0\0\0\x03\0\0\0\0\0\0\x01\x04Org1\x02\x02p0\0\x02ok\0\x02ok",
        header_hash: b"\xa5\x0d\x1bi\xea\xdc\xb7\xe3gT\xf5\xc1\xc2\x16\x09\x94\x0bt\xbbo\xcc\x11\x8e\xf8\xd6c-\xff\
    \x0c\xbcP\x87",
        flags: &[0, 11, 10, 0, 11, 0],
    },
];
