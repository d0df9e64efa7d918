//! Three scripts, their blocks, and what is answered of these, made by vectors/drafted.py.

use crate::fixture::Row;

pub(crate) fn first_script() -> &'static [u8] {
    FIRST_SCRIPT
}

static FIRST_SCRIPT: &[u8] =
    b"tx Org1:client:c0 n0 cc\x0ans cc\x0awrite k1 v1\x0apolicy k1 AND('Org1.peer','Org2.peer')\
    \x0aendorse Org1:peer:p0\x0a";

pub(crate) fn second_script() -> &'static [u8] {
    SECOND_SCRIPT
}

static SECOND_SCRIPT: &[u8] =
    b"tx Org1:client:c0 n1 cc\x0aendorse Org2:peer:p0\x0ans cc\x0awrite a%20%25 deleted\x0awrite b\
    \x20%\x0awrite k3 de%6c%FF\x0atx Org1:client:c0 n2 cc\x0ans cc\x0adelete a%20%25\x0anopolicy\
    \x20b\x0aendorse Org2:peer:p0\x0a";

pub(crate) fn third_script() -> &'static [u8] {
    THIRD_SCRIPT
}

static THIRD_SCRIPT: &[u8] =
    b"update Org1:client:c0 n3 cc AND('Org1.peer', 'Org1.admin')\x0aendorse Org1:admin:a0\x0a";

pub(crate) fn first_block() -> &'static [u8] {
    FIRST_BLOCK
}

static FIRST_BLOCK: &[u8] =
    b"FBK1\0\0\0\0\0\0\0\0\0\x16\xd2\xddcSa\x10\xa5\xd9\xf0\xa96\xfbg\"\xe5^\xd6s\xffF\x1f\x13\x0c\
    eQ\xec\xcf\x1d\xd8$\xf7\0\0\0\x01\0\0\0\xdb\x02ch459475528dc038f899a89dddf066c78d533138cdcf2\
    fd4efe1a99d8c9cadfaed\x04Org1\x01\x02c0\x02n0\x02cc\0\x01\x02cc\0\0\0\0\0\x01\0\x02k1\x01\0\
    \0\0\x02v1\0\x01\0\x02k1\x01\0\x1cAND('Org1.peer','Org2.peer')\x01\x04Org1\x02\x02p0\0 Z\xe9\
    &\xb7\xfb.\xed8\x0d2a\x04\x850l\x05\xc2\x97\xa7D\xc7\xda.\xa6[(\x8fC\x03t\x04.\0 \xcc\xd4\
    \xfaN\x92\xe4\xbc.\xdcW\x9e1\x0b\xc8\xb7\x14!\xd8\xbc\xf5\xa64/\xe0\xcd\xb4\xd0\xf6\xa5\xeb\
    \x0c\xc5";

pub(crate) fn second_block() -> &'static [u8] {
    SECOND_BLOCK
}

static SECOND_BLOCK: &[u8] =
    b"FBK1\0\0\0\0\0\0\0\x01 <\xb1D\xbe\xc4\xdf\x02\xfev\x92\xbe\xc3\xa6\x1f\xd9\x85J\xb7g\x19R\\\
    \xb5\xa0\\P6I\xc9\x1eJ\xe3\xab\xcd\x93\xd3\xea\xedo\xc1\x05h\xc9\xc5\x8c4\xcc\x87j,\x12\x8c\
    \x1e+\xb2\xd1\xca\xda\xe8\xc7M\xbe\xd2\x96\0\0\0\x02\0\0\0\xd3\x02ch4d941d69b676a61aff49cd6e\
    78f11d3727d68eebad17b933dd85233f09067498\x04Org1\x01\x02c0\x02n1\x02cc\0\x01\x02cc\0\0\0\0\0\
    \x03\0\x03a %\x01\0\0\0\x07deleted\0\x01b\x01\0\0\0\0\0\x02k3\x01\0\0\0\x04del\xff\0\0\x01\
    \x04Org2\x02\x02p0\0 DE\xbdc\xe0DKa\xbf\x99\xd8\x88\xde\x13?{\x15\xe3\xce\xf7\xfe`bO\xa3\xa1\
    o2e\x99\xee\xb8\0 \x0e\x06\x14\xc3\x9c\xf7\xca\xfe\xa3l\x09I\x96i\xf1T\xb5Y\xc9\xce\xdfy@\
    \xed2d\x18\x84\xcc7<@\0\0\0\xb7\x02chb76915c274f990013592df05fee17b746f061366372c51ee83dc9d5\
    55cca5389\x04Org1\x01\x02c0\x02n2\x02cc\0\x01\x02cc\0\0\0\0\0\x01\0\x03a %\0\0\x01\0\x01b\0\
    \x01\x04Org2\x02\x02p0\0 \"\x87j\xe1|\x8fm\x0b\xc8\x90?\xe5\x06\x9cD\x03\xcd\xb5V6\xab\x02\
    \xb9\xc2\x7fK\x9bf\x03\x95\x1d\xa6\0 \xad\xa2?N{\x8d\x175\xf0q\xd5j\xcb\xcd\x82Y\x01Qx\xf4\
    \xf3\x97\x1f3\x17X}\x97HO\xf6s";

pub(crate) fn third_block() -> &'static [u8] {
    THIRD_BLOCK
}

static THIRD_BLOCK: &[u8] =
    b"FBK2\0\0\0\0\0\0\0\x02 \x16\xbb\x8d\xe3M[\x80kn\xae\xbe\x03UG`\xffPB\x82=\xc0\xa3\x88h\x8f\
    \xe8\x1ar\xe1j\xdd\xbc\xd0PH\xd1:\xca\x1b8\xff\xa6\x9f<\xc4\x80i\xde\x9e^~p\x92G\"\x0f\x06q\
    \xf4\xf4mZ\xcf\x1c\0\0\0\x01\0\0\0\xc1\0\x02chdf9ae39a69c858c1a7bd54294d1c59f242892a6ba27625\
    5f2d18b918f5f6da6f\x04Org1\x01\x02c0\x02n3\x02cc\0\x1eAND('Org1.peer', 'Org1.admin')\x01\x04\
    Org1\0\x02a0\0 \xec~j]00\xb9\xdb\xb3\xa5\x98?9\x85Q\xd3\x0e*\xa2\x0a\xe9\xa9\xae\xa1\x1d\xb5\
    \xac\x02;f\xb8m\0 \x97\xee\x11z~\xb7.\x90\xa4\x1ej\xcd\x07H=Z\xa5\x0a\x10<\xaf\x84Z\xf2\x15\
    \x98`\x85\xa2\x19L\x81";

/// Words behind those of the channel and the keys.
pub(crate) fn answers() -> &'static [Row<'static>] {
    &ANSWERS
}

static ANSWERS: [Row<'static>; 43] = [
    (
        "run b0",
        0,
        "accepted 0 3cb144bec4df02fe7692bec3a61fd9854ab76719525cb5a05c503649c91e4ae3 0\n",
        "",
    ),
    (
        "get --ns cc --key k1 b0",
        0,
        "height 1\nrow k1 0 0 v1 AND('Org1.peer','Org2.peer')\n",
        "",
    ),
    ("get --ns cc --key k2 b0", 0, "height 1\nabsent\n", ""),
    (
        "get --ns cc --key %6b%31 b0",
        0,
        "height 1\nrow k1 0 0 v1 AND('Org1.peer','Org2.peer')\n",
        "",
    ),
    ("get --ns dd --key k1 b0", 0, "height 1\nabsent\n", ""),
    ("get --ns cc --key k1", 0, "height 0\nabsent\n", ""),
    (
        "get --ns cc --key k1 b0 b0",
        1,
        "height 1\nrow k1 0 0 v1 AND('Org1.peer','Org2.peer')\n",
        "",
    ),
    (
        "scan --ns cc --limit 1 b0",
        0,
        "height 1\nrow k1 0 0 v1 AND('Org1.peer','Org2.peer')\n",
        "",
    ),
    ("scan --ns cc", 0, "height 0\n", ""),
    (
        "scan --ns cc b1 b0",
        1,
        "height 1\nrow k1 0 0 v1 AND('Org1.peer','Org2.peer')\n",
        "",
    ),
    (
        "history --ns cc --key k1 b0",
        0,
        "height 1\nentry 0 0 459475528dc038f899a89dddf066c78d533138cdcf2fd4efe1a99d8c9cadfaed v1\n",
        "",
    ),
    ("history --ns cc --key k2 b0", 0, "height 1\n", ""),
    (
        "history --ns cc --key k1 b0 k",
        1,
        "height 1\nentry 0 0 459475528dc038f899a89dddf066c78d533138cdcf2fd4efe1a99d8c9cadfaed v1\n",
        "",
    ),
    (
        "definition --ns cc",
        0,
        "height 0\ndefinition OR('Org1.peer','Org2.peer')\n",
        "",
    ),
    (
        "definition --ns cc b0",
        0,
        "height 1\ndefinition OR('Org1.peer','Org2.peer')\n",
        "",
    ),
    ("definition --ns dd", 0, "height 0\nabsent\n", ""),
    ("definition --ns dd b0", 0, "height 1\nabsent\n", ""),
    (
        "definition --ns cc b0 k",
        1,
        "height 1\ndefinition OR('Org1.peer','Org2.peer')\n",
        "",
    ),
    (
        "run b0 b1",
        0,
        "accepted 0 3cb144bec4df02fe7692bec3a61fd9854ab76719525cb5a05c503649c91e4ae3 0\naccepted 1 16bb8de34d5b806b6eaebe03554760ff5042823dc0a388688fe81a72e16addbc 0 0\n",
        "",
    ),
    (
        "run --workers 1 --readers 2 b0 b0 b1 k",
        1,
        "accepted 0 3cb144bec4df02fe7692bec3a61fd9854ab76719525cb5a05c503649c91e4ae3 0\nrefused 2 C2 want 1 got 0\naccepted 1 16bb8de34d5b806b6eaebe03554760ff5042823dc0a388688fe81a72e16addbc 0 0\nrefused 4 C1 B1\nreader 1 height 2\nreader 2 height 2\n",
        "",
    ),
    (
        "run --workers 2 --readers 0 b0 b0 b1 k",
        1,
        "accepted 0 3cb144bec4df02fe7692bec3a61fd9854ab76719525cb5a05c503649c91e4ae3 0\nrefused 2 C2 want 1 got 0\naccepted 1 16bb8de34d5b806b6eaebe03554760ff5042823dc0a388688fe81a72e16addbc 0 0\nrefused 4 C1 B1\n",
        "",
    ),
    (
        "run --workers 2 --readers 2 b0 b0 b1 k",
        1,
        "accepted 0 3cb144bec4df02fe7692bec3a61fd9854ab76719525cb5a05c503649c91e4ae3 0\nrefused 2 C2 want 1 got 0\naccepted 1 16bb8de34d5b806b6eaebe03554760ff5042823dc0a388688fe81a72e16addbc 0 0\nrefused 4 C1 B1\nreader 1 height 2\nreader 2 height 2\n",
        "",
    ),
    (
        "run --workers 64 --readers 0 b0 b0 b1 k",
        1,
        "accepted 0 3cb144bec4df02fe7692bec3a61fd9854ab76719525cb5a05c503649c91e4ae3 0\nrefused 2 C2 want 1 got 0\naccepted 1 16bb8de34d5b806b6eaebe03554760ff5042823dc0a388688fe81a72e16addbc 0 0\nrefused 4 C1 B1\n",
        "",
    ),
    (
        "run --workers 64 --readers 32 b0 b0 b1 k",
        1,
        "accepted 0 3cb144bec4df02fe7692bec3a61fd9854ab76719525cb5a05c503649c91e4ae3 0\nrefused 2 C2 want 1 got 0\naccepted 1 16bb8de34d5b806b6eaebe03554760ff5042823dc0a388688fe81a72e16addbc 0 0\nrefused 4 C1 B1\nreader 1 height 2\nreader 2 height 2\nreader 3 height 2\nreader 4 height 2\nreader 5 height 2\nreader 6 height 2\nreader 7 height 2\nreader 8 height 2\nreader 9 height 2\nreader 10 height 2\nreader 11 height 2\nreader 12 height 2\nreader 13 height 2\nreader 14 height 2\nreader 15 height 2\nreader 16 height 2\nreader 17 height 2\nreader 18 height 2\nreader 19 height 2\nreader 20 height 2\nreader 21 height 2\nreader 22 height 2\nreader 23 height 2\nreader 24 height 2\nreader 25 height 2\nreader 26 height 2\nreader 27 height 2\nreader 28 height 2\nreader 29 height 2\nreader 30 height 2\nreader 31 height 2\nreader 32 height 2\n",
        "",
    ),
    (
        "run --workers 02 --readers 1 k",
        1,
        "refused 1 C1 B1\nreader 1 height 0\n",
        "",
    ),
    (
        "run c0 b1",
        1,
        "accepted 0 3cb144bec4df02fe7692bec3a61fd9854ab76719525cb5a05c503649c91e4ae3 0\nrefused 2 C8\n",
        "",
    ),
    (
        "run b0 c1",
        0,
        "accepted 0 3cb144bec4df02fe7692bec3a61fd9854ab76719525cb5a05c503649c91e4ae3 0\naccepted 1 16bb8de34d5b806b6eaebe03554760ff5042823dc0a388688fe81a72e16addbc 0 0\n",
        "",
    ),
    (
        "run --workers 5 c0 b1 c1 b1",
        1,
        "accepted 0 3cb144bec4df02fe7692bec3a61fd9854ab76719525cb5a05c503649c91e4ae3 0\nrefused 2 C8\naccepted 1 16bb8de34d5b806b6eaebe03554760ff5042823dc0a388688fe81a72e16addbc 0 0\nrefused 4 C2 want 2 got 1\n",
        "",
    ),
    ("explain c0 b1", 1, "refused 2 C8\n", ""),
    (
        "get --ns cc --key b b0 b1",
        0,
        "height 2\nrow b 1 1 % -\n",
        "",
    ),
    (
        "history --ns cc --key a%20%25 b0 b1",
        0,
        "height 2\nentry 1 1 b76915c274f990013592df05fee17b746f061366372c51ee83dc9d555cca5389 deleted\nentry 1 0 4d941d69b676a61aff49cd6e78f11d3727d68eebad17b933dd85233f09067498 %64eleted\n",
        "",
    ),
    (
        "scan --ns cc --start % --end % --limit 2 b0 b1",
        0,
        "height 2\nrow b 1 1 % -\nrow k1 0 0 v1 AND('Org1.peer','Org2.peer')\nmore\n",
        "",
    ),
    (
        "scan --ns cc --start % --end % --limit 3 b0 b1",
        0,
        "height 2\nrow b 1 1 % -\nrow k1 0 0 v1 AND('Org1.peer','Org2.peer')\nrow k3 1 0 del%FF -\n",
        "",
    ),
    (
        "scan --ns cc --start b%00 --end k3 --limit 100 b0 b1",
        0,
        "height 2\nrow k1 0 0 v1 AND('Org1.peer','Org2.peer')\n",
        "",
    ),
    (
        "scan --ns cc --start k1 --end k1%00 --limit 2 b0 b1",
        0,
        "height 2\nrow k1 0 0 v1 AND('Org1.peer','Org2.peer')\n",
        "",
    ),
    (
        "scan --ns cc --start k3 --end b --limit 1 b0 b1",
        0,
        "height 2\n",
        "",
    ),
    (
        "definition --ns cc b0 b1",
        0,
        "height 2\ndefinition OR('Org1.peer','Org2.peer')\n",
        "",
    ),
    (
        "show b0",
        0,
        "# block 0 of version 1, transactions: 1\n# header hash 3cb144bec4df02fe7692bec3a61fd9854ab76719525cb5a05c503649c91e4ae3\n# previous hash none\n# data hash 16d2dd63536110a5d9f0a936fb6722e55ed673ff461f130c6551eccf1dd824f7, that of its transactions\n\n# 0 transaction, id 459475528dc038f899a89dddf066c78d533138cdcf2fd4efe1a99d8c9cadfaed\ntx Org1:client:c0 n0 cc\nns cc\nwrite k1 v1\npolicy k1 AND('Org1.peer','Org2.peer')\nendorse Org1:peer:p0\n",
        "",
    ),
    (
        "show b0 b1 b2",
        0,
        "# block 0 of version 1, transactions: 1\n# header hash 3cb144bec4df02fe7692bec3a61fd9854ab76719525cb5a05c503649c91e4ae3\n# previous hash none\n# data hash 16d2dd63536110a5d9f0a936fb6722e55ed673ff461f130c6551eccf1dd824f7, that of its transactions\n\n# 0 transaction, id 459475528dc038f899a89dddf066c78d533138cdcf2fd4efe1a99d8c9cadfaed\ntx Org1:client:c0 n0 cc\nns cc\nwrite k1 v1\npolicy k1 AND('Org1.peer','Org2.peer')\nendorse Org1:peer:p0\n\n# block 1 of version 1, transactions: 2\n# header hash 16bb8de34d5b806b6eaebe03554760ff5042823dc0a388688fe81a72e16addbc\n# previous hash 3cb144bec4df02fe7692bec3a61fd9854ab76719525cb5a05c503649c91e4ae3, that of the block before\n# data hash abcd93d3eaed6fc10568c9c58c34cc876a2c128c1e2bb2d1cadae8c74dbed296, that of its transactions\n\n# 0 transaction, id 4d941d69b676a61aff49cd6e78f11d3727d68eebad17b933dd85233f09067498\ntx Org1:client:c0 n1 cc\nns cc\nwrite a%20%25 deleted\nwrite b %\nwrite k3 del%FF\nendorse Org2:peer:p0\n\n# 1 transaction, id b76915c274f990013592df05fee17b746f061366372c51ee83dc9d555cca5389\ntx Org1:client:c0 n2 cc\nns cc\ndelete a%20%25\nnopolicy b\nendorse Org2:peer:p0\n\n# block 2 of version 2, transactions: 1\n# header hash e1cd3e60e400f3e75313f0f525939bd55253cf7b0048a236745f9dc785269d1f\n# previous hash 16bb8de34d5b806b6eaebe03554760ff5042823dc0a388688fe81a72e16addbc, that of the block before\n# data hash d05048d13aca1b38ffa69f3cc48069de9e5e7e709247220f0671f4f46d5acf1c, that of its transactions\n\n# 0 update, id df9ae39a69c858c1a7bd54294d1c59f242892a6ba276255f2d18b918f5f6da6f\nupdate Org1:client:c0 n3 cc AND('Org1.peer', 'Org1.admin')\nendorse Org1:admin:a0\n",
        "",
    ),
    (
        "show b0 b2",
        0,
        "# block 0 of version 1, transactions: 1\n# header hash 3cb144bec4df02fe7692bec3a61fd9854ab76719525cb5a05c503649c91e4ae3\n# previous hash none\n# data hash 16d2dd63536110a5d9f0a936fb6722e55ed673ff461f130c6551eccf1dd824f7, that of its transactions\n\n# 0 transaction, id 459475528dc038f899a89dddf066c78d533138cdcf2fd4efe1a99d8c9cadfaed\ntx Org1:client:c0 n0 cc\nns cc\nwrite k1 v1\npolicy k1 AND('Org1.peer','Org2.peer')\nendorse Org1:peer:p0\n\n# block 2 of version 2, transactions: 1\n# header hash e1cd3e60e400f3e75313f0f525939bd55253cf7b0048a236745f9dc785269d1f\n# previous hash 16bb8de34d5b806b6eaebe03554760ff5042823dc0a388688fe81a72e16addbc, but the block before has 3cb144bec4df02fe7692bec3a61fd9854ab76719525cb5a05c503649c91e4ae3\n# data hash d05048d13aca1b38ffa69f3cc48069de9e5e7e709247220f0671f4f46d5acf1c, that of its transactions\n\n# 0 update, id df9ae39a69c858c1a7bd54294d1c59f242892a6ba276255f2d18b918f5f6da6f\nupdate Org1:client:c0 n3 cc AND('Org1.peer', 'Org1.admin')\nendorse Org1:admin:a0\n",
        "",
    ),
    (
        "show b0 k b1",
        1,
        "# block 0 of version 1, transactions: 1\n# header hash 3cb144bec4df02fe7692bec3a61fd9854ab76719525cb5a05c503649c91e4ae3\n# previous hash none\n# data hash 16d2dd63536110a5d9f0a936fb6722e55ed673ff461f130c6551eccf1dd824f7, that of its transactions\n\n# 0 transaction, id 459475528dc038f899a89dddf066c78d533138cdcf2fd4efe1a99d8c9cadfaed\ntx Org1:client:c0 n0 cc\nns cc\nwrite k1 v1\npolicy k1 AND('Org1.peer','Org2.peer')\nendorse Org1:peer:p0\n\n# refused 2 C1 B1 at byte 0\n\n# block 1 of version 1, transactions: 2\n# header hash 16bb8de34d5b806b6eaebe03554760ff5042823dc0a388688fe81a72e16addbc\n# previous hash 3cb144bec4df02fe7692bec3a61fd9854ab76719525cb5a05c503649c91e4ae3\n# data hash abcd93d3eaed6fc10568c9c58c34cc876a2c128c1e2bb2d1cadae8c74dbed296, that of its transactions\n\n# 0 transaction, id 4d941d69b676a61aff49cd6e78f11d3727d68eebad17b933dd85233f09067498\ntx Org1:client:c0 n1 cc\nns cc\nwrite a%20%25 deleted\nwrite b %\nwrite k3 del%FF\nendorse Org2:peer:p0\n\n# 1 transaction, id b76915c274f990013592df05fee17b746f061366372c51ee83dc9d555cca5389\ntx Org1:client:c0 n2 cc\nns cc\ndelete a%20%25\nnopolicy b\nendorse Org2:peer:p0\n",
        "",
    ),
    (
        "run b0 b1 b2",
        0,
        "accepted 0 3cb144bec4df02fe7692bec3a61fd9854ab76719525cb5a05c503649c91e4ae3 0\naccepted 1 16bb8de34d5b806b6eaebe03554760ff5042823dc0a388688fe81a72e16addbc 0 0\naccepted 2 e1cd3e60e400f3e75313f0f525939bd55253cf7b0048a236745f9dc785269d1f 0\n",
        "",
    ),
    (
        "definition --ns cc b0 b1 b2",
        0,
        "height 3\ndefinition AND('Org1.peer','Org1.admin')\n",
        "",
    ),
];
