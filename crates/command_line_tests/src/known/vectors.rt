//! A chain, other blocks of its numbers, and what is printed of them, made by vectors/known.py.

use crate::files::File;
use crate::fixture::Row;

/// The channel, the keys and the blocks.
pub(crate) fn files() -> &'static [File<'static>] {
    &FILES
}

static FILES: [File<'static>; 17] = [
    (
        "c",
        b"channel ch\x0achaincode cc OR('Org1.peer','Org2.peer')\x0aadmin 'Org1.admin'\x0a",
    ),
    (
        "k",
        b"# Keys to try the program with, known to everyone: 32 bytes each.\x0aOrg1:client:c0 3f051f0f\
    58c830c6d1c9508360a818143c1115b062bcb65e8c9dbbb3007315e0\x0aOrg1:peer:p0 e08d54dba3774ad856b\
    f7ef9dd24394831a3b6411b41a680865392d5be743668\x0aOrg2:peer:p0 f0b0dfaec6409cca41af94aa45af55\
    b8a79b948283d608cebed28a648d90db03\x0aOrg1:admin:a0 b054bda6763c044b378027783405988b5e66caec\
    b949ee20cf352aff49436ca2\x0a",
    ),
    (
        "b0",
        b"FBK1\0\0\0\0\0\0\0\0\0\xfc\x01Kg\x9fOF,\xea\x93#\xde\xbe\xf2<\"j\x9f\xbb\0\x85\xcb\xc6W\xe2\
    \xbf\x9a\x05\x07\x18j\x82\0\0\0\x01\0\0\0\xb6\x02ch459475528dc038f899a89dddf066c78d533138cdc\
    f2fd4efe1a99d8c9cadfaed\x04Org1\x01\x02c0\x02n0\x02cc\0\x01\x02cc\0\0\0\0\0\x01\0\x01a\x01\0\
    \0\0\x01v\0\0\x01\x04Org1\x02\x02p0\0 se*\x7ff\x078\x80\xba2\xb73\x113o\x991\xc2\x1f\x08\x0b\
    \xf9\xd3e\xaf\xf5?7\xe9v<\xd2\0 \xdf9N\x8f\xe2\xc9\xf4\xac|\xe2>\xe0\x83\xb7\xd2q\xe3j\x8f\
    \x01z\xf4\xc7x\xaa;G\xf4\xf0\xee\xca1",
    ),
    (
        "b1",
        b"FBK2\0\0\0\0\0\0\0\x01 \xc2\x9e}\xbd\xaa8\xd8\x0e\xcb\xd5\xbcT\x02\xe7\x8f\x07\xbeM\xce\x8c\
    \xfb\xe68\xa1\xa4$5x\xa2m\xfb1W\xb1\xd2\xe5\xd5\xaa\x83K\xc57+f\x82\x95\xc5\x80\xe1>X\xab\
    \x9d\xec\xf7\x1d\xee.\xb9\xb1\xdf\xf4&/\0\0\0\x02\0\0\0w\x02ch4d941d69b676a61aff49cd6e78f11d\
    3727d68eebad17b933dd85233f09067498\x04Org1\x01\x02c0\x02n1\x02cc\0\0\0\0 \x05\x04\x0a\x95\
    \xcc\xc1\xf8\x17[\x8eE5\xe8\xb8+\xcft\xd9\xa2\xefD\x92\x97ys\xd6R\x98\xb0\xe9\xa9\x1c\0\0\0w\
    \x02chb76915c274f990013592df05fee17b746f061366372c51ee83dc9d555cca5389\x04Org1\x01\x02c0\x02\
    n2\x02cc\0\0\0\0 \x80m\x0e\xc9;\x1a]\x18\x0f\x8e\xe7\xe1$?\x1fjzg\xb5\xb77\x80\xe8s\x1c\xad\
    \x98?J\xd2\x0b&",
    ),
    (
        "b2",
        b"FBK2\0\0\0\0\0\0\0\x02 g\x19\xd4\xa8yD\xf1\xdd\x88'\x94\x1a\x01\x9b\x83\xe8G\x1d\x88\xefzD\
    \xe8I\x18\\`\xcb\x91 )\x9e\x17\xe3\xbd\xbfy\x8a\xf8\x15\xea\x81\x0f}b\x90\x16\xa2\xf6\xe0<\
    \xd4\x12\xe3\x99\xa3\xba\xae\x9d\x99\x16pY\xd3\0\0\0\x01\0\0\0w\x02chdf9ae39a69c858c1a7bd542\
    94d1c59f242892a6ba276255f2d18b918f5f6da6f\x04Org1\x01\x02c0\x02n3\x02cc\0\0\0\0 e\x86*\xa7\
    \x84\x83S%cs\xbchp|xz\xdd\xfa\\\x0e\x91\xcf\x1e\xb9\x03ap\x87>\x0d\x19\x9f",
    ),
    (
        "v0",
        b"FBK2\0\0\0\0\0\0\0\0\0\xfc\x01Kg\x9fOF,\xea\x93#\xde\xbe\xf2<\"j\x9f\xbb\0\x85\xcb\xc6W\xe2\
    \xbf\x9a\x05\x07\x18j\x82\0\0\0\x01\0\0\0\xb6\x02ch459475528dc038f899a89dddf066c78d533138cdc\
    f2fd4efe1a99d8c9cadfaed\x04Org1\x01\x02c0\x02n0\x02cc\0\x01\x02cc\0\0\0\0\0\x01\0\x01a\x01\0\
    \0\0\x01v\0\0\x01\x04Org1\x02\x02p0\0 se*\x7ff\x078\x80\xba2\xb73\x113o\x991\xc2\x1f\x08\x0b\
    \xf9\xd3e\xaf\xf5?7\xe9v<\xd2\0 \xdf9N\x8f\xe2\xc9\xf4\xac|\xe2>\xe0\x83\xb7\xd2q\xe3j\x8f\
    \x01z\xf4\xc7x\xaa;G\xf4\xf0\xee\xca1",
    ),
    (
        "v1",
        b"FBK1\0\0\0\0\0\0\0\x01 \xc2\x9e}\xbd\xaa8\xd8\x0e\xcb\xd5\xbcT\x02\xe7\x8f\x07\xbeM\xce\x8c\
    \xfb\xe68\xa1\xa4$5x\xa2m\xfb1W\xb1\xd2\xe5\xd5\xaa\x83K\xc57+f\x82\x95\xc5\x80\xe1>X\xab\
    \x9d\xec\xf7\x1d\xee.\xb9\xb1\xdf\xf4&/\0\0\0\x02\0\0\0w\x02ch4d941d69b676a61aff49cd6e78f11d\
    3727d68eebad17b933dd85233f09067498\x04Org1\x01\x02c0\x02n1\x02cc\0\0\0\0 \x05\x04\x0a\x95\
    \xcc\xc1\xf8\x17[\x8eE5\xe8\xb8+\xcft\xd9\xa2\xefD\x92\x97ys\xd6R\x98\xb0\xe9\xa9\x1c\0\0\0w\
    \x02chb76915c274f990013592df05fee17b746f061366372c51ee83dc9d555cca5389\x04Org1\x01\x02c0\x02\
    n2\x02cc\0\0\0\0 \x80m\x0e\xc9;\x1a]\x18\x0f\x8e\xe7\xe1$?\x1fjzg\xb5\xb77\x80\xe8s\x1c\xad\
    \x98?J\xd2\x0b&",
    ),
    (
        "j1",
        b"FBK2\0\0\0\0\0\0\0\x01 \xc2\x9e}\xbd\xaa8\xd8\x0e\xcb\xd5\xbcT\x02\xe7\x8f\x07\xbeM\xce\x8c\
    \xfb\xe68\xa1\xa4$5x\xa2m\xfb1W\xb1\xd2\xe5\xd5\xaa\x83K\xc57+f\x82\x95\xc5\x80\xe1>X\xab\
    \x9d\xec\xf7\x1d\xee.\xb9\xb1\xdf\xf4&/\0\0\0\x01\0\0\0\xee\x02ch4d941d69b676a61aff49cd6e78f\
    11d3727d68eebad17b933dd85233f09067498\x04Org1\x01\x02c0\x02n1\x02cc\0\0\0\0 \x05\x04\x0a\x95\
    \xcc\xc1\xf8\x17[\x8eE5\xe8\xb8+\xcft\xd9\xa2\xefD\x92\x97ys\xd6R\x98\xb0\xe9\xa9\x1c\x02chb\
    76915c274f990013592df05fee17b746f061366372c51ee83dc9d555cca5389\x04Org1\x01\x02c0\x02n2\x02c\
    c\0\0\0\0 \x80m\x0e\xc9;\x1a]\x18\x0f\x8e\xe7\xe1$?\x1fjzg\xb5\xb77\x80\xe8s\x1c\xad\x98?J\
    \xd2\x0b&",
    ),
    (
        "f0",
        b"FBK1\0\0\0\0\0\0\0\0\0\xe3\xb0\xc4B\x98\xfc\x1c\x14\x9a\xfb\xf4\xc8\x99o\xb9$'\xaeA\xe4d\x9b\
    \x93L\xa4\x95\x99\x1bxR\xb8U\0\0\0\0",
    ),
    (
        "f1",
        b"FBK2\0\0\0\0\0\0\0\x01 \xc2\x9e}\xbd\xaa8\xd8\x0e\xcb\xd5\xbcT\x02\xe7\x8f\x07\xbeM\xce\x8c\
    \xfb\xe68\xa1\xa4$5x\xa2m\xfb1\xd2\x9d\x08~g\xcb\xe8pU\x87\xde\x1b\xd9\xc1xznV\x9e\x1d\xe3\
    \xb20\x9a[\x1a4(E\xe8Q0\0\0\0\x01\0\0\0w\x02ch4d941d69b676a61aff49cd6e78f11d3727d68eebad17b9\
    33dd85233f09067498\x04Org1\x01\x02c0\x02n1\x02cc\0\0\0\0 \x05\x04\x0a\x95\xcc\xc1\xf8\x17[\
    \x8eE5\xe8\xb8+\xcft\xd9\xa2\xefD\x92\x97ys\xd6R\x98\xb0\xe9\xa9\x1c",
    ),
    (
        "d1",
        b"FBK2\0\0\0\0\0\0\0\x01 \xc2\x9e}\xbd\xaa8\xd8\x0e\xcb\xd5\xbcT\x02\xe7\x8f\x07\xbeM\xce\x8c\
    \xfb\xe68\xa1\xa4$5x\xa2m\xfb1W\xb1\xd2\xe5\xd5\xaa\x83K\xc57+f\x82\x95\xc5\x80\xe1>X\xab\
    \x9d\xec\xf7\x1d\xee.\xb9\xb1\xdf\xf4&/\0\0\0\x01\0\0\0w\x02ch4d941d69b676a61aff49cd6e78f11d\
    3727d68eebad17b933dd85233f09067498\x04Org1\x01\x02c0\x02n1\x02cc\0\0\0\0 \x05\x04\x0a\x95\
    \xcc\xc1\xf8\x17[\x8eE5\xe8\xb8+\xcft\xd9\xa2\xefD\x92\x97ys\xd6R\x98\xb0\xe9\xa9\x1c",
    ),
    (
        "p0",
        b"FBK1\0\0\0\0\0\0\0\0 \xc2\x9e}\xbd\xaa8\xd8\x0e\xcb\xd5\xbcT\x02\xe7\x8f\x07\xbeM\xce\x8c\
    \xfb\xe68\xa1\xa4$5x\xa2m\xfb1\xfc\x01Kg\x9fOF,\xea\x93#\xde\xbe\xf2<\"j\x9f\xbb\0\x85\xcb\
    \xc6W\xe2\xbf\x9a\x05\x07\x18j\x82\0\0\0\x01\0\0\0\xb6\x02ch459475528dc038f899a89dddf066c78d\
    533138cdcf2fd4efe1a99d8c9cadfaed\x04Org1\x01\x02c0\x02n0\x02cc\0\x01\x02cc\0\0\0\0\0\x01\0\
    \x01a\x01\0\0\0\x01v\0\0\x01\x04Org1\x02\x02p0\0 se*\x7ff\x078\x80\xba2\xb73\x113o\x991\xc2\
    \x1f\x08\x0b\xf9\xd3e\xaf\xf5?7\xe9v<\xd2\0 \xdf9N\x8f\xe2\xc9\xf4\xac|\xe2>\xe0\x83\xb7\xd2\
    q\xe3j\x8f\x01z\xf4\xc7x\xaa;G\xf4\xf0\xee\xca1",
    ),
    (
        "p1",
        b"FBK2\0\0\0\0\0\0\0\x01\0W\xb1\xd2\xe5\xd5\xaa\x83K\xc57+f\x82\x95\xc5\x80\xe1>X\xab\x9d\xec\
    \xf7\x1d\xee.\xb9\xb1\xdf\xf4&/\0\0\0\x02\0\0\0w\x02ch4d941d69b676a61aff49cd6e78f11d3727d68e\
    ebad17b933dd85233f09067498\x04Org1\x01\x02c0\x02n1\x02cc\0\0\0\0 \x05\x04\x0a\x95\xcc\xc1\
    \xf8\x17[\x8eE5\xe8\xb8+\xcft\xd9\xa2\xefD\x92\x97ys\xd6R\x98\xb0\xe9\xa9\x1c\0\0\0w\x02chb7\
    6915c274f990013592df05fee17b746f061366372c51ee83dc9d555cca5389\x04Org1\x01\x02c0\x02n2\x02cc\
    \0\0\0\0 \x80m\x0e\xc9;\x1a]\x18\x0f\x8e\xe7\xe1$?\x1fjzg\xb5\xb77\x80\xe8s\x1c\xad\x98?J\
    \xd2\x0b&",
    ),
    (
        "q1",
        b"FBK2\0\0\0\0\0\0\0\x01 g\x19\xd4\xa8yD\xf1\xdd\x88'\x94\x1a\x01\x9b\x83\xe8G\x1d\x88\xefzD\
    \xe8I\x18\\`\xcb\x91 )\x9eW\xb1\xd2\xe5\xd5\xaa\x83K\xc57+f\x82\x95\xc5\x80\xe1>X\xab\x9d\
    \xec\xf7\x1d\xee.\xb9\xb1\xdf\xf4&/\0\0\0\x02\0\0\0w\x02ch4d941d69b676a61aff49cd6e78f11d3727\
    d68eebad17b933dd85233f09067498\x04Org1\x01\x02c0\x02n1\x02cc\0\0\0\0 \x05\x04\x0a\x95\xcc\
    \xc1\xf8\x17[\x8eE5\xe8\xb8+\xcft\xd9\xa2\xefD\x92\x97ys\xd6R\x98\xb0\xe9\xa9\x1c\0\0\0w\x02\
    chb76915c274f990013592df05fee17b746f061366372c51ee83dc9d555cca5389\x04Org1\x01\x02c0\x02n2\
    \x02cc\0\0\0\0 \x80m\x0e\xc9;\x1a]\x18\x0f\x8e\xe7\xe1$?\x1fjzg\xb5\xb77\x80\xe8s\x1c\xad\
    \x98?J\xd2\x0b&",
    ),
    (
        "o2",
        b"FBK1\0\0\0\0\0\0\0\x02 g\x19\xd4\xa8yD\xf1\xdd\x88'\x94\x1a\x01\x9b\x83\xe8G\x1d\x88\xefzD\
    \xe8I\x18\\`\xcb\x91 )\x9e\x17\xe3\xbd\xbfy\x8a\xf8\x15\xea\x81\x0f}b\x90\x16\xa2\xf6\xe0<\
    \xd4\x12\xe3\x99\xa3\xba\xae\x9d\x99\x16pY\xd3\0\0\0\x01\0\0\0w\x02chdf9ae39a69c858c1a7bd542\
    94d1c59f242892a6ba276255f2d18b918f5f6da6f\x04Org1\x01\x02c0\x02n3\x02cc\0\0\0\0 e\x86*\xa7\
    \x84\x83S%cs\xbchp|xz\xdd\xfa\\\x0e\x91\xcf\x1e\xb9\x03ap\x87>\x0d\x19\x9f",
    ),
    (
        "f2",
        b"FBK2\0\0\0\0\0\0\0\x02 g\x19\xd4\xa8yD\xf1\xdd\x88'\x94\x1a\x01\x9b\x83\xe8G\x1d\x88\xefzD\
    \xe8I\x18\\`\xcb\x91 )\x9e\xfc\x01Kg\x9fOF,\xea\x93#\xde\xbe\xf2<\"j\x9f\xbb\0\x85\xcb\xc6W\
    \xe2\xbf\x9a\x05\x07\x18j\x82\0\0\0\x01\0\0\0\xb6\x02ch459475528dc038f899a89dddf066c78d53313\
    8cdcf2fd4efe1a99d8c9cadfaed\x04Org1\x01\x02c0\x02n0\x02cc\0\x01\x02cc\0\0\0\0\0\x01\0\x01a\
    \x01\0\0\0\x01v\0\0\x01\x04Org1\x02\x02p0\0 se*\x7ff\x078\x80\xba2\xb73\x113o\x991\xc2\x1f\
    \x08\x0b\xf9\xd3e\xaf\xf5?7\xe9v<\xd2\0 \xdf9N\x8f\xe2\xc9\xf4\xac|\xe2>\xe0\x83\xb7\xd2q\
    \xe3j\x8f\x01z\xf4\xc7x\xaa;G\xf4\xf0\xee\xca1",
    ),
    (
        "g2",
        b"FBK2\0\0\0\0\0\0\0\x02 \xd5\xf0\xc2\xae\xc6|\xa8+\x16\xa3pa\x92xX\xe6\x19\xea\0RH\x07\xd0\
    \x12[W\x8f\xc9\xd1+\x0e\xf1\x17\xe3\xbd\xbfy\x8a\xf8\x15\xea\x81\x0f}b\x90\x16\xa2\xf6\xe0<\
    \xd4\x12\xe3\x99\xa3\xba\xae\x9d\x99\x16pY\xd3\0\0\0\x01\0\0\0w\x02chdf9ae39a69c858c1a7bd542\
    94d1c59f242892a6ba276255f2d18b918f5f6da6f\x04Org1\x01\x02c0\x02n3\x02cc\0\0\0\0 e\x86*\xa7\
    \x84\x83S%cs\xbchp|xz\xdd\xfa\\\x0e\x91\xcf\x1e\xb9\x03ap\x87>\x0d\x19\x9f",
    ),
];

/// Words behind those of the channel and the keys.
pub(crate) fn answers() -> &'static [Row<'static>] {
    &ANSWERS
}

static ANSWERS: [Row<'static>; 47] = [
    (
        "explain b0 b1 b2 b0",
        1,
        "refused 4 C2 want 3 got 0\nknown 0 same c29e7dbdaa38d80ecbd5bc5402e78f07be4dce8cfbe638a1a4243578a26dfb31 is c29e7dbdaa38d80ecbd5bc5402e78f07be4dce8cfbe638a1a4243578a26dfb31\n",
        "",
    ),
    (
        "explain --json b0 b1 b2 b0",
        1,
        "{\"kind\":\"refused\",\"place\":4,\"fault\":\"C2\",\"want\":3,\"got\":0}\n{\"kind\":\"known\",\"number\":0,\"as\":\"same\",\"accepted\":\"c29e7dbdaa38d80ecbd5bc5402e78f07be4dce8cfbe638a1a4243578a26dfb31\",\"own\":\"c29e7dbdaa38d80ecbd5bc5402e78f07be4dce8cfbe638a1a4243578a26dfb31\"}\n",
        "",
    ),
    (
        "explain b0 b1 b2 b1",
        1,
        "refused 4 C2 want 3 got 1\nknown 1 same 6719d4a87944f1dd8827941a019b83e8471d88ef7a44e849185c60cb9120299e is 6719d4a87944f1dd8827941a019b83e8471d88ef7a44e849185c60cb9120299e\n",
        "",
    ),
    (
        "explain --json b0 b1 b2 b1",
        1,
        "{\"kind\":\"refused\",\"place\":4,\"fault\":\"C2\",\"want\":3,\"got\":1}\n{\"kind\":\"known\",\"number\":1,\"as\":\"same\",\"accepted\":\"6719d4a87944f1dd8827941a019b83e8471d88ef7a44e849185c60cb9120299e\",\"own\":\"6719d4a87944f1dd8827941a019b83e8471d88ef7a44e849185c60cb9120299e\"}\n",
        "",
    ),
    (
        "explain b0 b1 b2 b2",
        1,
        "refused 4 C2 want 3 got 2\nknown 2 same 79b489ef15b7a9277d0c000d5a75d8e010bdff6046585caeba22d96a9908d81a is 79b489ef15b7a9277d0c000d5a75d8e010bdff6046585caeba22d96a9908d81a\n",
        "",
    ),
    (
        "explain --json b0 b1 b2 b2",
        1,
        "{\"kind\":\"refused\",\"place\":4,\"fault\":\"C2\",\"want\":3,\"got\":2}\n{\"kind\":\"known\",\"number\":2,\"as\":\"same\",\"accepted\":\"79b489ef15b7a9277d0c000d5a75d8e010bdff6046585caeba22d96a9908d81a\",\"own\":\"79b489ef15b7a9277d0c000d5a75d8e010bdff6046585caeba22d96a9908d81a\"}\n",
        "",
    ),
    (
        "explain b0 b1 b2 v0",
        1,
        "refused 4 C2 want 3 got 0\nknown 0 twin c29e7dbdaa38d80ecbd5bc5402e78f07be4dce8cfbe638a1a4243578a26dfb31 is c29e7dbdaa38d80ecbd5bc5402e78f07be4dce8cfbe638a1a4243578a26dfb31\n",
        "",
    ),
    (
        "explain --json b0 b1 b2 v0",
        1,
        "{\"kind\":\"refused\",\"place\":4,\"fault\":\"C2\",\"want\":3,\"got\":0}\n{\"kind\":\"known\",\"number\":0,\"as\":\"twin\",\"accepted\":\"c29e7dbdaa38d80ecbd5bc5402e78f07be4dce8cfbe638a1a4243578a26dfb31\",\"own\":\"c29e7dbdaa38d80ecbd5bc5402e78f07be4dce8cfbe638a1a4243578a26dfb31\"}\n",
        "",
    ),
    (
        "explain b0 b1 b2 v1",
        1,
        "refused 4 C2 want 3 got 1\nknown 1 twin 6719d4a87944f1dd8827941a019b83e8471d88ef7a44e849185c60cb9120299e is 6719d4a87944f1dd8827941a019b83e8471d88ef7a44e849185c60cb9120299e\n",
        "",
    ),
    (
        "explain --json b0 b1 b2 v1",
        1,
        "{\"kind\":\"refused\",\"place\":4,\"fault\":\"C2\",\"want\":3,\"got\":1}\n{\"kind\":\"known\",\"number\":1,\"as\":\"twin\",\"accepted\":\"6719d4a87944f1dd8827941a019b83e8471d88ef7a44e849185c60cb9120299e\",\"own\":\"6719d4a87944f1dd8827941a019b83e8471d88ef7a44e849185c60cb9120299e\"}\n",
        "",
    ),
    (
        "explain b0 b1 b2 j1",
        1,
        "refused 4 C2 want 3 got 1\nknown 1 twin 6719d4a87944f1dd8827941a019b83e8471d88ef7a44e849185c60cb9120299e is 6719d4a87944f1dd8827941a019b83e8471d88ef7a44e849185c60cb9120299e\n",
        "",
    ),
    (
        "explain --json b0 b1 b2 j1",
        1,
        "{\"kind\":\"refused\",\"place\":4,\"fault\":\"C2\",\"want\":3,\"got\":1}\n{\"kind\":\"known\",\"number\":1,\"as\":\"twin\",\"accepted\":\"6719d4a87944f1dd8827941a019b83e8471d88ef7a44e849185c60cb9120299e\",\"own\":\"6719d4a87944f1dd8827941a019b83e8471d88ef7a44e849185c60cb9120299e\"}\n",
        "",
    ),
    (
        "explain b0 b1 b2 f0",
        1,
        "refused 4 C2 want 3 got 0\nknown 0 fork c29e7dbdaa38d80ecbd5bc5402e78f07be4dce8cfbe638a1a4243578a26dfb31 is 9cae6f5c10756febc407bba95fc23853774c1f65f10354895bfdab6443d66ed3\n",
        "",
    ),
    (
        "explain --json b0 b1 b2 f0",
        1,
        "{\"kind\":\"refused\",\"place\":4,\"fault\":\"C2\",\"want\":3,\"got\":0}\n{\"kind\":\"known\",\"number\":0,\"as\":\"fork\",\"accepted\":\"c29e7dbdaa38d80ecbd5bc5402e78f07be4dce8cfbe638a1a4243578a26dfb31\",\"own\":\"9cae6f5c10756febc407bba95fc23853774c1f65f10354895bfdab6443d66ed3\"}\n",
        "",
    ),
    (
        "explain b0 b1 b2 f1",
        1,
        "refused 4 C2 want 3 got 1\nknown 1 fork 6719d4a87944f1dd8827941a019b83e8471d88ef7a44e849185c60cb9120299e is d5f0c2aec67ca82b16a37061927858e619ea00524807d0125b578fc9d12b0ef1\n",
        "",
    ),
    (
        "explain --json b0 b1 b2 f1",
        1,
        "{\"kind\":\"refused\",\"place\":4,\"fault\":\"C2\",\"want\":3,\"got\":1}\n{\"kind\":\"known\",\"number\":1,\"as\":\"fork\",\"accepted\":\"6719d4a87944f1dd8827941a019b83e8471d88ef7a44e849185c60cb9120299e\",\"own\":\"d5f0c2aec67ca82b16a37061927858e619ea00524807d0125b578fc9d12b0ef1\"}\n",
        "",
    ),
    (
        "explain b0 b1 b2 f2",
        1,
        "refused 4 C2 want 3 got 2\nknown 2 fork 79b489ef15b7a9277d0c000d5a75d8e010bdff6046585caeba22d96a9908d81a is 20af0206fc211bcc36d0c08ed5c63f9c172716e20dd221a5f6af76651db51032\n",
        "",
    ),
    (
        "explain --json b0 b1 b2 f2",
        1,
        "{\"kind\":\"refused\",\"place\":4,\"fault\":\"C2\",\"want\":3,\"got\":2}\n{\"kind\":\"known\",\"number\":2,\"as\":\"fork\",\"accepted\":\"79b489ef15b7a9277d0c000d5a75d8e010bdff6046585caeba22d96a9908d81a\",\"own\":\"20af0206fc211bcc36d0c08ed5c63f9c172716e20dd221a5f6af76651db51032\"}\n",
        "",
    ),
    (
        "explain b0 b1 b2 d1",
        1,
        "refused 4 C2 want 3 got 1\nknown 1 other 6719d4a87944f1dd8827941a019b83e8471d88ef7a44e849185c60cb9120299e is 6719d4a87944f1dd8827941a019b83e8471d88ef7a44e849185c60cb9120299e\n",
        "",
    ),
    (
        "explain --json b0 b1 b2 d1",
        1,
        "{\"kind\":\"refused\",\"place\":4,\"fault\":\"C2\",\"want\":3,\"got\":1}\n{\"kind\":\"known\",\"number\":1,\"as\":\"other\",\"accepted\":\"6719d4a87944f1dd8827941a019b83e8471d88ef7a44e849185c60cb9120299e\",\"own\":\"6719d4a87944f1dd8827941a019b83e8471d88ef7a44e849185c60cb9120299e\"}\n",
        "",
    ),
    (
        "explain b0 b1 b2 p0",
        1,
        "refused 4 C2 want 3 got 0\nknown 0 other c29e7dbdaa38d80ecbd5bc5402e78f07be4dce8cfbe638a1a4243578a26dfb31 is 303854798102a23240de0e733db182af7d3f8afe691f821fc2df9b8bb65f8360\n",
        "",
    ),
    (
        "explain --json b0 b1 b2 p0",
        1,
        "{\"kind\":\"refused\",\"place\":4,\"fault\":\"C2\",\"want\":3,\"got\":0}\n{\"kind\":\"known\",\"number\":0,\"as\":\"other\",\"accepted\":\"c29e7dbdaa38d80ecbd5bc5402e78f07be4dce8cfbe638a1a4243578a26dfb31\",\"own\":\"303854798102a23240de0e733db182af7d3f8afe691f821fc2df9b8bb65f8360\"}\n",
        "",
    ),
    (
        "explain b0 b1 b2 p1",
        1,
        "refused 4 C2 want 3 got 1\nknown 1 other 6719d4a87944f1dd8827941a019b83e8471d88ef7a44e849185c60cb9120299e is 5129d94efbc61694e5870c97a8fce097654d1d26f9f913ebbb7b7eab719bd628\n",
        "",
    ),
    (
        "explain --json b0 b1 b2 p1",
        1,
        "{\"kind\":\"refused\",\"place\":4,\"fault\":\"C2\",\"want\":3,\"got\":1}\n{\"kind\":\"known\",\"number\":1,\"as\":\"other\",\"accepted\":\"6719d4a87944f1dd8827941a019b83e8471d88ef7a44e849185c60cb9120299e\",\"own\":\"5129d94efbc61694e5870c97a8fce097654d1d26f9f913ebbb7b7eab719bd628\"}\n",
        "",
    ),
    (
        "explain b0 b1 b2 q1",
        1,
        "refused 4 C2 want 3 got 1\nknown 1 other 6719d4a87944f1dd8827941a019b83e8471d88ef7a44e849185c60cb9120299e is 0b2a20382c1692ca7b0e65adaf478703a29cd5a6c3f824bd41ca178023cd98f0\n",
        "",
    ),
    (
        "explain --json b0 b1 b2 q1",
        1,
        "{\"kind\":\"refused\",\"place\":4,\"fault\":\"C2\",\"want\":3,\"got\":1}\n{\"kind\":\"known\",\"number\":1,\"as\":\"other\",\"accepted\":\"6719d4a87944f1dd8827941a019b83e8471d88ef7a44e849185c60cb9120299e\",\"own\":\"0b2a20382c1692ca7b0e65adaf478703a29cd5a6c3f824bd41ca178023cd98f0\"}\n",
        "",
    ),
    (
        "explain b0 b1 b2 o2",
        1,
        "refused 4 C2 want 3 got 2\nknown 2 other 79b489ef15b7a9277d0c000d5a75d8e010bdff6046585caeba22d96a9908d81a is 79b489ef15b7a9277d0c000d5a75d8e010bdff6046585caeba22d96a9908d81a\n",
        "",
    ),
    (
        "explain --json b0 b1 b2 o2",
        1,
        "{\"kind\":\"refused\",\"place\":4,\"fault\":\"C2\",\"want\":3,\"got\":2}\n{\"kind\":\"known\",\"number\":2,\"as\":\"other\",\"accepted\":\"79b489ef15b7a9277d0c000d5a75d8e010bdff6046585caeba22d96a9908d81a\",\"own\":\"79b489ef15b7a9277d0c000d5a75d8e010bdff6046585caeba22d96a9908d81a\"}\n",
        "",
    ),
    (
        "explain b0 b1 b2 g2",
        1,
        "refused 4 C2 want 3 got 2\nknown 2 other 79b489ef15b7a9277d0c000d5a75d8e010bdff6046585caeba22d96a9908d81a is 84c8b238588d7b25569d350350f38b91895bda7b881b21b455768b26ef6f3a8d\n",
        "",
    ),
    (
        "explain --json b0 b1 b2 g2",
        1,
        "{\"kind\":\"refused\",\"place\":4,\"fault\":\"C2\",\"want\":3,\"got\":2}\n{\"kind\":\"known\",\"number\":2,\"as\":\"other\",\"accepted\":\"79b489ef15b7a9277d0c000d5a75d8e010bdff6046585caeba22d96a9908d81a\",\"own\":\"84c8b238588d7b25569d350350f38b91895bda7b881b21b455768b26ef6f3a8d\"}\n",
        "",
    ),
    (
        "explain --ids b0 b1 b2 f1",
        1,
        "refused 4 C2 want 3 got 1\nknown 1 fork 6719d4a87944f1dd8827941a019b83e8471d88ef7a44e849185c60cb9120299e is d5f0c2aec67ca82b16a37061927858e619ea00524807d0125b578fc9d12b0ef1\n",
        "",
    ),
    (
        "explain --tx 7 b0 b1 b2 f1",
        1,
        "refused 4 C2 want 3 got 1\nknown 1 fork 6719d4a87944f1dd8827941a019b83e8471d88ef7a44e849185c60cb9120299e is d5f0c2aec67ca82b16a37061927858e619ea00524807d0125b578fc9d12b0ef1\n",
        "",
    ),
    (
        "explain --id 0000000000000000000000000000000000000000000000000000000000000000 b0 b1 b2 f1",
        1,
        "refused 4 C2 want 3 got 1\nknown 1 fork 6719d4a87944f1dd8827941a019b83e8471d88ef7a44e849185c60cb9120299e is d5f0c2aec67ca82b16a37061927858e619ea00524807d0125b578fc9d12b0ef1\n",
        "",
    ),
    (
        "explain --dot b0 b1 b2 f1",
        1,
        "refused 4 C2 want 3 got 1\nknown 1 fork 6719d4a87944f1dd8827941a019b83e8471d88ef7a44e849185c60cb9120299e is d5f0c2aec67ca82b16a37061927858e619ea00524807d0125b578fc9d12b0ef1\n",
        "",
    ),
    (
        "explain --dot --all b0 b1 b2 f1",
        1,
        "refused 4 C2 want 3 got 1\nknown 1 fork 6719d4a87944f1dd8827941a019b83e8471d88ef7a44e849185c60cb9120299e is d5f0c2aec67ca82b16a37061927858e619ea00524807d0125b578fc9d12b0ef1\n",
        "",
    ),
    (
        "explain b0 f1 b1",
        1,
        "refused 3 C2 want 2 got 1\nknown 1 fork d5f0c2aec67ca82b16a37061927858e619ea00524807d0125b578fc9d12b0ef1 is 6719d4a87944f1dd8827941a019b83e8471d88ef7a44e849185c60cb9120299e\n",
        "",
    ),
    (
        "explain b0 f1 b2 b1",
        1,
        "refused 4 C2 want 2 got 1\nknown 1 fork d5f0c2aec67ca82b16a37061927858e619ea00524807d0125b578fc9d12b0ef1 is 6719d4a87944f1dd8827941a019b83e8471d88ef7a44e849185c60cb9120299e\n",
        "",
    ),
    (
        "explain b0 k b0 v1 b1",
        1,
        "refused 5 C2 want 2 got 1\nknown 1 twin 6719d4a87944f1dd8827941a019b83e8471d88ef7a44e849185c60cb9120299e is 6719d4a87944f1dd8827941a019b83e8471d88ef7a44e849185c60cb9120299e\n",
        "",
    ),
    ("explain b1", 1, "refused 1 C2 want 0 got 1\n", ""),
    ("explain b0 b2", 1, "refused 2 C2 want 1 got 2\n", ""),
    ("explain b0 p1", 1, "refused 2 C3\n", ""),
    ("explain b0 d1", 1, "refused 2 C4\n", ""),
    ("explain b0 b1 o2", 1, "refused 3 C8\n", ""),
    ("explain p0", 1, "refused 1 C3\n", ""),
    ("explain b0 k", 1, "refused 2 C1 B1\n", ""),
    ("explain k", 1, "refused 1 C1 B1\n", ""),
    (
        "run b0 f0 v0",
        1,
        "accepted 0 c29e7dbdaa38d80ecbd5bc5402e78f07be4dce8cfbe638a1a4243578a26dfb31 0\nrefused 2 C2 want 1 got 0\nrefused 3 C2 want 1 got 0\n",
        "",
    ),
];
