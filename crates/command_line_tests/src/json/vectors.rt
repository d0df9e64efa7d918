//! Blocks of odd bytes, and what is told of them in JSON, made by vectors/as_json.py.

use crate::fixture::Row;

pub(crate) fn keys() -> &'static [u8] {
    KEYS
}

static KEYS: &[u8] =
    b"Org1:peer:p0 0b0b0b0b0b0b0b0b\x0aOrg1:client:%22%0A 00\x0aOrg2:client:%FF%5C 01\x0a";

pub(crate) fn first_block() -> &'static [u8] {
    FIRST_BLOCK
}

static FIRST_BLOCK: &[u8] =
    b"FBK1\0\0\0\0\0\0\0\0\0Tq{DI\xc2\x1f\x0bPPO@oz\xcd\x17\xff\x18}\xb5\xdd\x86\x09a\xb6n\xa0E\
    \xe8\xf1a\x9d\0\0\0\x01\0\0\0\xf2\x02ch0ddf97dbc97aec8a730c1ef69e02d0a66bfa38bc41c15f5bbf298\
    aa87525255d\x04Org1\x01\x02\"\x0a\x02n0\x02cc\0\x01\x02cc\0\0\0\0\0\x04\0\x03\"a\\\x01\0\0\0\
    \x03b\x0a\0\0\x02\xc3\xa9\x01\0\0\0\x01\xff\0\x07deleted\x01\0\0\0\x07deleted\0\x01\x7f\x01\
    \0\0\0\0\0\x01\0\x01\x7f\x01\0\x0b'Org1.peer'\x01\x04Org1\x02\x02p0\0 \x9d\x05<\x9c\xba|\xb9\
    \x9e=1\0\xfcs\xf1f\x17\xfbY\xaf\xb6$s\xde\xfd\x93\xaaNF\xe4\xc6i\xf3\0 \xd6\xcb\x0e\x11\xb4\
    \xf9\xf9\x88\x19\x11A5JWPl\x8578P\xf2oLhJ8\x1a\xa1\xd0|F\xb5";

pub(crate) fn second_block() -> &'static [u8] {
    SECOND_BLOCK
}

static SECOND_BLOCK: &[u8] =
    b"FBK1\0\0\0\0\0\0\0\x01 \xd0,fC\xe6r\0\x96\x0f\x1d\xbec\x14g\xb2\x1d\xc9X\xffhl5\xe0h\x98\x04\
    \x95\xaf\xbc2G\x1d_c\xf4\x9aF\x91c\xc38T\xe6\x85\x9d*`\xbeEe\x88\xbc)q\x1c\xcb\x1ac\xc7\x1c\
    \xd4\xb2O-\0\0\0\x03\0\0\0\xb7\x02ch1e39ede52691947fee057623a83eb11783ad877ab06ec26d0603f3b1\
    64dd56e4\x04Org1\x01\x02\"\x0a\x02n1\x02cc\0\x01\x02cc\0\0\0\0\0\x01\0\x07deleted\0\0\0\x01\
    \x04Org1\x02\x02p0\0 \x08\xae\xc9\x0d\xfb\xc7\xc3\xb3^X\xfe\xf6\xa2\xe9:\xd05\xd3^\xfe\xfb\
    \xa2\xae};m\x8b0\xea\xe30.\0 z\x92p\x9e\xf5&\x0c\x92k\xc9M\xc6\xc6\x06~H\xb6F\x1c\xe8\x7f\
    \x08\xfd\xb5\xab\x01\xfd\xd0\xf6\x8dW\x87\0\0\0\xbf\x02cha0045e36dfc6685c639293580ea07ec8349\
    30845783024cef9cae75a6f899c59\x04Org1\x01\x02\"\x0a\x02n2\x02cc\0\x01\x02cc\0\x01\0\x03\"a\\\
    \x01\0\0\0\0\0\0\0\x09\0\0\0\x01\0\0\0\0\0\0\x01\x04Org1\x02\x02p0\0 \x038u\x08\x1d\xb0\x854\
    \xeco\xfc\x92(D\xb0+s\x8c\x97\xd4\x7fgDe\xb6\x01\x92\xc1\xee@\xe4\xfb\0 \x09\xd0\xed\x84l\
    \xf7L;}eb+\xb0\xfa\x94\xd8EQ.\xda\x9a\xec\xd2\xaf\x86#\xaf\x83\xd3\xb8\xcbU\0\0\0\xb7\x02cha\
    f838bdd8966c5651e0065569ab3d1242380aaea12b838120c6f769852a1eda0\x04Org1\x01\x02\"\x0a\x02n3\
    \x02cc\0\x01\x02cc\0\0\0\0\0\x01\0\x02\x7f\0\x01\0\0\0\x01v\0\0\x01\x04Org2\x01\x02\xff\\\0 \
    g|\x89\x06\xba\xfd\x99[\xba7\x01\xd9\xed|\xb1\x93\xb1\xd4\xed\xa5\xab\xeb\xcfrf\xb4Y&\xe5\
    \x0f\xf1\x92\0 \x87\xb8\x97\xc7\xdc\xaf\xb0L\xcf\xa4cW\x9c\xdc\x12C\x8f\x1cx\xbf\xd4E\xd1\
    \xff \x0b\xcc\xdef\x0c_$";

/// Words behind those of the channel and the keys.
pub(crate) fn answers() -> &'static [Row<'static>] {
    &ANSWERS
}

static ANSWERS: [Row<'static>; 17] = [
    (
        "run --json b0 b0 b1",
        1,
        "{\"kind\":\"accepted\",\"number\":0,\"hash\":\"d02c6643e67200960f1dbe631467b21dc958ff686c35e\
    068980495afbc32471d\",\"flags\":[0]}\n{\"kind\":\"refused\",\"place\":2,\"fault\":\"C2\",\"w\
    ant\":1,\"got\":0}\n{\"kind\":\"accepted\",\"number\":1,\"hash\":\"b9e5ce9d015207976328f778b\
    d753337e6ddf1393e8800973130cd8732eaba2a\",\"flags\":[0,11,10]}\n",
        "",
    ),
    (
        "run --workers 2 --readers 2 --hashes b0 b1 --json",
        0,
        "{\"kind\":\"accepted\",\"number\":0,\"hash\":\"d02c6643e67200960f1dbe631467b21dc958ff686c35e\
    068980495afbc32471d\",\"flags\":[0]}\n{\"kind\":\"commit\",\"number\":0,\"hash\":\"df831cf6c\
    54080d7ca40908e209cbfa1eb4d2437b7515adbf87fef2c762ffa42\"}\n{\"kind\":\"accepted\",\"number\
    \":1,\"hash\":\"b9e5ce9d015207976328f778bd753337e6ddf1393e8800973130cd8732eaba2a\",\"flags\"\
    :[0,11,10]}\n{\"kind\":\"commit\",\"number\":1,\"hash\":\"80c91ad5779fb4b387f01d4b5007ee2317\
    8fb44f2f0f559757d06373afbfd8f8\"}\n{\"kind\":\"reader\",\"reader\":1,\"height\":2}\n{\"kind\
    \":\"reader\",\"reader\":2,\"height\":2}\n",
        "",
    ),
    (
        "run --json k",
        1,
        "{\"kind\":\"refused\",\"place\":1,\"fault\":\"C1 B1\"}\n",
        "",
    ),
    (
        "get --json --ns cc --key %22a%5C b0 b1",
        0,
        "{\"kind\":\"height\",\"height\":2}\n{\"kind\":\"row\",\"key\":\"\\\"a\\\\\",\"block\":0,\"tx\
    \":0,\"value\":\"b\\u000a\\u0000\",\"policy\":null}\n",
        "",
    ),
    (
        "get --json --ns cc --key deleted b0 b1",
        0,
        "{\"kind\":\"height\",\"height\":2}\n{\"kind\":\"absent\"}\n",
        "",
    ),
    ("get --json --ns cc --key % b0", 2, "", "bad word\n"),
    ("get --json --ns cc --key a no", 3, "", "cannot read no\n"),
    (
        "scan --json --ns cc --limit 2 b0 b1",
        0,
        "{\"kind\":\"height\",\"height\":2}\n{\"kind\":\"row\",\"key\":\"\\\"a\\\\\",\"block\":0,\"tx\
    \":0,\"value\":\"b\\u000a\\u0000\",\"policy\":null}\n{\"kind\":\"row\",\"key\":\"\u{7f}\",\"\
    block\":0,\"tx\":0,\"value\":\"\",\"policy\":\"'Org1.peer'\"}\n{\"kind\":\"more\"}\n",
        "",
    ),
    (
        "scan --json --ns cc --start %7F%00 b0 b1",
        0,
        "{\"kind\":\"height\",\"height\":2}\n{\"kind\":\"row\",\"key\":\"\u{e9}\",\"block\":0,\"tx\":\
    0,\"value\":{\"hex\":\"ff\"},\"policy\":null}\n",
        "",
    ),
    (
        "history --json --ns cc --key deleted b0 b1",
        0,
        "{\"kind\":\"height\",\"height\":2}\n{\"kind\":\"entry\",\"block\":1,\"tx\":0,\"id\":\"1e39ed\
    e52691947fee057623a83eb11783ad877ab06ec26d0603f3b164dd56e4\",\"value\":null}\n{\"kind\":\"en\
    try\",\"block\":0,\"tx\":0,\"id\":\"0ddf97dbc97aec8a730c1ef69e02d0a66bfa38bc41c15f5bbf298aa8\
    7525255d\",\"value\":\"deleted\"}\n",
        "",
    ),
    (
        "definition --json --ns cc",
        0,
        "{\"kind\":\"height\",\"height\":0}\n{\"kind\":\"definition\",\"policy\":\"OR('Org1.peer','Or\
    g2.peer')\"}\n",
        "",
    ),
    (
        "definition --json --ns dd k",
        1,
        "{\"kind\":\"height\",\"height\":0}\n{\"kind\":\"absent\"}\n",
        "",
    ),
    (
        "explain --json b0 b1",
        0,
        "{\"kind\":\"block\",\"number\":1,\"hash\":\"b9e5ce9d015207976328f778bd753337e6ddf1393e880097\
    3130cd8732eaba2a\"}\n{\"kind\":\"reason\",\"tx\":0,\"flag\":0,\"name\":\"VALID\"}\n{\"kind\"\
    :\"reason\",\"tx\":1,\"flag\":11,\"name\":\"MVCC_READ_CONFLICT\",\"reason\":\"read\",\"names\
    pace\":\"cc\",\"key\":\"\\\"a\\\\\",\"was\":{\"block\":9,\"tx\":1},\"is\":{\"block\":0,\"tx\
    \":0}}\n{\"kind\":\"reason\",\"tx\":2,\"flag\":10,\"name\":\"ENDORSEMENT_POLICY_FAILURE\",\"\
    reason\":\"chaincode\",\"namespace\":\"cc\",\"key\":\"\u{7f}\\u0000\",\"policy\":\"OR('Org1.\
    peer','Org2.peer')\",\"signers\":[{\"org\":\"Org2\",\"role\":\"client\",\"label\":{\"hex\":\
    \"ff5c\"}}],\"missing\":\"Org1.peer\"}\n",
        "",
    ),
    (
        "explain --json --ids --tx 0 b0 b1",
        0,
        "{\"kind\":\"block\",\"number\":1,\"hash\":\"b9e5ce9d015207976328f778bd753337e6ddf1393e880097\
    3130cd8732eaba2a\"}\n{\"kind\":\"reason\",\"tx\":0,\"flag\":0,\"name\":\"VALID\",\"id\":\"1e\
    39ede52691947fee057623a83eb11783ad877ab06ec26d0603f3b164dd56e4\"}\n",
        "",
    ),
    (
        "explain --json --id 0ddf97dbc97aec8a730c1ef69e02d0a66bfa38bc41c15f5bbf298aa87525255d b0 b1",
        0,
        "{\"kind\":\"block\",\"number\":1,\"hash\":\"b9e5ce9d015207976328f778bd753337e6ddf1393e880097\
    3130cd8732eaba2a\"}\n{\"kind\":\"earlier\",\"block\":0,\"tx\":0,\"flag\":0,\"name\":\"VALID\
    \"}\n",
        "",
    ),
    (
        "explain --json b0 b0",
        1,
        "{\"kind\":\"refused\",\"place\":2,\"fault\":\"C2\",\"want\":1,\"got\":0}\n{\"kind\":\"known\
    \",\"number\":0,\"as\":\"same\",\"accepted\":\"d02c6643e67200960f1dbe631467b21dc958ff686c35e\
    068980495afbc32471d\",\"own\":\"d02c6643e67200960f1dbe631467b21dc958ff686c35e068980495afbc32\
    471d\"}\n",
        "",
    ),
    (
        "conflicts --json --from 1 b0 b1",
        0,
        "{\"kind\":\"flag\",\"flag\":0,\"name\":\"VALID\",\"count\":1}\n{\"kind\":\"flag\",\"flag\":1\
    0,\"name\":\"ENDORSEMENT_POLICY_FAILURE\",\"count\":1}\n{\"kind\":\"flag\",\"flag\":11,\"nam\
    e\":\"MVCC_READ_CONFLICT\",\"count\":1}\n{\"kind\":\"key\",\"namespace\":\"cc\",\"key\":\"\\\
    \"a\\\\\",\"count\":1,\"stale\":1,\"phantom\":0,\"policy\":0,\"touched\":0,\"in_block\":0}\n\
    {\"kind\":\"chaincode\",\"chaincode\":\"cc\",\"count\":1,\"missing\":\"Org1.peer\",\"times\"\
    :1}\n",
        "",
    ),
];
