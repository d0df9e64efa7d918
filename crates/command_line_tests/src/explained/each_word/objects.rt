//! What is answered of that chain in objects, made by vectors/explained.py.

use crate::fixture::Row;

/// Words behind those of the channel and the keys.
pub(crate) fn objects() -> &'static [Row<'static>] {
    &OBJECTS
}

static OBJECTS: [Row<'static>; 4] = [
    (
        "explain b0 b1 --json",
        0,
        "\
{\"kind\":\"block\",\"number\":1,\"hash\":\"bf87b96e1df1fe397d33a20c3adea06dc50fb4230f9d8748b959815edf417a4b\"}
{\"kind\":\"reason\",\"tx\":0,\"flag\":2,\"name\":\"BAD_PAYLOAD\"}
{\"kind\":\"reason\",\"tx\":1,\"flag\":4,\"name\":\"BAD_CREATOR_SIGNATURE\",\"reason\":\"creator\",\"creator\":{\"org\":\"Org3\",\"role\":\"orderer\",\"label\":\"x y\"}}
{\"kind\":\"reason\",\"tx\":2,\"flag\":9,\"name\":\"DUPLICATE_TXID\",\"reason\":\"used\",\"used\":{\"block\":0,\"tx\":0,\"flag\":0,\"name\":\"VALID\"}}
{\"kind\":\"reason\",\"tx\":3,\"flag\":9,\"name\":\"DUPLICATE_TXID\",\"reason\":\"used\",\"used\":{\"block\":0,\"tx\":1,\"flag\":10,\"name\":\"ENDORSEMENT_POLICY_FAILURE\"}}
{\"kind\":\"reason\",\"tx\":4,\"flag\":0,\"name\":\"VALID\"}
{\"kind\":\"reason\",\"tx\":5,\"flag\":9,\"name\":\"DUPLICATE_TXID\",\"reason\":\"used\",\"used\":{\"block\":1,\"tx\":4,\"flag\":0,\"name\":\"VALID\"}}
{\"kind\":\"reason\",\"tx\":6,\"flag\":12,\"name\":\"PHANTOM_READ_CONFLICT\",\"reason\":\"range\",\"namespace\":\"cc\",\"start\":\"a\",\"end\":\"d\",\"key\":\"a\",\"was\":{\"block\":0,\"tx\":0},\"is\":{\"block\":1,\"tx\":4},\"extent\":\"all\",\"by\":4}
{\"kind\":\"reason\",\"tx\":7,\"flag\":9,\"name\":\"DUPLICATE_TXID\",\"reason\":\"used\",\"used\":{\"block\":1,\"tx\":6,\"flag\":12,\"name\":\"PHANTOM_READ_CONFLICT\"}}
{\"kind\":\"reason\",\"tx\":8,\"flag\":12,\"name\":\"PHANTOM_READ_CONFLICT\",\"reason\":\"range\",\"namespace\":\"cc\",\"start\":\"a\",\"end\":\"d\",\"key\":\"a\",\"was\":null,\"is\":{\"block\":1,\"tx\":4},\"extent\":\"part\",\"by\":4}
{\"kind\":\"reason\",\"tx\":9,\"flag\":12,\"name\":\"PHANTOM_READ_CONFLICT\",\"reason\":\"range\",\"namespace\":\"cc\",\"start\":\"a\",\"end\":\"\",\"key\":\"c\",\"was\":{\"block\":9,\"tx\":9},\"is\":{\"block\":0,\"tx\":0},\"extent\":\"part\"}
{\"kind\":\"reason\",\"tx\":10,\"flag\":12,\"name\":\"PHANTOM_READ_CONFLICT\",\"reason\":\"range\",\"namespace\":\"cc\",\"start\":\"c\",\"end\":\"d\",\"key\":\"c\",\"was\":null,\"is\":{\"block\":0,\"tx\":0},\"extent\":\"all\"}
{\"kind\":\"reason\",\"tx\":11,\"flag\":0,\"name\":\"VALID\"}
{\"kind\":\"reason\",\"tx\":12,\"flag\":12,\"name\":\"PHANTOM_READ_CONFLICT\",\"reason\":\"range\",\"namespace\":\"cc\",\"start\":\"c\",\"end\":\"d\",\"key\":\"c\",\"was\":{\"block\":0,\"tx\":0},\"is\":null,\"extent\":\"all\",\"by\":11}
{\"kind\":\"reason\",\"tx\":13,\"flag\":0,\"name\":\"VALID\"}
{\"kind\":\"reason\",\"tx\":14,\"flag\":12,\"name\":\"PHANTOM_READ_CONFLICT\",\"reason\":\"range\",\"namespace\":\"cc\",\"start\":\"a\",\"end\":\"b\",\"key\":\"a\",\"was\":{\"block\":1,\"tx\":4},\"is\":{\"block\":1,\"tx\":13},\"extent\":\"all\",\"by\":13}
{\"kind\":\"reason\",\"tx\":15,\"flag\":12,\"name\":\"PHANTOM_READ_CONFLICT\",\"reason\":\"range\",\"namespace\":\"cc\",\"start\":\"c\",\"end\":\"d\",\"key\":\"c\",\"was\":{\"block\":0,\"tx\":0},\"is\":null,\"extent\":\"all\",\"by\":11}
{\"kind\":\"reason\",\"tx\":16,\"flag\":22,\"name\":\"BAD_RWSET\",\"reason\":\"fallen\",\"namespace\":\"cc\",\"start\":\"a\",\"end\":\"\",\"key\":\"c\",\"range\":1,\"result\":2}
{\"kind\":\"reason\",\"tx\":17,\"flag\":22,\"name\":\"BAD_RWSET\",\"reason\":\"outside\",\"namespace\":\"deep\",\"start\":\"\",\"end\":\"b\",\"key\":\"b\",\"range\":1,\"result\":1}
{\"kind\":\"reason\",\"tx\":18,\"flag\":10,\"name\":\"ENDORSEMENT_POLICY_FAILURE\",\"reason\":\"key\",\"namespace\":\"cc\",\"key\":\"k\",\"policy\":\"AND('Org1.peer',OutOf(2,'Org2.peer','Org2.member','Org1.admin'))\",\"signers\":[{\"org\":\"Org1\",\"role\":\"peer\",\"label\":\"p0\"}],\"refused\":[{\"org\":\"Org1\",\"role\":\"peer\",\"label\":\"p1\"},{\"org\":\"Org3\",\"role\":\"orderer\",\"label\":\"x y\"}],\"missing\":\"Org2.peer\"}
{\"kind\":\"reason\",\"tx\":19,\"flag\":10,\"name\":\"ENDORSEMENT_POLICY_FAILURE\",\"reason\":\"key\",\"namespace\":\"cc\",\"key\":\"k\",\"policy\":\"AND('Org1.peer',OutOf(2,'Org2.peer','Org2.member','Org1.admin'))\",\"signers\":[{\"org\":\"Org1\",\"role\":\"peer\",\"label\":\"p0\"},{\"org\":\"Org2\",\"role\":\"peer\",\"label\":\"p0\"}],\"missing\":\"Org2.member\"}
{\"kind\":\"reason\",\"tx\":20,\"flag\":10,\"name\":\"ENDORSEMENT_POLICY_FAILURE\",\"reason\":\"key\",\"namespace\":\"cc\",\"key\":\"k\",\"policy\":\"AND('Org1.peer',OutOf(2,'Org2.peer','Org2.member','Org1.admin'))\",\"signers\":[{\"org\":\"Org1\",\"role\":\"peer\",\"label\":\"p0\"}],\"refused\":[{\"org\":\"Org2\",\"role\":\"peer\",\"label\":\"p0\"}],\"missing\":\"Org2.peer\"}
{\"kind\":\"reason\",\"tx\":21,\"flag\":10,\"name\":\"ENDORSEMENT_POLICY_FAILURE\",\"reason\":\"key\",\"namespace\":\"cc\",\"key\":\"g\",\"policy\":\"AND(OR(AND('Org1.peer','Org2.admin'),'Org1.peer'),'Org1.client')\",\"signers\":[{\"org\":\"Org1\",\"role\":\"peer\",\"label\":\"p0\"}],\"missing\":\"Org1.client\"}
{\"kind\":\"reason\",\"tx\":22,\"flag\":10,\"name\":\"ENDORSEMENT_POLICY_FAILURE\",\"reason\":\"key\",\"namespace\":\"cc\",\"key\":\"m\",\"policy\":\"AND('Org1.member',OR('Org2.admin',AND('Org1.member','Org1.peer')))\",\"signers\":[{\"org\":\"Org1\",\"role\":\"peer\",\"label\":\"p0\"},{\"org\":\"Org1\",\"role\":\"admin\",\"label\":\"a0\"},{\"org\":\"Org1\",\"role\":\"client\",\"label\":\"c0\"}],\"missing\":\"Org2.admin\",\"order\":true}
{\"kind\":\"reason\",\"tx\":23,\"flag\":10,\"name\":\"ENDORSEMENT_POLICY_FAILURE\",\"reason\":\"chaincode\",\"namespace\":\"late\",\"key\":\"x\",\"policy\":\"AND('Org1.member','Org1.admin')\",\"signers\":[{\"org\":\"Org1\",\"role\":\"admin\",\"label\":\"a0\"},{\"org\":\"Org1\",\"role\":\"peer\",\"label\":\"p0\"}],\"missing\":\"Org1.admin\",\"order\":true}
{\"kind\":\"reason\",\"tx\":24,\"flag\":10,\"name\":\"ENDORSEMENT_POLICY_FAILURE\",\"reason\":\"named\",\"chaincode\":\"deep\",\"policy\":\"OutOf(2,AND('Org1.peer','Org2.peer'),'Org2.peer','Org1.orderer')\",\"signers\":[],\"refused\":[{\"org\":\"Org1\",\"role\":\"peer\",\"label\":\"p1\"}],\"missing\":\"Org1.peer\"}
{\"kind\":\"reason\",\"tx\":25,\"flag\":10,\"name\":\"ENDORSEMENT_POLICY_FAILURE\",\"reason\":\"named\",\"chaincode\":\"deep\",\"policy\":\"OutOf(2,AND('Org1.peer','Org2.peer'),'Org2.peer','Org1.orderer')\",\"signers\":[{\"org\":\"Org1\",\"role\":\"peer\",\"label\":\"p0\"},{\"org\":\"Org2\",\"role\":\"peer\",\"label\":\"p0\"}],\"missing\":\"Org2.peer\"}
{\"kind\":\"reason\",\"tx\":26,\"flag\":8,\"name\":\"BAD_PROPOSAL_TXID\",\"reason\":\"wanted\",\"wanted\":\"3e4f7840baf4f6658c0fa9c6b312a53deab5917fec7c7f44129b5c0db2b23a7c\"}
{\"kind\":\"reason\",\"tx\":27,\"flag\":14,\"name\":\"TARGET_CHAIN_NOT_FOUND\",\"reason\":\"channel\",\"channel\":\"other\"}
",
        "",
    ),
    (
        "explain b0 b1 b2 --json",
        0,
        "\
{\"kind\":\"block\",\"number\":2,\"hash\":\"e3eedc67c93de5ac8a3350fb70bf28efdc6c7939726a59b4f7830479ebb51d5b\"}
{\"kind\":\"reason\",\"tx\":0,\"flag\":6,\"name\":\"INVALID_CONFIG_TRANSACTION\",\"reason\":\"admin\",\"policy\":\"AND('Org1.member',OR('Org1.admin','Org2.admin'))\",\"signers\":[{\"org\":\"Org1\",\"role\":\"admin\",\"label\":\"a0\"},{\"org\":\"Org1\",\"role\":\"peer\",\"label\":\"p0\"}],\"refused\":[{\"org\":\"Org1\",\"role\":\"peer\",\"label\":\"p1\"}],\"missing\":\"Org1.admin\",\"order\":true}
",
        "",
    ),
    (
        "explain --ids --id %00%20%25%FF------------------------------------------------------------ \
    b0 b1 --json",
        0,
        "\
{\"kind\":\"block\",\"number\":1,\"hash\":\"bf87b96e1df1fe397d33a20c3adea06dc50fb4230f9d8748b959815edf417a4b\"}
{\"kind\":\"reason\",\"tx\":26,\"flag\":8,\"name\":\"BAD_PROPOSAL_TXID\",\"reason\":\"wanted\",\"wanted\":\"3e4f7840baf4f6658c0fa9c6b312a53deab5917fec7c7f44129b5c0db2b23a7c\",\"id\":{\"hex\":\"002025ff2d2d2d2d2d2d2d2d2d2d2d2d2d2d2d2d2d2d2d2d2d2d2d2d2d2d2d2d2d2d2d2d2d2d2d2d2d2d2d2d2d2d2d2d2d2d2d2d2d2d2d2d2d2d2d2d2d2d2d2d\"}}
",
        "",
    ),
    (
        "explain --id 291332360adafa3423b9c53a39a9e2d7728ec1023a0de7c05e53a03574b1fdb7 b0 b1 b2 --jso\
    n",
        0,
        "\
{\"kind\":\"block\",\"number\":2,\"hash\":\"e3eedc67c93de5ac8a3350fb70bf28efdc6c7939726a59b4f7830479ebb51d5b\"}
{\"kind\":\"earlier\",\"block\":1,\"tx\":6,\"flag\":12,\"name\":\"PHANTOM_READ_CONFLICT\"}
",
        "",
    ),
];
