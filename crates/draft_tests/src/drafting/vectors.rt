//! Scripts with the blocks that they draft or their first faulty lines, made by vectors/make.py.

use super::DraftCase;

/// The key book of all who sign in the scripts.
pub fn keys() -> &'static str {
    KEYS
}

static KEYS: &str =
    "# one identity for each role, one whose label is written as `%`, and one with a colon in it\
    \nOrg1:client:c0 00112233445566778899aabbccddeeff\nOrg1:peer:p0 22\nOrg2:peer:q0 33\nOrg1:ad\
    min:a%20b 44\nOrg.3:orderer:% 55\nA_-9:peer:x:y 66\n";

/// Scripts of blocks of version 1.
pub fn drafts() -> &'static [DraftCase] {
    &DRAFTS
}

static DRAFTS: [DraftCase; 32] = [
    DraftCase {
        script: "",
        after: None,
        line: None,
        block: b"FBK1\0\0\0\0\0\0\0\0\0\xe3\xb0\xc4B\x98\xfc\x1c\x14\x9a\xfb\xf4\xc8\x99o\xb9$'\xaeA\xe4d\x9b\
    \x93L\xa4\x95\x99\x1bxR\xb8U\0\0\0\0",
    },
    DraftCase {
        script: "tx Org1:client:c0 n0 cc\nns cc\nwrite k1 v1\npolicy k1 AND('Org1.peer','Org2.peer')\nendorse\
    \x20Org1:peer:p0\n",
        after: None,
        line: None,
        block: b"FBK1\0\0\0\0\0\0\0\0\0\xb7\xfefuz\x9d\xa5\xe9\xba\x03eZ\x1d5K{\x89Y*\x9e$\x05\xdc&\xa3\xd2\
    \x9d*=\x99$3\0\0\0\x01\0\0\0\xdb\x02ch459475528dc038f899a89dddf066c78d533138cdcf2fd4efe1a99d\
    8c9cadfaed\x04Org1\x01\x02c0\x02n0\x02cc\0\x01\x02cc\0\0\0\0\0\x01\0\x02k1\x01\0\0\0\x02v1\0\
    \x01\0\x02k1\x01\0\x1cAND('Org1.peer','Org2.peer')\x01\x04Org1\x02\x02p0\0 P\x0d\xb6l@gpf\
    \x01n\x16\x0f\xd0l8\xb6\x0a\x82\x04\x8fe+b\xcf9Qf\xb6\x08\x19\xec\xc9\0 \xef.\xf3z=\xb0\xae\
    \x11\xd4\x1bXm\xf5y\x95\xd8\xe8<\xe1p\x1f\xfbX\xdcg\x1d4\x9dfT\xf2\xd9",
    },
    DraftCase {
        script: "tx Org1:client:c0 n0 cc\nns cc\nwrite k1 v1\npolicy k1 AND('Org1.peer','Org2.peer')\nendorse\
    \x20Org1:peer:p0\n",
        after: Some(0),
        line: None,
        block: b"FBK1\0\0\0\0\0\0\0\x01 `\xe0\xf9\x9fh\x1b=f\xad\xf4\xd8\xba\xda\xf0\xbb5rzu\x8a3\xe2\\\x15\
    \x98\xa0\x90\x8d\xef\xf58\xf3\xb7\xfefuz\x9d\xa5\xe9\xba\x03eZ\x1d5K{\x89Y*\x9e$\x05\xdc&\
    \xa3\xd2\x9d*=\x99$3\0\0\0\x01\0\0\0\xdb\x02ch459475528dc038f899a89dddf066c78d533138cdcf2fd4\
    efe1a99d8c9cadfaed\x04Org1\x01\x02c0\x02n0\x02cc\0\x01\x02cc\0\0\0\0\0\x01\0\x02k1\x01\0\0\0\
    \x02v1\0\x01\0\x02k1\x01\0\x1cAND('Org1.peer','Org2.peer')\x01\x04Org1\x02\x02p0\0 P\x0d\xb6\
    l@gpf\x01n\x16\x0f\xd0l8\xb6\x0a\x82\x04\x8fe+b\xcf9Qf\xb6\x08\x19\xec\xc9\0 \xef.\xf3z=\xb0\
    \xae\x11\xd4\x1bXm\xf5y\x95\xd8\xe8<\xe1p\x1f\xfbX\xdcg\x1d4\x9dfT\xf2\xd9",
    },
    DraftCase {
        script: "tx Org1:client:c0 n0 cc\nns cc\nwrite k1 v1\npolicy k1 AND('Org1.peer','Org2.peer')\nendorse\
    \x20Org1:peer:p0\n",
        after: Some(1),
        line: None,
        block: b"FBK1\0\0\0\0\0\0\0\x02 \xbc\xb4m\x9ff~\x17^\x91-}/\x8f\x9e]\x16h\x93t\x04\xd6\xe0Tkv\x93\x88\
    ?\x1bM\xc5$\xb7\xfefuz\x9d\xa5\xe9\xba\x03eZ\x1d5K{\x89Y*\x9e$\x05\xdc&\xa3\xd2\x9d*=\x99$3\
    \0\0\0\x01\0\0\0\xdb\x02ch459475528dc038f899a89dddf066c78d533138cdcf2fd4efe1a99d8c9cadfaed\
    \x04Org1\x01\x02c0\x02n0\x02cc\0\x01\x02cc\0\0\0\0\0\x01\0\x02k1\x01\0\0\0\x02v1\0\x01\0\x02\
    k1\x01\0\x1cAND('Org1.peer','Org2.peer')\x01\x04Org1\x02\x02p0\0 P\x0d\xb6l@gpf\x01n\x16\x0f\
    \xd0l8\xb6\x0a\x82\x04\x8fe+b\xcf9Qf\xb6\x08\x19\xec\xc9\0 \xef.\xf3z=\xb0\xae\x11\xd4\x1bXm\
    \xf5y\x95\xd8\xe8<\xe1p\x1f\xfbX\xdcg\x1d4\x9dfT\xf2\xd9",
    },
    DraftCase {
        script: "tx Org1:client:c0 n0 cc\nns cc\nwrite k1 v1\npolicy k1 AND('Org1.peer','Org2.peer')\nendorse\
    \x20Org1:peer:p0\n",
        after: Some(127),
        line: None,
        block: b"FBK1\0\0\0\0\0\0\0\x80 G\x09\x87\x1d\xb6\x9d\xdc\x9b7\x1d4)@.\xb1t` \x80\xd5-\xdb[\xe9\xb4*\
    \xc8\xa8q\xfbj\xf8\xb7\xfefuz\x9d\xa5\xe9\xba\x03eZ\x1d5K{\x89Y*\x9e$\x05\xdc&\xa3\xd2\x9d*=\
    \x99$3\0\0\0\x01\0\0\0\xdb\x02ch459475528dc038f899a89dddf066c78d533138cdcf2fd4efe1a99d8c9cad\
    faed\x04Org1\x01\x02c0\x02n0\x02cc\0\x01\x02cc\0\0\0\0\0\x01\0\x02k1\x01\0\0\0\x02v1\0\x01\0\
    \x02k1\x01\0\x1cAND('Org1.peer','Org2.peer')\x01\x04Org1\x02\x02p0\0 P\x0d\xb6l@gpf\x01n\x16\
    \x0f\xd0l8\xb6\x0a\x82\x04\x8fe+b\xcf9Qf\xb6\x08\x19\xec\xc9\0 \xef.\xf3z=\xb0\xae\x11\xd4\
    \x1bXm\xf5y\x95\xd8\xe8<\xe1p\x1f\xfbX\xdcg\x1d4\x9dfT\xf2\xd9",
    },
    DraftCase {
        script: "tx Org1:client:c0 n0 cc\nns cc\nwrite k1 v1\npolicy k1 AND('Org1.peer','Org2.peer')\nendorse\
    \x20Org1:peer:p0\n",
        after: Some(128),
        line: None,
        block: b"FBK1\0\0\0\0\0\0\0\x81 \xc0\xb2\xb4\xe5\xe8\xb6\xcfF=sDDG\xec\xf2N\xad\x94\xd2\x8b/~\x1b\xdc\
    \xdb\xec\x1e\xfb\xc9\x99\x84\xf0\xb7\xfefuz\x9d\xa5\xe9\xba\x03eZ\x1d5K{\x89Y*\x9e$\x05\xdc&\
    \xa3\xd2\x9d*=\x99$3\0\0\0\x01\0\0\0\xdb\x02ch459475528dc038f899a89dddf066c78d533138cdcf2fd4\
    efe1a99d8c9cadfaed\x04Org1\x01\x02c0\x02n0\x02cc\0\x01\x02cc\0\0\0\0\0\x01\0\x02k1\x01\0\0\0\
    \x02v1\0\x01\0\x02k1\x01\0\x1cAND('Org1.peer','Org2.peer')\x01\x04Org1\x02\x02p0\0 P\x0d\xb6\
    l@gpf\x01n\x16\x0f\xd0l8\xb6\x0a\x82\x04\x8fe+b\xcf9Qf\xb6\x08\x19\xec\xc9\0 \xef.\xf3z=\xb0\
    \xae\x11\xd4\x1bXm\xf5y\x95\xd8\xe8<\xe1p\x1f\xfbX\xdcg\x1d4\x9dfT\xf2\xd9",
    },
    DraftCase {
        script: "tx Org1:client:c0 n0 cc\nns cc\nwrite k1 v1\npolicy k1 AND('Org1.peer','Org2.peer')\nendorse\
    \x20Org1:peer:p0\n",
        after: Some(9223372036854775808),
        line: None,
        block: b"FBK1\x80\0\0\0\0\0\0\x01 \xa5Z\x04\x1f\xe4\x8c\xee\xe3\x8ee\x09\xfc\x8c\x1c\xb4\x9d\xe3\xa7[\
    @lTt\x04-/\xaeK'\xf5+|\xb7\xfefuz\x9d\xa5\xe9\xba\x03eZ\x1d5K{\x89Y*\x9e$\x05\xdc&\xa3\xd2\
    \x9d*=\x99$3\0\0\0\x01\0\0\0\xdb\x02ch459475528dc038f899a89dddf066c78d533138cdcf2fd4efe1a99d\
    8c9cadfaed\x04Org1\x01\x02c0\x02n0\x02cc\0\x01\x02cc\0\0\0\0\0\x01\0\x02k1\x01\0\0\0\x02v1\0\
    \x01\0\x02k1\x01\0\x1cAND('Org1.peer','Org2.peer')\x01\x04Org1\x02\x02p0\0 P\x0d\xb6l@gpf\
    \x01n\x16\x0f\xd0l8\xb6\x0a\x82\x04\x8fe+b\xcf9Qf\xb6\x08\x19\xec\xc9\0 \xef.\xf3z=\xb0\xae\
    \x11\xd4\x1bXm\xf5y\x95\xd8\xe8<\xe1p\x1f\xfbX\xdcg\x1d4\x9dfT\xf2\xd9",
    },
    DraftCase {
        script: "tx Org1:client:c0 n0 cc\nns cc\nwrite k1 v1\npolicy k1 AND('Org1.peer','Org2.peer')\nendorse\
    \x20Org1:peer:p0\n",
        after: Some(18446744073709551614),
        line: None,
        block: b"FBK1\xff\xff\xff\xff\xff\xff\xff\xff \xa7\xcbAFf#&\xf7\x9c\x15H\x91\xed`W\xbd3K\xb3\xab`\xff\
    l\x82\xe0@z\x90(\xd2\xcd\xe4\xb7\xfefuz\x9d\xa5\xe9\xba\x03eZ\x1d5K{\x89Y*\x9e$\x05\xdc&\xa3\
    \xd2\x9d*=\x99$3\0\0\0\x01\0\0\0\xdb\x02ch459475528dc038f899a89dddf066c78d533138cdcf2fd4efe1\
    a99d8c9cadfaed\x04Org1\x01\x02c0\x02n0\x02cc\0\x01\x02cc\0\0\0\0\0\x01\0\x02k1\x01\0\0\0\x02\
    v1\0\x01\0\x02k1\x01\0\x1cAND('Org1.peer','Org2.peer')\x01\x04Org1\x02\x02p0\0 P\x0d\xb6l@gp\
    f\x01n\x16\x0f\xd0l8\xb6\x0a\x82\x04\x8fe+b\xcf9Qf\xb6\x08\x19\xec\xc9\0 \xef.\xf3z=\xb0\xae\
    \x11\xd4\x1bXm\xf5y\x95\xd8\xe8<\xe1p\x1f\xfbX\xdcg\x1d4\x9dfT\xf2\xd9",
    },
    DraftCase {
        script: " tx A_-9:peer:x:y key:%ff%FF cc \nendorse Org1:client:c0\r\nendorse  Org.3:orderer:%\ntx Org\
    1:admin:a%20b % cc\nendorse Org1:client:c0\r\nendorse Org1:client:c0\ntx  Org2:peer:q0  % cc\
    \x20\nns cc\nwrite k%2f1 k\n policy %00 \u{e9} \nns  E-_9\nread  key:%ff%FF  absent \nendors\
    e Org1:admin:a%20b\r\nrange  %  %00 all \nwrite key:%ff%FF %\nnopolicy  k%2f1\n endorse A_-9\
    :peer:x:y\n",
        after: None,
        line: None,
        block: b"FBK1\0\0\0\0\0\0\0\0\0-B\xcc\xf0\x8d\x18\xae\xa9\x19D\xc88ot\xc7(\xae\x87\xf6V\x0bR\x92\xf6i\
    \x8e_\xe1(\x02\x9dk\0\0\0\x03\0\0\0\xd1\x02ch04814dade8a8f6dd9d7abab56787c0fbdd8eac588e3fd86\
    0c62ebcae8821943c\x04A_-9\x02\x03x:y\x06key:\xff\xff\x02cc\0\0\x02\x04Org1\x01\x02c0\0 o\xed\
    r{\xb87\xc80\xf2\x1c\x0f\xd9\x95\x05\xe5\x8cSd\xa5}\xb8\xfd\xc9$Q\xa3\x08AiN,\xa2\x05Org.3\
    \x03\0\0 \xbb@\xf10\xbf\xcb\xc6\xf1bi#n\xc9b\x05\xc0\xfc\xeb$\x89M\x05\xa7W)\xc8UN/\xd7\x05\
    \x01\0 \xdd)?\xe3\xeb\xf6e\xdd\x1d\xb9\xcdo\x0de\xd5\xe6S\x1e\xfe\xf6\xa6V\xd3\xca2\xb0\xa6A\
    O\x8a\xbe\x1f\0\0\0\xcc\x02ch8917a5f9d8298ffc21adbdf3e86a4f2ba2329d8a2d41c39a56e00a56c0baa9f\
    4\x04Org1\0\x03a b\0\x02cc\0\0\x02\x04Org1\x01\x02c0\0 3*KQI\xd8\x9d\x0b\xdby\xb8\x15b\x94\
    \x9foy\xa9\xa4}\xec\xffQ\xe2\xbb\x17\xf4\xf3\xbd\xa8N9\x04Org1\x01\x02c0\0 3*KQI\xd8\x9d\x0b\
    \xdby\xb8\x15b\x94\x9foy\xa9\xa4}\xec\xffQ\xe2\xbb\x17\xf4\xf3\xbd\xa8N9\0 R\xc1\x85\xc7\xe6\
    F\xa9\x04)\xe5\x84\x1e&\xc2\xf5\xed\x0a\x8f;M\x16\xc2\x11z\x16\xe6\xe8\x0c0\x8eWa\0\0\x01\
    \x1c\x02ch2f6290f495da2fdaad4d37c5fac9a63f34c79465876e0aa89cb9c80b4bab3436\x04Org2\x02\x02q0\
    \0\x02cc\0\x02\x02cc\0\0\0\0\0\x01\0\x03k/1\x01\0\0\0\x01k\0\x01\0\x01\0\x01\0\x02\xc3\xa9\
    \x04E-_9\0\x01\0\x06key:\xff\xff\0\0\x01\0\0\0\x01\0\x01\0\0\0\x01\0\x06key:\xff\xff\x01\0\0\
    \0\0\0\x01\0\x03k/1\0\x02\x04Org1\0\x03a b\0 b\x84\x12\xba\x01\xe9&V)\xb0\x16\xdc\xa9\xb0\
    \xae\x93\xeb$\xec\xa94\xd3\xdb\xd8\xc6q&\xa0\xf8\xe6\x7fI\x04A_-9\x02\x03x:y\0 \xedQ\xa1\x07\
    \xa8\x06'C\x8a\x0bw\xe5\xa32\xc6\xc0\x81\xeecW)\xcfC\x18\xe3\xbbP\x93\x09aom\0 \"\xfc\xf10\
    \xe4\x98\x9a\xf0\x88\\C\xf1\xa1\x87\xa0Q\xf7~\x03|\x17>>\xbbZaU\xcb\xcc$\x0f\x8b",
    },
    DraftCase {
        script: "tx Org1:client:c0 % cc\n \nns  cc\n delete  ~!\"#$&'()*+,-./:;<=>?@[\\]^_`{|}\n endorse  Org\
    1:peer:p0\npolicy  ~!\"#$&'()*+,-./:;<=>?@[\\]^_`{|}  \u{e9}\r\nendorse Org1:peer:p0\r\n tx \
    \x20Org1:admin:a%20b  ~!\"#$&'()*+,-./:;<=>?@[\\]^_`{|} E-_9\nns  d.d\r\nrange k%2f1 %00 par\
    t\n read %00 0 7\n result %00 18446744073709551615 7\r\n delete  k\n \r\nnopolicy  k \n ns c\
    c \n read  k%2f1  7 4294967295 \n policy  key:%ff%FF    'Org1.peer'\nread key:%ff%FF absent \
    \ntx Org2:peer:q0 % cc\nendorse  Org1:client:c0\nendorse  Org1:admin:a%20b\n",
        after: Some(4),
        line: None,
        block: b"FBK1\0\0\0\0\0\0\0\x05 \xccxho\xfb,<mIOA\xd5\x18\xad\x13\x94k\xce\x96\\d\x9a\xeb\xb5\xea\xda\
    ;)S\x01\x8ct\x88\x98\xd2\xdc\xf7\xe5\xc9ju\x06_:\xf8\xd19,\x80\xe3\xd1\xb7$\x0a\x83e\x85\xff\
    I\xe0\xef\x9c\xff\xf4\0\0\0\x03\0\0\x01\x1e\x02chd86ced12760e424e0e8e72557ea71599f618d98e145\
    b680dc8c08dd1deeeeeb7\x04Org1\x01\x02c0\0\x02cc\0\x01\x02cc\0\0\0\0\0\x01\0\x1f~!\"#$&'()*+,\
    -./:;<=>?@[\\]^_`{|}\0\0\x01\0\x1f~!\"#$&'()*+,-./:;<=>?@[\\]^_`{|}\x01\0\x02\xc3\xa9\x02\
    \x04Org1\x02\x02p0\0 \x0d\xaa<<\x1f\xfb\x9e\x0e\xd8\xa2\xbb#\xd5\xca\x17f\xe4_gw\0\xb9`\xaf\
    \xbdj\\\xba\x8a\xc9t\xe1\x04Org1\x02\x02p0\0 \x0d\xaa<<\x1f\xfb\x9e\x0e\xd8\xa2\xbb#\xd5\xca\
    \x17f\xe4_gw\0\xb9`\xaf\xbdj\\\xba\x8a\xc9t\xe1\0 \xc6\x88\x1cr\x01\xbb\xe7\x05\xb2w!n\xb6\
    \x93\xe4'j\xe1\x0b^\x80a\x86\x09\x81\xd6;\x08]w\xd7\xb7\0\0\x01\x11\x02ch87f56c878d4e96233a8\
    05928a07db87f818c22cf5367117628cc3bbdcebcb600\x04Org1\0\x03a b\x1f~!\"#$&'()*+,-./:;<=>?@[\\\
    ]^_`{|}\x04E-_9\0\x02\x03d.d\0\x01\0\x01\0\x01\0\0\0\0\0\0\0\0\0\0\0\x07\0\x01\0\x03k/1\0\
    \x01\0\0\0\x01\0\x01\0\xff\xff\xff\xff\xff\xff\xff\xff\0\0\0\x07\0\x01\0\x01k\0\0\x01\0\x01k\
    \0\x02cc\0\x02\0\x03k/1\x01\0\0\0\0\0\0\0\x07\xff\xff\xff\xff\0\x06key:\xff\xff\0\0\0\0\0\0\
    \x01\0\x06key:\xff\xff\x01\0\x0b'Org1.peer'\0\0 Eiry\x89'crA\xa2Vu\x9a\xc7\xd2l\xdb\xd7\x06\
    \xc0\x96\x0a\xa8\x15\xdc\x91\x15\x87Y\x05>\xeb\0\0\0\xcc\x02ch2f6290f495da2fdaad4d37c5fac9a6\
    3f34c79465876e0aa89cb9c80b4bab3436\x04Org2\x02\x02q0\0\x02cc\0\0\x02\x04Org1\x01\x02c0\0 ^r\
    \x02\x1f\x07\xa8\x91\x0d\xb4\x8d\x0dF\x94!\x8c\xa0p.\x07\x1cg\x8a.;\xc4\xe9W\xa0\x1b\xefj\
    \x89\x04Org1\0\x03a b\0 \xf1\x13~\xd7\xb5\xa2\x87\x05S\xb8\xc6\xd0\xb0\xfbj\xaf\xbf\xb2\xeb\
    \x92\xa7\xbceP\x0e\xa6\x88\xcbX\x02\x0b\"\0 w\xda6\x93\x11\xfbOz\x845w\xf2=d\x12*v7\xa1k%\
    \xdf\xbbT\x7f\x8b\xac\xb6\xe1_\x9f\xf6",
    },
    DraftCase {
        script: "tx Org1:peer:p0 ~!\"#$&'()*+,-./:;<=>?@[\\]^_`{|} cc\r\nns E-_9\n read  k  0 4294967296\nwri\
    te key:%ff%FF %00\r\nwrite k %00\r\nns  cc \nendorse Org2:peer:q0\r\nread  k%2f1  absent\r\n\
    read  k  absent\ntx  Org.3:orderer:%  % cc\r\nendorse  Org.3:orderer:%\nendorse Org1:peer:p0\
    \x20\n",
        after: Some(4),
        line: Some(3),
        block: b"",
    },
    DraftCase {
        script: "tx A_-9:peer:x:y key:%ff%FF cc\nendorse Org2:peer:q0\nendorse Org.3:orderer:%\n",
        after: Some(4),
        line: None,
        block: b"FBK1\0\0\0\0\0\0\0\x05 \xccxho\xfb,<mIOA\xd5\x18\xad\x13\x94k\xce\x96\\d\x9a\xeb\xb5\xea\xda\
    ;)S\x01\x8ct\xd7H\xcd\xb6\xe5\x04\x13\xc5x\xbfI\xf6\xd5\x83\x9a\xb1\xa2\xbd\x98\x80\xff\xda\
    \xdc\x0c\xc1\x18\x02=\xe7(4\x03\0\0\0\x01\0\0\0\xd1\x02ch04814dade8a8f6dd9d7abab56787c0fbdd8\
    eac588e3fd860c62ebcae8821943c\x04A_-9\x02\x03x:y\x06key:\xff\xff\x02cc\0\0\x02\x04Org2\x02\
    \x02q0\0 \xc9@#\xa6\xc88\x08%,1\xf1zF\xd6\x142\x88C6r\xf4%\xc8\x15\xa2\xf9\xbc\xe8M\xc9\xa8F\
    \x05Org.3\x03\0\0 \xbb@\xf10\xbf\xcb\xc6\xf1bi#n\xc9b\x05\xc0\xfc\xeb$\x89M\x05\xa7W)\xc8UN/\
    \xd7\x05\x01\0 \xdd^\xe3\xd2r\x83L!\xf3\xd8\x93F \x1c\xb2\xfc\xa3\xa5\xe9\xff\xc4\x17x\xa2\
    \x93-s&\x10\xbfr\xc6",
    },
    DraftCase {
        script: "tx  Org1:client:c0  % E-_9\n     \nns cc\r\nwrite k k%2f1\ndelete  key:%ff%FF\nread  ~!\"#$&\
    '()*+,-./:;<=>?@[\\]^_`{|}  absent\n delete  k%2f1 \nns  d.d \n policy k%2f1   'Org1.peer'\n\
    read ~!\"#$&'()*+,-./:;<=>?@[\\]^_`{|} absent \nrange k key:%ff%FF all\n range k k%2f1 part\
    \n result  k  18446744073709551615 00000000000000000012\r\nendorse Org2:peer:q0 \n endorse O\
    rg1:peer:p0\ntx  Org1:peer:p0  k cc\n tx Org1:client:c0 k cc \n     \n endorse  A_-9:peer:x:\
    y\n",
        after: None,
        line: None,
        block: b"FBK1\0\0\0\0\0\0\0\0\0\xaf\xe9\xee\xb3\xd8x*I#R\xb2^1,8\xa8E\xbe\xb8[\xce\x19\xbf\xc0\x02/tP\
    ,\x1a\xfb\x8f\0\0\0\x03\0\0\x01}\x02chd86ced12760e424e0e8e72557ea71599f618d98e145b680dc8c08d\
    d1deeeeeb7\x04Org1\x01\x02c0\0\x04E-_9\0\x02\x02cc\0\x01\0\x1f~!\"#$&'()*+,-./:;<=>?@[\\]^_`\
    {|}\0\0\0\0\x03\0\x01k\x01\0\0\0\x03k/1\0\x06key:\xff\xff\0\0\x03k/1\0\0\0\x03d.d\0\x01\0\
    \x1f~!\"#$&'()*+,-./:;<=>?@[\\]^_`{|}\0\0\x02\0\x01k\0\x06key:\xff\xff\x01\0\0\0\x01k\0\x03k\
    /1\0\0\x01\0\x01k\xff\xff\xff\xff\xff\xff\xff\xff\0\0\0\x0c\0\0\0\x01\0\x03k/1\x01\0\x0b'Org\
    1.peer'\x02\x04Org2\x02\x02q0\0 \xe2\xf9\xaf\x82\x17\x16l$\x93\xf8\xa2\"\x9a\x1d`27T\x9cJ\
    \xfe\xb4\xf4\x9d\"\x97U\x07(\x95\xf6*\x04Org1\x02\x02p0\0 e\xeeB\x7f\xa7\xef\xf5d\xa9G\x9dN\
    \xc2%\x06\xb9NP`\xe0\x96\x9e\xb8X\xe5\x11S\xc5\xc1\x06\"7\0 -q8\x94\x9e\xb1\x0b\xc6\x96\xd1\
    \xa1o\xdc=g\xe1\xec\xd3\xeb\x1d+\xbd\x84\x1bkaI30\xbe\xaa\xc4\0\0\0v\x02chc91263094b60c4af19\
    fc4ae60d579686949d7d870f93702522d13eee43054bae\x04Org1\x02\x02p0\x01k\x02cc\0\0\0\0 \xd4\x08\
    \x12\xd6\x96\x9c\0\x0d\xcfe\xad\x08;\x18,\xecO\xc3J\x19\xd7\x03\xaaG\xefc\x8d\x91<u\xffG\0\0\
    \0\xa2\x02che906a056ee5efa04bbbfb04076c3ef7fb5a62e2b9dc4808e208d5f6cf0352bfe\x04Org1\x01\x02\
    c0\x01k\x02cc\0\0\x01\x04A_-9\x02\x03x:y\0 \xad7\x0eh\xb7\x98\x1cV\xe2\0\xa8\xe6\x15\x1e\xa3\
    \xc5\xe9D\x82\x1f\xca\x0d\x88\x01\x0f`T\x8cLC\x90T\0 6\xd81\xeb\xf7\x9c\xb9\x01q]\xacD\x0c\
    \x17\xc8\xf6\xbe;\xc9\x13L\xce\xe0\xd1\xcc\xa8,\xe4y\x9cX\xd6",
    },
    DraftCase {
        script: "tx Org1:peer:p0 % d.d\nns d.d\r\nendorse  Org2:peer:q0\r\n  #\n Write  k  v\npolicy  %00    \
    'Org1.peer'\r\nwrite ~!\"#$&'()*+,-./:;<=>?@[\\]^_`{|} ~!\"#$&'()*+,-./:;<=>?@[\\]^_`{|}\r\n\
    range  key:%ff%FF  k%2f1 part\nrange  k%2f1  %00 all \n endorse  Org1:client:c0\n endorse Or\
    g1:client:c0\r\n",
        after: Some(4),
        line: Some(5),
        block: b"",
    },
    DraftCase {
        script: "tx Org.3:orderer:% %00 E-_9\r\n\r\n endorse  Org.3:orderer:% \n   \r\n",
        after: None,
        line: None,
        block: b"FBK1\0\0\0\0\0\0\0\0\0\x9c\xc0\xfbC\xfa\xcf\x1a\x81\xc0\xdcQ\xf1\xcey\xee\xe4Q%H\xb5\xdc\xaa\
    \x15\xad=Qp\xd0\x14$:\xcb\0\0\0\x01\0\0\0\xa1\x02ch0a380a6daf743b209f8e6e90ab6575b40918c710d\
    e99943c44d49b37589d621e\x05Org.3\x03\0\x01\0\x04E-_9\0\0\x01\x05Org.3\x03\0\0 d\xf1\x8ah\x91\
    \x88\xb0\xd6\xc1\xe8ee2\xdc\xaa\xaf\xb0\x85\xe5\xc1\xd9\xb8O\xe6\x1f\xb5\x17edq\xda\xe5\0 \
    \xecM\x13\x12a\x09t\xb2\xb9\xc9\x9f\x1a\xef\xbe\xc5b\x83D\xa0K\xb0\xd6\x84\xb5\xc1Pq\x1fz\
    \x1e\xf7\xc3",
    },
    DraftCase {
        script: " tx  Org.3:orderer:%  ~!\"#$&'()*+,-./:;<=>?@[\\]^_`{|} E-_9\n ns  d.d\r\nendorse A_-9:peer:\
    x:y \n\r\ntx Org1:peer:p0 ~!\"#$&'()*+,-./:;<=>?@[\\]^_`{|} cc\n",
        after: Some(4),
        line: None,
        block: b"FBK1\0\0\0\0\0\0\0\x05 \xccxho\xfb,<mIOA\xd5\x18\xad\x13\x94k\xce\x96\\d\x9a\xeb\xb5\xea\xda\
    ;)S\x01\x8ct\xeb9+\x1dE\x99\xb96\xf9\xb8\\\xe5\xebiG`$\xe4\x87\xbd\x09^\x91\xdeP\xab\xa0\xbe\
    \x81\x05@\x1a\0\0\0\x02\0\0\0\xcd\x02chc4cc3c9a21ed4b348ce7f01cc9b4773e36221b2dbea3aba2508aa\
    7b194898b0d\x05Org.3\x03\0\x1f~!\"#$&'()*+,-./:;<=>?@[\\]^_`{|}\x04E-_9\0\x01\x03d.d\0\0\0\0\
    \0\0\0\0\x01\x04A_-9\x02\x03x:y\0 \xd7 +X4\xa3\0\xb4\xf7\x1b=\xeeRh*st\x8eP\x8e\x8b\xfbn\xcb\
    \x04-~\xd5=\x84\x80\xaa\0 \xe2\xf9\x1e>y\xf5]+\xc7F\xd4\x1e\x033\xf1/\x158\x98#\x1dT\xb1\xe6\
    #w\xc5\xdaz\x1a<l\0\0\0\x94\x02ch6f61891fb62f36454016d15c718ccba850a01e8fee4fd6258f7c07519ab\
    9f09a\x04Org1\x02\x02p0\x1f~!\"#$&'()*+,-./:;<=>?@[\\]^_`{|}\x02cc\0\0\0\0 \x0c'D\xc1\xad\
    \x84\xee\xbe/\xa5\xa1\xe0\x0e\x0e\xdaz6\x95\xdb[\xddf}%T\xbf\xae\xe8\xbe\xc2\xcb\xb4",
    },
    DraftCase {
        script: " raw \nwrite k \n",
        after: None,
        line: Some(2),
        block: b"",
    },
    DraftCase {
        script: " tx Org1:client:c0 %00 d.d\n endorse Org.3:orderer:% \n tx Org1:peer:p0 k%2f1 cc\nendorse  A\
    _-9:peer:x:y\r\n\r\r\n endorse  Org1:admin:a%20b\n",
        after: None,
        line: Some(5),
        block: b"",
    },
    DraftCase {
        script: " tx  Org1:peer:p0  % cc\n ns  E-_9 \n policy  k%2f1  AND('Org1.peer','Org2.peer')\nnopolicy \
    key:%ff%FF\n ns E-_9\nread  k%2f1  absent\nnopolicy  key:%ff%FF\nendorse  Org1:client:c0 \ne\
    ndorse  Org1:peer:p0 \ntx Org2:peer:q0 k E-_9 \ntx Org1:peer:p0 k d.d\r\nns  cc\r\n    #\nen\
    dorse  Org1:admin:a%20b\n endorse A_-9:peer:x:y\r\n delete ~!\"#$&'()*+,-./:;<=>?@[\\]^_`{|}\
    \n",
        after: Some(4),
        line: None,
        block: b"FBK1\0\0\0\0\0\0\0\x05 \xccxho\xfb,<mIOA\xd5\x18\xad\x13\x94k\xce\x96\\d\x9a\xeb\xb5\xea\xda\
    ;)S\x01\x8ct\0\xd7F\xd13QF3\x846Y\xc3\x1aX\x83Z\xed\xeb<a\x08\xef\xaf6\x88\x961VPS\xbf\xd0\0\
    \0\0\x03\0\0\x01!\x02ch07d3d3798e916e42a3f588f074f1be80e4dc2b934a43b8902ff8360ff3b39623\x04O\
    rg1\x02\x02p0\0\x02cc\0\x02\x04E-_9\0\0\0\0\0\0\0\x02\0\x03k/1\x01\0\x1cAND('Org1.peer','Org\
    2.peer')\0\x06key:\xff\xff\0\x04E-_9\0\x01\0\x03k/1\0\0\0\0\0\0\x01\0\x06key:\xff\xff\0\x02\
    \x04Org1\x01\x02c0\0 y\x08\x13\x85 \x08\xfc]\xea\xdf\x1e\xb5f\x05\xf0\x14Q\xd2\x9ep\xc7\x19\
    \x15\xd1d=\xfc\xa1\x9f\xea&\x93\x04Org1\x02\x02p0\0 \xad\xb3\xdf\x10\x0ad\x0b\x06\xa8\xf6\
    \xd8\xb4\xa1\x13\x8fB\x177\xaf:\xb4\x0f\x80\x1f@\xbav\xbevmh\xab\0 \xb1\x97\xa5\xf1\x1c\xcf\
    \xd1\xde\xcb\x0f\x8e{\x02\xfe\xdf\x12\xba/\xdcb]\xa6\xc16\xb2\xc4\xe2O\x0f}\xe4%\0\0\0x\x02c\
    hdbdea31e5d2b463d876a662df4c708fe59bb7b3415ecdc887444ab03b4f146e7\x04Org2\x02\x02q0\x01k\x04\
    E-_9\0\0\0\0 B\xe6\xf9\x92\xf0\x07\xb5\\\x8c\x0d\xa7\xe2df'\xb7|\xfc\xfc\x0d\x1b\x82\xf4D\
    \xb5\xf5\0\x18\x03\xd2?<\0\0\0\xfc\x02chc91263094b60c4af19fc4ae60d579686949d7d870f93702522d1\
    3eee43054bae\x04Org1\x02\x02p0\x01k\x03d.d\0\x01\x02cc\0\0\0\0\0\x01\0\x1f~!\"#$&'()*+,-./:;\
    <=>?@[\\]^_`{|}\0\0\0\x02\x04Org1\0\x03a b\0 \xa8\x82tV\xcb\xf0\xc0\xc8)(\xac\xca^\xe8f`\xff\
    \xeb:\xc6\xc5zIO\xe8\xaaDCl\xa2\xf41\x04A_-9\x02\x03x:y\0 n~\xaa\x1c\xa6}:N~\x8e\xd3tr\xbc\
    \x10\x83^\x1d.\xc0?_r\x1cZ\xf9\xd5\xb3\x99\x9d\x1f\x19\0 \x04\xb7\xb6\x80:*\x93\xcfr\xc3)\
    \xb7Z\xfd\xdch\xe5\x04\xe6\xbc\xee3\x81\x98\xd9\xdfp-\x1c[8\x08",
    },
    DraftCase {
        script: " write  %  v \nraw\r\n",
        after: Some(4),
        line: Some(1),
        block: b"",
    },
    DraftCase {
        script: "tx A_-9:peer:x:y ~!\"#$&'()*+,-./:;<=>?@[\\]^_`{|} cc\nns  E-_9\nread  ~!\"#$&'()*+,-./:;<=>\
    ?@[\\]^_`{|}  4294967295 4294967295\nns  d.d\ndelete key:%ff%FF \n \r\r\n",
        after: Some(4),
        line: Some(6),
        block: b"",
    },
    DraftCase {
        script: "tx A_-9:peer:x:y %00 E-_9\nns E-_9 \n policy k AND(\n \r\nendorse  A_-9:peer:x:y\nns  cc\r\n\
    nopolicy  key:%ff%FF\r\ntx Org1:admin:a%20b %00 d.d \n ns d.d \nendorse Org.3:orderer:%\n tx\
    \x20A_-9:peer:x:y key:%ff%FF d.d\n ns  E-_9\nread key:%ff%FF 0 4294967295 \n policy k   'Org\
    1.peer'\r\nns  E-_9 \n range key:%ff%FF k%2f1 part\nread  %00  4294967295 0 \n endorse  Org2\
    :peer:q0 \n endorse  Org2:peer:q0 \n",
        after: None,
        line: None,
        block: b"FBK1\0\0\0\0\0\0\0\0\0*\xb7N?\x1d\xbe\x95\x19\xa9\xb6\x7f\xc3\xfe\xad\"\xab\xbe\xdd\x84\xf9_\
    \xc7r\xc2'0[\xd0\xd7\x0f\xb3N\0\0\0\x03\0\0\0\xd0\x02ch77296c0c923bc0e2849954436463171ff70f7\
    0982a22dc0dbbe95ce68cf91cfc\x04A_-9\x02\x03x:y\x01\0\x04E-_9\0\x02\x04E-_9\0\0\0\0\0\0\0\x01\
    \0\x01k\x01\0\x04AND(\x02cc\0\0\0\0\0\0\0\x01\0\x06key:\xff\xff\0\x01\x04A_-9\x02\x03x:y\0 \
    \x8e\xdf\xa3p\xcd\x0e\xb8\xbc\xefT\x8d\x80#\xea\x179v\x80\x0a\xbb\x84y\xed\x10\xaaAV|\xec\
    \xaf\xdd\x9d\0 \x8e\x13Hhb\xbb\x1d\xba\xb9\xf9\x01{\xffI\xa6\xe9\xe9\x0c\xe9ImK\xe0)zj\x9d\
    \xc2\x83\xb6\xa9\xe7\0\0\0\xae\x02ch514c94a3c03f4e7d3b1a8d65095e32c4e111d91306f730e1e740de2c\
    92b101b5\x04Org1\0\x03a b\x01\0\x03d.d\0\x01\x03d.d\0\0\0\0\0\0\0\0\x01\x05Org.3\x03\0\0 \
    \x8f_\xe1|0C/\x97|\xd1\xb8\x84k\xa3,\0`U\x1e3^\x10L\xd8\x04;\x8f|6\xc2\xbb\x0b\0 \x88\x98k\
    \x8c\xc9f\x8f \xcbWnb}\x86'\xb4\x1el\x9aq\xfe:t{r\x13\xb0X\x81\xbbR\x83\0\0\x013\x02ch04814d\
    ade8a8f6dd9d7abab56787c0fbdd8eac588e3fd860c62ebcae8821943c\x04A_-9\x02\x03x:y\x06key:\xff\
    \xff\x03d.d\0\x02\x04E-_9\0\x01\0\x06key:\xff\xff\x01\0\0\0\0\0\0\0\0\xff\xff\xff\xff\0\0\0\
    \0\0\x01\0\x01k\x01\0\x0b'Org1.peer'\x04E-_9\0\x01\0\x01\0\x01\0\0\0\0\xff\xff\xff\xff\0\0\0\
    \0\0\x01\0\x06key:\xff\xff\0\x03k/1\0\0\0\0\0\0\0\x02\x04Org2\x02\x02q0\0 T\x19\xb1{\x1d\xf4\
    \x9e\x1a\xa0\x1e\x1dlg\x9bY\xa9\x80\x03\xe9\xb5\xddH\xf6\x1e\xdf\xeeA|f\x17\x071\x04Org2\x02\
    \x02q0\0 T\x19\xb1{\x1d\xf4\x9e\x1a\xa0\x1e\x1dlg\x9bY\xa9\x80\x03\xe9\xb5\xddH\xf6\x1e\xdf\
    \xeeA|f\x17\x071\0 e\xd2\x94m\xa6k\x09\xaa$\xbc\xf6s\xa1\x070eo>\x15%\x088O:\x7f\x9c@\xfdtd2\
    \x88",
    },
    DraftCase {
        script: "tx  Org1:peer:p0  %00 d.d\n ns cc \n   #\n endorse  Org1:client:c0\nraw 00 \n tx  Org1:clien\
    t:c0  key:%ff%FF cc\n nopolicy %4\n ns  E-_9\n read k absent \n ns  E-_9\r\nendorse  A_-9:pe\
    er:x:y\n",
        after: Some(4),
        line: Some(7),
        block: b"",
    },
    DraftCase {
        script: "   \n     \nraw  00\r\n",
        after: Some(4),
        line: None,
        block: b"FBK1\0\0\0\0\0\0\0\x05 \xccxho\xfb,<mIOA\xd5\x18\xad\x13\x94k\xce\x96\\d\x9a\xeb\xb5\xea\xda\
    ;)S\x01\x8ctn4\x0b\x9c\xff\xb3z\x98\x9c\xa5D\xe6\xbbx\x0a,x\x90\x1d?\xb378v\x85\x11\xa3\x06\
    \x17\xaf\xa0\x1d\0\0\0\x01\0\0\0\x01\0",
    },
    DraftCase {
        script: " tx Org1:peer:p0 % cc\r\nns  d.d\n nopolicy  k%2f1\r\nns cc\r\n policy  ~!\"#$&'()*+,-./:;<=\
    >?@[\\]^_`{|}  \u{e9}\n nopolicy key:%ff%FF \nnopolicy  %00\r\n\ndelete  k%2f1\r\nraw 00\n",
        after: None,
        line: None,
        block: b"FBK1\0\0\0\0\0\0\0\0\0\xd0y(}\x0e2\xa3Y\xe0\xe4\x0e\xbe\xcb\xdeT\x1b\xa2,$8$\xe1\xad\x0fr\
    \xac\xb6\x84\x9eP\x0d\xf6\0\0\0\x02\0\0\0\xcb\x02ch07d3d3798e916e42a3f588f074f1be80e4dc2b934\
    a43b8902ff8360ff3b39623\x04Org1\x02\x02p0\0\x02cc\0\x02\x03d.d\0\0\0\0\0\0\0\x01\0\x03k/1\0\
    \x02cc\0\0\0\0\0\x01\0\x03k/1\0\0\x03\0\x1f~!\"#$&'()*+,-./:;<=>?@[\\]^_`{|}\x01\0\x02\xc3\
    \xa9\0\x06key:\xff\xff\0\0\x01\0\0\0\0 \x83\xbd\xa5[-k2\x04\xec\xac5\xdd\x1b\x9cx\xfb\x1c\
    \xaa~\xa0\xf2\x0d>A\x05\0Mz\xf6\xe2\xbd\xca\0\0\0\x01\0",
    },
    DraftCase {
        script: "tx  Org1:client:c0  k%2f1 E-_9\r\nns cc\r\n nopolicy k%2f1\r\nendorse  Org1:peer:p0 \n delet\
    e k k \n",
        after: Some(4),
        line: Some(5),
        block: b"",
    },
    DraftCase {
        script: "raw  00\r\n",
        after: None,
        line: None,
        block: b"FBK1\0\0\0\0\0\0\0\0\0n4\x0b\x9c\xff\xb3z\x98\x9c\xa5D\xe6\xbbx\x0a,x\x90\x1d?\xb378v\x85\
    \x11\xa3\x06\x17\xaf\xa0\x1d\0\0\0\x01\0\0\0\x01\0",
    },
    DraftCase {
        script: "tx Org1:client:c0 k cc\nns d.d\nns d.d \nrange % % part\nendorse  Org2:peer:q0\n tx  Org2:pe\
    er:q0  ~!\"#$&'()*+,-./:;<=>?@[\\]^_`{|} d.d\n ns  E-_9 \nendorse  Org2:peer:q0\n endorse Or\
    g.3:orderer:% \ntx Org1:client:c0 k cc\nns  d.d \nnopolicy key:%ff%FF\r\n ns d.d\r\n range  \
    ~!\"#$&'()*+,-./:;<=>?@[\\]^_`{|}  %00 all\n result  k%2f1  0 0\nendorse  Org.3:orderer:%\r\
    \n result k 00000000000000000012 00000000000000000012 \nresult %00 00000000000000000012 7\r\
    \nendorse A_-9:peer:x:y\n",
        after: None,
        line: None,
        block: b"FBK1\0\0\0\0\0\0\0\0\0I~\xaaG\x8e2\xff*\x8f!\xeb\x94_k\x13l.\xcc\x1aZ\xa5\x88:\xadA?\xffv\
    \x12U\x1bR\0\0\0\x03\0\0\0\xc0\x02che906a056ee5efa04bbbfb04076c3ef7fb5a62e2b9dc4808e208d5f6c\
    f0352bfe\x04Org1\x01\x02c0\x01k\x02cc\0\x02\x03d.d\0\0\0\0\0\0\0\0\x03d.d\0\0\0\x01\0\0\0\0\
    \0\0\0\0\0\0\0\x01\x04Org2\x02\x02q0\0 \xd4\xa6\x99\xe9\xcd\x98,\x9a\xfb\xb0\x09uj\x8e\x9b\
    \xe0\xd5R\x0b\xf5}\x14\x02;iT\x13\x1d\x1a\xca\x06?\0  \xf2\xea\x1f(\xd7\xb0\x90\xa1q\xeeJ yt\
    $F\x94\xf6\xd0\xde(\xfe\xb1T\x07\xe1U\x08\x89\x0f\x8e\0\0\0\xf7\x02chbd08ca3b08ad5edd74fe030\
    322eff9b43a7667da15210658ab7170f8cfb4fff0\x04Org2\x02\x02q0\x1f~!\"#$&'()*+,-./:;<=>?@[\\]^_\
    `{|}\x03d.d\0\x01\x04E-_9\0\0\0\0\0\0\0\0\x02\x04Org2\x02\x02q0\0  }t\x14w\x13\xd8Y\xac\x8d\
    \x85[\xa2\xb7\xc6\x10\x94\xc0\x95\x1dO{:\xce\x96\x09\xf2\xdc\xb9Hch\x05Org.3\x03\0\0 \xd3&\
    \x99\xcb\xe6\x9e\x88#\x02\xf7\xf1\xfc\xe9C\x8b\xd4\xce\xf8\xa0N\x1d;\x8f\xc1\xbf\x9f\x8at#\
    \xcf\x13\\\0 \x0e,\x0d}\xc1\xe0\x94\xe9\x83\x15p`\x85@\xc3f\x9e\x1f|\xec\x03\xc2E\xd4\xa9\
    \xd5J\xd8\xf6W<\x84\0\0\x01C\x02che906a056ee5efa04bbbfb04076c3ef7fb5a62e2b9dc4808e208d5f6cf0\
    352bfe\x04Org1\x01\x02c0\x01k\x02cc\0\x02\x03d.d\0\0\0\0\0\0\0\x01\0\x06key:\xff\xff\0\x03d.\
    d\0\0\0\x01\0\x1f~!\"#$&'()*+,-./:;<=>?@[\\]^_`{|}\0\x01\0\x01\0\x03\0\x03k/1\0\0\0\0\0\0\0\
    \0\0\0\0\0\0\x01k\0\0\0\0\0\0\0\x0c\0\0\0\x0c\0\x01\0\0\0\0\0\0\0\0\x0c\0\0\0\x07\0\0\0\0\
    \x02\x05Org.3\x03\0\0 \xae\x14\xe4\x09\x18\x90\xc4\xe9\xe1j\xa0-\x01Y\xddfC\x12\x8faS\xff\
    \xe7.9\x079\xdf\x14er\xb2\x04A_-9\x02\x03x:y\0 \xac\xc5\0h\xc5@o:D\x87mr\xe5\x8e\xce\xca\x01\
    <\x1aR\x1c\x9b\x94\xb6\xc5\xc7\x9c\x059\xa1\xc2q\0 \x9c\x8d\x9b\xfd\xb6\x9a\x80\xaf\xf6\x8d\
    \x95\x12^\xfa\xd3|\xd2\xa7&\x98\xa9|\xff\x0c\x03'\x88\xcb\x074u\xca",
    },
    DraftCase {
        script: "tx  A_-9:peer:x:y  k d.d\nns  E-_9\n policy  k%2f1  AND( \nwrite ~!\"#$&'()*+,-./:;<=>?@[\\]\
    ^_`{|} %00\nns  cc\r\ndelete  key:%ff%FF \n endorse  Org.3:orderer:%\r\nread %00 18446744073\
    709551615 4294967295\nnopolicy k%2f1\n endorse  Org.3:orderer:% \nendorse Org1:client:c0 \n \
    result  k  0 0 0\n tx Org1:client:c0 k E-_9\nendorse Org1:client:c0\nendorse Org2:peer:q0\n",
        after: None,
        line: Some(12),
        block: b"",
    },
    DraftCase {
        script: "tx Org1:admin:a%20b key:%ff%FF cc \nns  cc \nread ~!\"#$&'()*+,-./:;<=>?@[\\]^_`{|} 42949672\
    95 0\n endorse  Org.3:orderer:%\r\n ns  cc\n\ndelete  %00\r\ndelete k\r\n write  ~!\"#$&'()*\
    +,-./:;<=>?@[\\]^_`{|}  key:%ff%FF\r\n \r \nendorse A_-9:peer:x:y \nwrite k k\n endorse Org1\
    :admin:a%20b \nendorse  Org1:client:c0\n raw 00\r\n",
        after: Some(4),
        line: Some(10),
        block: b"",
    },
    DraftCase {
        script: "tx  Org2:peer:q0  % cc\r\n endorse Org1:peer:p0 \ntx  Org2:peer:q0  %00 E-_9 \nendorse Org2:\
    peer:q0\ntx Org.3:orderer:% k d.d\n#  read \nns cc\n \r\r\n delete  key:%ff%FF\nendorse Org1\
    :client:c0\r\n",
        after: Some(4),
        line: Some(8),
        block: b"",
    },
    DraftCase {
        script: " tx  Org.3:orderer:%  k d.d\nns  cc \n # read\r\nwrite  k  key:%ff%FF\r\n read  k  0 4294967\
    296\n",
        after: None,
        line: Some(5),
        block: b"",
    },
];
