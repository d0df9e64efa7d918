//! Sessions by hand.

use crate::session::Row;

pub(crate) fn all() -> &'static [Row] {
    &ALL
}

static ALL: [Row; 24] = [
    ("session", b"", 0, "end 0\n", ""),
    (
        "session b b",
        b"height\n",
        0,
        "accepted 0 9cae6f5c10756febc407bba95fc23853774c1f65f10354895bfdab6443d66ed3\n\
        refused 2 C2 want 1 got 0\nend 1\nheight 1\nend 0\n",
        "",
    ),
    // a refused block is an answer, and later lines go on
    (
        "session",
        b"run my%20block%25.blk\nrun --hashes b b\nrun c\nheight\n",
        0,
        "end 0\n\
        accepted 0 9cae6f5c10756febc407bba95fc23853774c1f65f10354895bfdab6443d66ed3\nend 0\n\
        refused 1 C2 want 1 got 0\nrefused 2 C2 want 1 got 0\nend 1\n\
        refused 1 C1 B1\nend 1\n\
        height 1\nend 0\n",
        "",
    ),
    // lines that say nothing, spaces, and a last line without its line feed
    (
        "session",
        b"\n   \n# height\n  #height\n\r\n  height  \r\nheight",
        0,
        "end 0\nheight 0\nend 0\nheight 0\nend 0\n",
        "",
    ),
    (
        "session",
        b"height\nquit\nheight\n",
        0,
        "end 0\nheight 0\nend 0\nend 0\n",
        "",
    ),
    // queries of an empty ledger
    (
        "session",
        b"get --ns cc --key k\nscan --ns cc\nhistory --ns cc --key=k\ndefinition --ns=cc\nconflicts\n",
        0,
        "end 0\n\
        height 0\nabsent\nend 0\n\
        height 0\nend 0\n\
        height 0\nend 0\n\
        height 0\ndefinition OR('Org1.peer','Org2.peer')\nend 0\n\
        end 0\n",
        "",
    ),
    // what is explained isn't committed
    (
        "session",
        b"explain b\nexplain b\nrun b\nexplain b\nexplain k\n",
        0,
        "end 0\n\
        block 0 9cae6f5c10756febc407bba95fc23853774c1f65f10354895bfdab6443d66ed3\nend 0\n\
        block 0 9cae6f5c10756febc407bba95fc23853774c1f65f10354895bfdab6443d66ed3\nend 0\n\
        accepted 0 9cae6f5c10756febc407bba95fc23853774c1f65f10354895bfdab6443d66ed3\nend 0\n\
        refused 1 C2 want 1 got 0\n\
        known 0 same 9cae6f5c10756febc407bba95fc23853774c1f65f10354895bfdab6443d66ed3 \
        is 9cae6f5c10756febc407bba95fc23853774c1f65f10354895bfdab6443d66ed3\nend 1\n\
        refused 1 C1 B1\nend 1\n",
        "",
    ),
    // words that ask for nothing
    (
        "session",
        b"get --ns cc\n",
        0,
        "end 0\nfault the following required arguments were not provided: --key <WORD>\nend 2\n",
        "",
    ),
    (
        "session",
        b"frobnicate\nquit now\nheight 1\n",
        0,
        "end 0\nfault unrecognized subcommand 'frobnicate'\nend 2\n\
        fault unexpected argument 'now' found\nend 2\n\
        fault unexpected argument '1' found\nend 2\n",
        "",
    ),
    (
        "session",
        b"scan --ns cc --limit 0\nscan --ns cc --limit +1\nconflicts --from x\n",
        0,
        "end 0\nfault invalid value '0' for '--limit <N>': 0 is not in 1..=65535\nend 2\n\
        fault a number is written with digits alone\nend 2\n\
        fault invalid value 'x' for '--from <N>': invalid digit found in string\nend 2\n",
        "",
    ),
    (
        "session",
        b"explain --tx 0 --id a b\nexplain --all b\nexplain --dot --ids b\nrun\n",
        0,
        "end 0\nfault --tx and --id don't go together\nend 2\n\
        fault --dot goes with --all, and with none of --tx, --id, --ids and --json\nend 2\n\
        fault --dot goes with --all, and with none of --tx, --id, --ids and --json\nend 2\n\
        fault the following required arguments were not provided: <BLOCK>...\nend 2\n",
        "",
    ),
    // no options of the session, and no names of its own
    (
        "session",
        b"get --ns cc --key k --json\nrun --quiet b\nrun --workers 2 b\ndraft\n--version\n",
        0,
        "end 0\nfault unexpected argument '--json' found\nend 2\n\
        fault unexpected argument '--quiet' found\nend 2\n\
        fault unexpected argument '--workers' found\nend 2\n\
        fault unrecognized subcommand 'draft'\nend 2\n\
        fault unexpected argument '--version' found\nend 2\n",
        "",
    ),
    // words of keys, bounds and ids
    (
        "session",
        b"get --ns c/c --key k\nhistory --ns cc --key %2\nscan --ns cc --start %\xc3\xa4\nexplain --id % b\n",
        0,
        "end 0\nfault bad word\nend 2\nfault bad word\nend 2\nfault bad word\nend 2\nfault bad word\nend 2\n",
        "",
    ),
    (
        "session",
        b"get --ns cc --key a\0b\n",
        0,
        "end 0\nfault bad word\nend 2\n",
        "",
    ),
    (
        "session",
        b"\0\n",
        0,
        "end 0\nfault unrecognized subcommand '\0'\nend 2\n",
        "",
    ),
    (
        "session",
        b"get \xff\nheight\n",
        0,
        "end 0\nfault line not UTF-8\nend 2\nheight 0\nend 0\n",
        "",
    ),
    // files
    (
        "session",
        b"run b nothing\nexplain no%20thing\nrun my%2.blk\nrun %ff\nheight\n",
        0,
        "end 0\nfault cannot read nothing\nend 3\nfault cannot read no%20thing\nend 3\n\
        fault cannot read my%2.blk\nend 3\nfault cannot read %ff\nend 3\nheight 0\nend 0\n",
        "",
    ),
    (
        "session",
        b"explain --tx 7 b\n",
        0,
        "end 0\nfault no transaction 7\nend 2\n",
        "",
    ),
    // objects
    (
        "session --json b",
        b"height\nget --ns cc --key k\nget --ns cc --key \nrun nothing\nexplain --dot b\n",
        0,
        "{\"kind\":\"accepted\",\"number\":0,\
        \"hash\":\"9cae6f5c10756febc407bba95fc23853774c1f65f10354895bfdab6443d66ed3\",\"flags\":[]}\n\
        {\"kind\":\"end\",\"status\":0}\n\
        {\"kind\":\"height\",\"height\":1}\n{\"kind\":\"end\",\"status\":0}\n\
        {\"kind\":\"height\",\"height\":1}\n{\"kind\":\"absent\"}\n{\"kind\":\"end\",\"status\":0}\n\
        {\"kind\":\"fault\",\"text\":\"a value is required for '--key <WORD>' but none was supplied\"}\n\
        {\"kind\":\"end\",\"status\":2}\n\
        {\"kind\":\"fault\",\"text\":\"cannot read nothing\"}\n{\"kind\":\"end\",\"status\":3}\n\
        {\"kind\":\"fault\",\"text\":\"--dot goes with --all, and with none of --tx, --id, --ids and --json\"}\n\
        {\"kind\":\"end\",\"status\":2}\n",
        "",
    ),
    (
        "session --json",
        b"\"\n",
        0,
        "{\"kind\":\"end\",\"status\":0}\n\
        {\"kind\":\"fault\",\"text\":\"unrecognized subcommand '\\\"'\"}\n{\"kind\":\"end\",\"status\":2}\n",
        "",
    ),
    // the call's own faults come before any answer
    (
        "session nothing",
        b"height\n",
        3,
        "",
        "cannot read nothing\n",
    ),
    (
        "session --channel k --keys k",
        b"height\n",
        3,
        "",
        "k line 1\n",
    ),
    (
        "session --channel c --keys c",
        b"height\n",
        3,
        "",
        "c line 1\n",
    ),
    (
        "session --channel c --keys nothing",
        b"height\n",
        3,
        "",
        "cannot read nothing\n",
    ),
];
