//! A script, its block 0 and that block's header hash, made by vectors/told.py.

pub const SCRIPT: &str = "tx Org1:client:c0 n cc\nns cc\nwrite k v\nendorse Org1:peer:p0\n";

pub fn block() -> &'static [u8] {
    BLOCK
}

static BLOCK: &[u8] =
    b"FBK1\0\0\0\0\0\0\0\0\0_C\\\x17n3\xcd\xb4{rQ|\xeb\xa8\x8e\x14\x06\x18\\\x11\xdc\x9b[V\x82\xa7\
    \x01\x19(,\xb4\x1c\0\0\0\x01\0\0\0\xb5\x02ch1a4732c88eb14cbdb21732b87c91334c3d3a2f3b67872e50\
    31cf4db4b996372f\x04Org1\x01\x02c0\x01n\x02cc\0\x01\x02cc\0\0\0\0\0\x01\0\x01k\x01\0\0\0\x01\
    v\0\0\x01\x04Org1\x02\x02p0\0 \xe5\x99{Oz\xe1H\xca\xf2\xef\x89\x83\xa13\x95H1\x0f\xdf\x13J\
    \x93\xae\xf2\x94b\xeaU\x0c\xcfa.\0 \xdfR\xdeU\xa5\xd9\x10xF\x9efq\xdbz\xa0\x90z\xbd\xa8\x84\
    \xacn\x130\x01i\xe1\x0eHq\x0c\xed";

pub fn header_hash() -> &'static [u8; 32] {
    HEADER_HASH
}

static HEADER_HASH: &[u8; 32] =
    b"\x13\xa6\x7fq*\xed'\xb3^qp\x04\xd5AU\x7f\x02\xb0\xd2\x89\x16\xa9`\xa5H\x859#\x97\xa9\xe6/";
