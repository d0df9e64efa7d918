/// A check of a transaction of a block: 2i is the endorsement check of transaction i, and 2i + 1 its read check.
pub type Task = u32;
