//! What a reason is about: the kinds of reasons, as numbers.

/// Nothing is wrong with it.
pub const NO_FAULT: u8 = 0;

/// Its bytes are neither a transaction nor an update.
pub const NO_TRANSACTION: u8 = 1;

/// The verifier refuses its creator's signature.
pub const BAD_SIGNATURE: u8 = 2;

/// It is for another channel.
pub const OTHER_CHANNEL: u8 = 3;

/// Its nonce and creator give another id.
pub const OTHER_ID: u8 = 4;

/// Its id was used before.
pub const USED_ID: u8 = 5;

/// An update whose block has more places than its own.
pub const NOT_ALONE: u8 = 6;

/// An update where the channel has no admin policy.
pub const NO_ADMIN_POLICY: u8 = 7;

/// An update of a chaincode without a definition.
pub const UPDATE_UNDEFINED: u8 = 8;

/// An update whose text is no policy.
pub const UPDATE_UNREADABLE: u8 = 9;

/// An update whose signers don't satisfy the admin policy.
pub const ADMIN_UNSATISFIED: u8 = 10;

/// A chaincode that it names or writes in has no definition.
pub const UNDEFINED: u8 = 11;

/// A namespace stands twice.
pub const NAMESPACE_REPEATS: u8 = 12;

/// A key stands twice in a namespace's reads.
pub const READ_REPEATS: u8 = 13;

/// A key stands twice in a namespace's writes.
pub const WRITE_REPEATS: u8 = 14;

/// A key stands twice in a namespace's policy writes.
pub const POLICY_WRITE_REPEATS: u8 = 15;

/// A result of a range isn't above the one before it.
pub const RESULT_FALLS: u8 = 16;

/// A result lies outside its range.
pub const RESULT_LEAVES: u8 = 17;

/// A policy that is written for a key can't be read.
pub const POLICY_UNREADABLE: u8 = 18;

/// The key's policy was written by an earlier transaction of the block.
pub const TOUCHED: u8 = 19;

/// The signers don't satisfy the key's own policy.
pub const KEY_UNSATISFIED: u8 = 20;

/// The signers don't satisfy the policy of the chaincode that a key is of.
pub const CHAINCODE_UNSATISFIED: u8 = 21;

/// The signers don't satisfy the policy of the chaincode that is named, in which nothing is written.
pub const NAMED_UNSATISFIED: u8 = 22;

/// A read doesn't hold.
pub const READ_CONFLICT: u8 = 23;

/// A range doesn't hold.
pub const PHANTOM_CONFLICT: u8 = 24;
