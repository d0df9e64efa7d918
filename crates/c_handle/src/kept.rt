use crate::shared_ledger::SharedLedger;
use key_book::KeyBook;
use values::Shared;

/// What a handle holds: a ledger and the keys by which it may check signatures itself. Other handles may share both.
#[derive(Drop)]
pub struct Kept {
    pub ledger: SharedLedger,
    pub keys: Shared<KeyBook>,
}
