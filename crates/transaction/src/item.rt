use crate::transaction::Tx;
use crate::update::Update;

/// What stands in one place of a block.
#[derive(Drop)]
pub enum Item<'a> {
    Tx(Tx<'a>),
    Update(Update<'a>),
}
