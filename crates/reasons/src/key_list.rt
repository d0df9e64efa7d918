/// A list of a namespace in which no key may stand twice.
#[derive(Clone, Copy, Debug, PartialEq, Eq)]
pub enum KeyList {
    Reads,
    Writes,
    PolicyWrites,
}
