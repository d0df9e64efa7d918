/// In which form lines are written.
#[derive(Clone, Copy, Debug, PartialEq, Eq)]
pub enum Format {
    /// For people: words.
    Plain,
    /// For programs: a JSON object.
    Json,
}
