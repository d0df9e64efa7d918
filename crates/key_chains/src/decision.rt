/// What a check says of a candidate, as far as the earlier verdicts are known.
#[derive(Clone, Copy, Debug, PartialEq, Eq)]
pub enum Decision<T> {
    /// This is the verdict, whatever the unknown ones will be.
    Sure(T),
    /// It waits for the verdict of this earlier candidate.
    Blocked(u32),
}
