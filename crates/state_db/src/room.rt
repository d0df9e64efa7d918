/// How many changes rows are to have room for, and how many pages more. No clause speaks of it.
#[derive(Clone, Copy, Debug)]
pub struct Room {
    pub(crate) changes: usize,
    pub(crate) pages: usize,
}
