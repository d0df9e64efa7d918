/// Which part of which piece: of the piece at a place one part, by its number from 0, of so many.
#[derive(Clone, Copy, PartialEq, Eq)]
pub(crate) struct Part {
    pub(crate) place: usize,
    pub(crate) number: usize,
    pub(crate) count: usize,
}
