/// How many entries and uses a world is to have room for, and for what of its rows. No clause speaks of it.
#[derive(Clone, Copy, Debug)]
pub struct Room {
    pub(crate) entries: usize,
    pub(crate) uses: usize,
    pub(crate) rows: state_db::Room,
}
