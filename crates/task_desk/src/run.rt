use crate::task::Task;

/// Tasks from one to before another.
#[derive(Clone, Copy, Debug, PartialEq, Eq)]
pub struct Run {
    pub from: Task,
    pub end: Task,
}
