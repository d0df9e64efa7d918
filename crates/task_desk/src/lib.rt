//! The tasks of one block and where each of them is: ready, out, parked on another one, or done.
#![tactic(auto)]

mod bit_set;
mod desk;
mod laws;
mod run;
mod status;
mod status_list;
mod statuses;
mod task;
mod task_set;
mod unhanded;
mod wait_lists;

pub use desk::Desk;
pub use laws::{a_run_is_its_tasks, calls_keep_a_desk, no_call_strands_a_task, some_task_is_ready};
pub use run::Run;
pub use status::Status;
pub use task::Task;
