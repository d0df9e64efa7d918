//! The calls of the ledger for C, which the static library `fabcommit_c` exports: a caller of Rattle has no use for them.
#![tactic(auto)]

mod asking;
mod buffers;
mod codes;
mod definition;
mod explaining;
mod first_use;
mod history;
mod key_policy;
mod list;
mod opening;
mod pooling;
mod receipt;
mod scan;
mod sharing;
mod submitting;
mod versions;

pub use asking::{FoundRow, fabcommit_block, fabcommit_flags, fabcommit_get, fabcommit_height};
pub use codes::{
    CLOSED, MALFORMED, MEMORY, NO_CHANNEL, NO_KEYS, NO_NAME, NO_TEXT, NONE, OK, OLD_VERSION,
    SHARED, SMALL, WRONG_DATA_HASH, WRONG_NUMBER, WRONG_PREVIOUS,
};
pub use definition::fabcommit_definition;
pub use explaining::{ReasonSizes, fabcommit_explain, fabcommit_explain_by};
pub use first_use::{FoundUse, fabcommit_first_use};
pub use history::{HistorySizes, PastWrite, fabcommit_history};
pub use key_policy::fabcommit_key_policy;
pub use list::{Sizes, fabcommit_list};
pub use opening::{fabcommit_close, fabcommit_open};
pub use receipt::Receipt;
pub use scan::{ScanSizes, ScannedRow, fabcommit_scan};
pub use sharing::fabcommit_share;
pub use submitting::{fabcommit_submit, fabcommit_submit_by};
pub use versions::{INTERFACE, Versions, fabcommit_versions};
