use crate::key_list::KeyList;
use crate::policy_text_fault::PolicyTextFault;
use crate::range_result::RangeResult;
use values::{Key, Name};

/// Why read and write sets aren't in form.
#[derive(Debug, Drop)]
pub enum FormFault {
    /// The namespace stands twice.
    NamespaceRepeats {
        namespace: Name,
    },
    /// The key stands twice in a list of the namespace.
    KeyRepeats {
        namespace: Name,
        list: KeyList,
        key: Key,
    },
    /// The key of a result isn't above that of the result before it.
    ResultFalls(RangeResult),
    /// The key of a result lies outside its range.
    ResultLeaves(RangeResult),
    /// The policy that is written for the key can't be read.
    UnreadablePolicy {
        namespace: Name,
        key: Key,
        fault: PolicyTextFault,
    },
}
