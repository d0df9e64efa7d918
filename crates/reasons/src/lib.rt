//! Reasons: why each transaction of a block has its flag.
#![tactic(auto)]

mod endorsement_fault;
mod form_fault;
mod id_use;
mod key_list;
mod laws;
mod phantom_key;
mod policy_owner;
mod policy_text_fault;
mod queried_range;
mod range_result;
mod reason;
mod shortfall;
mod stale_read;
mod update_fault;

pub use endorsement_fault::EndorsementFault;
pub use form_fault::FormFault;
pub use id_use::IdUse;
pub use key_list::KeyList;
pub use laws::{
    another_order_asks_any_role_last, each_place_has_one_reason, missing_principals_are_the_first,
    named_places_come_before, named_policies_are_not_satisfied, named_writers_left_what_is_there,
    reasons_have_the_flags, refused_endorsers_have_not_signed, touched_keys_have_a_toucher,
    unsatisfied_policies_miss_a_principal,
};
pub use phantom_key::PhantomKey;
pub use policy_owner::PolicyOwner;
pub use policy_text_fault::PolicyTextFault;
pub use queried_range::QueriedRange;
pub use range_result::RangeResult;
pub use reason::Reason;
pub use shortfall::Shortfall;
pub use stale_read::StaleRead;
pub use update_fault::UpdateFault;
