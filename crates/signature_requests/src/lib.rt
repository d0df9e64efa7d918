//! Which signatures a step may ask the verifier about, by the block's bytes alone. So they can be checked before any world is there,
//! in batches, beside each other or elsewhere, and the step be made by the answers.
#![tactic(auto)]

mod endorsers;
mod laws;
mod listing;
mod message;
mod request;

pub use laws::{
    answers_to_the_list_suffice, bytes_have_one_list_of_requests,
    verifiers_that_agree_give_one_reason, verifiers_that_agree_make_one_step,
};
pub use listing::{requests, requests_of_txs};
pub use message::Message;
pub use request::Request;
