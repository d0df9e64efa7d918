//! Channel texts: the channel's name, the policies of its chaincodes, and whose signatures an update of one of them
//! needs.
#![tactic(auto)]

mod channel;
mod channel_text;
mod configuration;
mod fault;
mod laws;

pub use channel::Channel;
pub use configuration::Configuration;
pub use fault::ChannelFault;
pub use laws::limits_are_the_definitions;
