//! Two threads over one shared queue: what was fetched, and then what is left, is what was sent.
#![tactic(auto)]

mod messages;
mod offering;
mod relaying;

pub use messages::message;
pub use offering::{offer_message, put_message};
pub use relaying::{Line, Relayed, receive, relay};
