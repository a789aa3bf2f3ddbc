//! Laws of the choices that processes make one after another: each is a step of the plain machine,
//! and which the machine refuses. There is no code that runs.
#![tactic(auto)]

mod laws;

pub use laws::{a_choice_is_a_step, order_between_senders_is_free};
