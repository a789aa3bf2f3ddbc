//! The link law: two processes that have come to rest agree on the link between them. And the report
//! of the links at the end of a run, which shows it.
#![tactic(auto)]

mod law;
mod pair;
mod reporting;

pub use law::{processes_agree_on_their_link, waiting_processes_agree_on_their_link};
pub use pair::{Pair, Pairs};
pub use reporting::report;
