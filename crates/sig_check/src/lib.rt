//! Whether a record is that of a settled run of a script, whoever wrote it.
#![tactic(auto)]

mod checking;
mod following;
mod opening;
mod replaying;
mod resting;
mod retracing;
mod verdict;

pub use checking::check;
pub use opening::{close, open};
pub use replaying::{Replaying, a_record_has_one_replay, replay};
pub use resting::a_crew_rests_where_none_can_go;
pub use retracing::a_retraced_crew_has_the_record;
pub use verdict::{Verdict, a_record_has_one_verdict};
