//! Records of runs, and their text.
#![tactic(auto)]

mod ending_text;
mod gathering;
mod items;
mod kinds;
mod lines;
mod merging;
mod ordering;
mod outcomes;
mod parts;
mod phrases;
mod pieces;
mod printing;
mod reading;
mod record;
mod refusal;
mod report;
mod rereading;
mod runs;
mod settling;
mod summary;
mod text_parts;
mod words;

pub use ending_text::print_ends;
pub use merging::{Merged, MergedAt, event_at};
pub use ordering::merged_record_is_the_order;
pub use phrases::{print_event_words, print_kind};
pub use printing::{print_header, print_record, print_reports};
pub use reading::{read_record, texts_tell_records_apart};
pub use record::Record;
pub use refusal::RecordError;
pub use report::{Left, Lefts, Queued, Report};
pub use rereading::reread;
pub use runs::{a_lawful_crew_tells_a_readable_record, a_lawful_crew_tells_a_run};
pub use summary::{Summary, summarize};
pub use text_parts::a_records_text_is_that_of_its_parts;
