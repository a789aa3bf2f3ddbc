//! The top call: from the arguments and the bytes of a script to the bytes of the record of its run.
#![tactic(auto)]

mod alone;
mod command_line;
mod ending;
mod gathering;
mod host;
mod option_values;
mod printing;
mod reading_back;
mod scripts;
mod settings;
mod standard;
mod status;
mod summing;
mod telling;
mod texts;
mod words_error;
mod writing;

pub use alone::run_alone;
pub use command_line::words;
pub use host::run;
pub use reading_back::what_run_wrote_is_read_back;
pub use settings::{MOST_CHURN, MOST_QUOTA, MOST_WORKERS, Settings, the_limits_of_settings};
pub use standard::program;
pub use status::Status;
pub use words_error::WordsError;
