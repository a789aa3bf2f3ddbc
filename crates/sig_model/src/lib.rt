//! The plain machine: the state of a process, executing one instruction, handling one signal, and
//! the run of one worker. Its definitions stand in specs/; here are the types of events.
#![tactic(auto)]

mod crew_law;
mod event;
mod marker_law;
mod numbers;
mod origin;
mod receives;
mod settled;
mod stamps;
mod state;
mod target;
mod term_sizes;

pub use crew_law::{
    lawful_crew_comes_to_rest, lawful_crew_goes_by_steps, lawful_crew_is_lawful,
    lawful_crew_stays_lawful, outboxes_continue_the_numbers, still_crew_is_a_settled_run,
};
pub use event::{Did, Event, Events, Outcome};
pub use marker_law::{a_run_from_marks_is_a_run, only_processes_of_the_script_are_named};
pub use numbers::signals_are_numbered;
pub use origin::{Origin, Origins};
pub use receives::{a_mark_skips_no_match, only_a_receive_waits};
pub use settled::one_worker_run_is_settled;
pub use stamps::stamps_are_kept;
pub use state::{LAST_STAMP, State};
pub use target::Target;
pub use term_sizes::terms_stay_small;
