//! A record drawn as a chart: a lane for each process, a mark for each event, an arrow for each signal.
#![tactic(auto)]

mod charting;
mod error;
mod finding;
mod laws;
mod laying;
mod sorting;
mod sources;
mod window;
mod words;

pub use charting::chart;
pub use error::ChartError;
pub use laws::{
    an_arrow_leads_from_sending_to_handling, marks_stand_apart, queued_signals_are_drawn,
    the_limits_of_charts,
};
pub use window::{MOST_EVENTS, Window};
