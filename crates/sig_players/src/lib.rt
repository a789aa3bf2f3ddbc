//! Processes that make given choices: whether each is possible, and what the processes make of it.
#![tactic(auto)]

mod arriving;
mod executing;
mod player;
mod playing;
mod telling;
mod waiting;

pub use arriving::arrive;
pub use executing::execute;
pub use player::Player;
pub use playing::choose;
pub use telling::choose_telling;
pub use waiting::none_of;
