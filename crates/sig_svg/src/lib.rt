//! The shapes of a chart of processes, and their text: an SVG.
#![tactic(auto)]

mod drawing;
mod escaping;
mod laws;
mod markup;
mod places;
mod putting;
mod shape;
mod sort;

pub use drawing::draw;
pub use laws::{a_chart_is_pieces, escaped_bytes_are_no_markup};
pub use markup::Markup;
pub use shape::{Arrow, Bytes, Chart, Lane, Mark, Stub};
pub use sort::Sort;
