// The lines of a fund file: the header's figures, what a line behind the header says, and the line that goes with a verdict.

#![tactic(auto)]

mod header;
mod line;
mod part;
mod row;

pub use header::read_header;
pub use part::part_of;
pub use row::{Row, row_at};
