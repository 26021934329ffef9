// Reads sheets into their header and two tables.
#![tactic(auto)]

mod fill;
mod node;
mod reader;

pub use reader::read_sheet;
