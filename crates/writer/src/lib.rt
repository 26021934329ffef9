// The sheet writer: the sheet of a circuit that is kept as records.
#![tactic(auto)]

mod parts;
mod sheet;

pub use sheet::write;
