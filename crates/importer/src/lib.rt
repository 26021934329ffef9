// The import of a BLIF text: its model, written as a sheet.
#![tactic(auto)]

mod call;
mod caller;

pub use call::import_blif;
