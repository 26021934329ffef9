// The lower bounds on a node's label: its own label, its operands and the differences into it.
#![tactic(auto)]

mod arrive;
mod asked;

pub use arrive::{Labels, Late, level_in, open_label};
pub use asked::{Search, link};
