// The cuts of a logic node: whether it has a fitting one, and the least level of its step that one carries.
#![tactic(auto)]

mod cuts;
mod level;

pub use cuts::{Cuts, lowest_cutless};
pub use level::{codes, table_label};
