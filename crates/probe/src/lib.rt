// The proved parts below the planner, each as a call: reading a sheet, and questions about the cuts of a node.
#![tactic(auto)]

mod cuts;
mod reading;

pub use cuts::{maps_cut, maps_has_cut};
pub use reading::maps_read;
