// The library: the planning call, the call that writes a sheet and the one that imports a BLIF text.
#![tactic(auto)]

mod call;
mod import;
mod store;

pub use call::{maps_plan, plan};
pub use import::maps_import;
pub use store::maps_write_rows;
