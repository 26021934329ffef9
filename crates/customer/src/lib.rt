// The customer: every exported call of the library, called with nothing asked of the caller, and what the customer is promised of it. A call
// whose own contract no longer gives a promise fails here.
#![tactic(auto)]

mod importing;
mod planning;
mod probing;
mod storing;

pub use importing::import_model;
pub use planning::plan_sheet;
pub use probing::{chosen_cut, has_cut, read_tables};
pub use storing::store_sheet;
