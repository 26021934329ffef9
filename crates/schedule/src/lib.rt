// The least legal labels of a sheet within a horizon, or that no labelling is legal within it: from the first labels on, or from given ones under lower
// bounds.
#![tactic(auto)]

mod labels;

pub use labels::{FIRST_TEST, NO_TEST, least_labels, resume, seek};
