// The model of a text: its definitions, kept line by line up to the first faulty one.
#![tactic(auto)]

mod line;
mod reading;

pub use reading::read_model;
