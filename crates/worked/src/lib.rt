// The worked examples, as one result about the rules.
#![tactic(auto)]

mod laws;

pub use laws::every_worked_example_holds;
