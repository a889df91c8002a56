// That causes and refusals have numbers, and how these are written.
#![tactic(auto)]

mod number;

pub use number::Numbered;
