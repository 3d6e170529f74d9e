// The four plans: the run of each, and its list written into lent room.
#![tactic(auto)]

mod answer;
mod loads;
mod run;
mod write;

pub use answer::plan;
