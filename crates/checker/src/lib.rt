// The check of any load list against any job: the run along the list, and the answer with its draws; and why a draw of it waited.
#![tactic(auto)]

mod account;
mod answer;
mod checked;
mod copy;
mod follow;
mod job;
mod reason;
mod rest;
mod run;

pub use answer::{check, check_draws};
pub use checked::Checked;
pub use reason::why;
