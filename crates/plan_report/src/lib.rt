// What the programs over the plans share: the plans' names, and the summary of a job by all four.
// What speaks of no plan, and the words of refusals, belong into report.
#![tactic(auto)]

mod names;
mod summary;

pub use names::{name_of, number_of, plan_argument};
pub use summary::print_summary;
