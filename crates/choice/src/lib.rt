// What each plan asks for in a tick: the row of draws, the searches along it, the ranks of the slots, and the choice.
#![tactic(auto)]

mod ask;
mod ranks;
mod row;
mod search;

pub use ask::{Order, asked_by, asked_of};
pub use row::row_of;
