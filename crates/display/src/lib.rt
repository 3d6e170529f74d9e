// The display: its state by value and its slots lent, the steps of a tick, a stretch of waits, the search for the slot of a
// symbol, and the answer at the end of a run.
#![tactic(auto)]

mod answer;
mod search;
mod state;
mod still;
mod tick;

pub use answer::{accepted, refusal, refused};
pub use search::slot_of;
pub use state::{Display, begin, land, start};
pub use still::{before_end, pass_waits, smaller};
pub use tick::{Ticked, draw_or_wait, load_refusal, rest_of_tick};
