// Jobs, alone and in rounds, and load lists as bytes: readers that answer enums, the walk along a list, its rule of ticks, and the writer of a list.
// Every function answers for every input; what it answers is a definition of the crate `rules`.
#![tactic(auto)]

mod job;
mod list;
mod load_list;
mod number;
mod rounds;
mod row;
mod ticks;
mod walk;

pub use job::{call_number, read_call, starting_slots, starting_symbol};
pub use list::{list_size, put_event, put_head, read_event, read_list};
pub use load_list::LoadList;
pub use number::put_number32;
pub use rounds::draw_symbol;
pub use ticks::first_bad_tick;
pub use walk::event_of;
