// What the programs share: refusals as they are said, the line for what could not be done, reading the file that an argument names,
// and the number of rounds that one names.
// No program says or reads any of this in words of its own. What calls the library belongs into plan_report or into a program.
#![tactic(auto)]

mod file;
mod line;
mod rounds;
mod words;

pub use file::{
    JOB_ROOM, LIST_ROOM, LONGEST_LIST, has_argument, read_argument, read_full, read_sheet,
};
pub use line::say_failure;
pub use rounds::rounds_argument;
pub use words::{InWords, Refused};
