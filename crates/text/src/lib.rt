// A load list as text that people can read, and such a text as a load list: the writer and the reader.
// Both answer for every input; what they answer is a definition of the crate `rules`.
#![tactic(auto)]

mod answer;
mod decimal;
mod line;
mod read;
mod write;

pub use read::read_text;
pub use write::write_text;
