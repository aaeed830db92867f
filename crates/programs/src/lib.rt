// What programs share: their arguments, standard input, to a limit or part by part, and standard output, gathered in a buffer that the program lends.
#![tactic(auto)]

mod arguments;
mod lines;
mod reading;
mod writing;

pub use arguments::asked_for;
pub use reading::{Reader, Source, read_input};
pub use writing::{Output, Writer};
