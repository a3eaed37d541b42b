//! The words of the program's command line, as the kit's `clap` reads them.
#![tactic(auto)]

mod asked;
mod parser;
mod reading;

pub use asked::{BadWords, Command};
pub use reading::command;
