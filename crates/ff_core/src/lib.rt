//! The events of a session: calls and background turns over the whole hierarchy, and the history, the log and the counts
//! that they leave. The history is that of a flat byte array after every event.
#![tactic(auto)]

mod account;
mod action;
mod core_state;
mod fresh;
mod hierarchy;
mod log;
mod next;
mod resume;
mod state;
mod tally;
mod turn;

pub use account::Record;
pub use action::{Action, Progress};
pub use core_state::{Core, Lost, Room};
pub use fresh::FreshBack;
pub use log::{Back, Log, Turned};
pub use resume::ResumeBack;
pub use tally::EventTally;
pub use turn::{Driven, Turn};
