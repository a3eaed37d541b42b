//! The sessions of a run: rows of a trace are made in one session after another, each of which ends by a loss of power
//! and is mounted, and the next one starts from its image.
#![tactic(auto)]

mod chain;
mod closing;
mod opening;
mod remounts;
mod rows;
mod running;
mod session;
mod stop;

pub use chain::{MOST_SESSIONS, run};
pub use session::Session;
