//! The flash behind one trait, with its faults and power cuts, and a simulated flash that keeps the trait's
//! contract.
#![tactic(auto)]

mod flash;
mod injected;
mod injector;
mod page_arena;
mod page_states;
mod plan;
mod sim_flash;
mod spare;

pub use flash::{Flash, FlashStop, Probe};
pub use plan::{CutAt, Plan};
pub use sim_flash::SimFlash;
pub use spare::Spare;
