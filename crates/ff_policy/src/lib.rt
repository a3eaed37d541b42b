//! When a page is hot: counters of the device's accesses, and a threshold that follows them. Promotions are paid by
//! counted accesses. Counters, threshold and their steps are this project's own.
#![tactic(auto)]

mod counters;
mod policy;
mod tuner;

pub use policy::Policy;
pub use tuner::{Tune, Tuner};
