//! What a power loss keeps of a history: which entries count, and what the waiting posts are to them.
#![tactic(auto)]

mod kept;

pub use kept::kept_length;
