//! The outside of the product: where bytes come from and where they go, with forms in memory for
//! tests and the adapters of standard input and output.
#![tactic(auto)]

mod front;
mod host_sink;
mod host_source;
mod memory_sink;
mod memory_source;
mod retries;
mod traits;

pub use host_sink::HostSink;
pub use host_source::HostSource;
pub use memory_sink::MemorySink;
pub use memory_source::MemorySource;
pub use traits::{Failed, Sink, Source};
