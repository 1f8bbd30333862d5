//! Where bytes come from and where they go: sources, sinks, and how they fail.
#![tactic(auto)]

mod calls;
mod fault;
mod from_read;
mod mem_sink;
mod mem_source;
mod seen;
mod sink;
mod source;
mod sure_sink;
mod sure_source;
mod to_write;

pub use fault::{Failed, OutFault};
pub use from_read::FromRead;
pub use mem_sink::MemSink;
pub use mem_source::MemSource;
pub use sink::Sink;
pub use source::Source;
pub use sure_sink::SureSink;
pub use sure_source::SureSource;
pub use to_write::ToWrite;
