//! Sources and sinks of bytes.

mod edge;
mod memory;
