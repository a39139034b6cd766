//! Files and sinks.

mod disk;
mod memory;
