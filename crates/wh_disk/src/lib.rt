//! The real files, streams and disks. What they hold is not told, and each failure is counted. Only regular files are
//! opened, and a call that a signal interrupts is made again.
#![tactic(auto)]

mod disk;
mod faults;
mod files;
mod lazy_file;
mod regular;
mod retry;
mod sink;
mod streams;
#[cfg(test)]
mod tests;

pub use disk::RealDisk;
pub use files::RealFiles;
pub use sink::RealSink;
pub use streams::{HeldStreams, hold_closed_streams};
