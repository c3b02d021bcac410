//! What a program meets outside: files that it reads, sinks that it writes to, disks. Each with a form in memory.
#![tactic(auto)]

mod disk;
mod files;
mod mem_disk;
mod mem_files;
mod mem_sink;
mod plan;
mod record;
mod replay;
mod settled;
mod sink;
#[cfg(test)]
mod tests;

pub use disk::Disk;
pub use files::{FileFault, Files};
pub use mem_disk::MemDisk;
pub use mem_files::MemFiles;
pub use mem_sink::MemSink;
pub use settled::{cut_settled, write_settled};
pub use sink::{Sink, write_all};
