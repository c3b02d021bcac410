//! The commands: what each comes to over the held files and the store, and how it ends.
#![tactic(auto)]

mod ask;
mod audit;
mod command;
mod inputs;
mod load;
mod make;
mod naming;
mod plan;
mod refresh;
mod refresh_file;
mod refresh_line;
mod report;
mod show;
mod status;
mod stop;
mod store;
mod words;

pub use command::perform;
pub use status::Status;
pub use stop::{Stop, tell};
