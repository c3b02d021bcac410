//! The bodies of the frames of a warehouse file: snapshots and changes as bytes.
#![tactic(auto)]

mod fault;
mod frame;
mod items;
mod laws;
mod numbers;
mod ordered;
mod part;
mod reading;
mod value;
mod writing;

pub use fault::FrameFault;
pub use frame::Frame;
pub use laws::body_has_one_frame;
pub use reading::read_frame;
pub use writing::write_frame;
