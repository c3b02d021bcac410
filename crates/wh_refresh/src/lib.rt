//! One change of a store.
#![tactic(auto)]

mod differences;
mod fault;
mod net;
mod refreshing;

pub use fault::RefreshFault;
pub use refreshing::refresh;
