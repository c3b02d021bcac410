//! Generated cases: a specification of three relations, their dumps and ten change texts, of any size.
#![tactic(auto)]

mod changes;
mod dumps;
mod files;
mod make;
mod rows;

pub use files::{CaseFiles, change_names};
pub use make::{Case, make_case};
