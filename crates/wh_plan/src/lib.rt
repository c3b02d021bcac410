//! The plan of a specification.
#![tactic(auto)]

mod indexes;
mod inverse;
mod laws;
mod make;
mod order;
mod parts;
mod pieces;
mod plan;
mod printing;
mod trees;

pub use laws::{
    indexes_are_column_sets, inverse_exprs_mean_steps, keys_are_indexed, view_exprs_mean_views,
};
pub use make::make_plan;
pub use plan::{Exprs, IndexLists, Plan, PlanFault, ProbeBounds};
pub use printing::print_plan;
