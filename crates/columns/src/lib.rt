// The columns of a finished schema: its leaves in order, with their highest levels and paths.
#![tactic(auto)]

mod column;
mod leaves;
mod record;

pub use column::{Column, PathPlace};
pub use leaves::{count_leaves, list};
pub use record::PathRecord;
