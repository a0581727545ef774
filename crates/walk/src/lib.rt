// From a Parquet schema to an Arrow field tree: what the walk over a schema means, and the laws above it.
#![tactic(auto)]

mod laws;
mod levels;
mod role;

pub use levels::Levels;
pub use role::Role;
