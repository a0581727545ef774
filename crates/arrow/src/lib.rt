// Arrow's side: types, hint rows, result rows, and the Arrow types of leaves.
#![tactic(auto)]

mod hint;
mod primitive;
mod row;
mod same;
mod types;

pub use hint::{HintRow, HintSchema, check_hints};
pub use primitive::{convert_primitive, leaf_laws};
pub use row::{Entries, Field, LeafNumbers, Metadata, ResultRow};
pub use same::same_type;
pub use types::{ArrowType, IntervalUnit, TextPlace, TimeUnit, Zone};

#[cfg(test)]
mod tests;
