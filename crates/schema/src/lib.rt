// Parquet schemas as flat tables: their records, the refusals, and how a schema is drafted and finished.
#![tactic(auto)]

mod basic;
mod check;
mod decimal;
mod draft;
mod element;
mod refusal;
mod rows;

pub use basic::{Annotation, ConvertedType, LogicalType, PhysicalType, Repetition, TimeUnit};
pub use decimal::MAX_PRECISION;
pub use draft::{Draft, Schema};
pub use element::{Element, Kind, Leaf, Length, Place, PlaceOf};
pub use refusal::Refusal;
