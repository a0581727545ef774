// The rows of a column listing.

use schema::PlaceOf;

// Where a leaf's path lies in the caller's path numbers.
pub type PathPlace = PlaceOf<usize>;

// One leaf of a schema.
#[derive(Clone, Copy, PartialEq, Eq, Debug)]
pub struct Column {
    // the leaf's element number
    pub element: usize,
    // how many elements of its path are repeated
    pub max_rep_level: u16,
    // how many elements of its path are optional or repeated
    pub max_def_level: u16,
    // the definition level of the nearest repeated element on its path, itself counted; 0 without one
    pub repeated_def_level: u16,
    // which child of the root it lies under, from 0
    pub root: usize,
    pub path: PathPlace,
}

impl Column {
    // A row to fill a column table with before it is lent; what a listing leaves past its columns.
    pub const EMPTY: Column = Column {
        element: 0,
        max_rep_level: 0,
        max_def_level: 0,
        repeated_def_level: 0,
        root: 0,
        path: PathPlace {
            start: 0,
            length: 0,
        },
    };
}
