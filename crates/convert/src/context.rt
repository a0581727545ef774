// What the visits of the walk are given.
use crate::hints::Hints;
use arrow::{ArrowType, Metadata};
use schema::{Element, Place};
use walk::Levels;

// What is read: the elements of a finished schema, the name memory, the hint, and the chosen flags.
#[derive(Clone, Copy)]
pub(crate) struct Source<'a> {
    pub(crate) elements: &'a [Element],
    pub(crate) names: &'a [u8],
    pub(crate) hints: Hints<'a>,
    pub(crate) chosen: &'a [bool],
}

// Where the next row goes, and the number of the next leaf.
// (The rows are lent beside it: of a struct that holds their `&mut` slice, each visit would have to say that it leaves them the
// caller's.)
#[derive(Clone, Copy)]
pub(crate) struct Cursor {
    pub(crate) row: usize,
    pub(crate) leaf: usize,
}

// What an element is told from above.
#[derive(Clone, Copy)]
pub(crate) struct Seat {
    // the levels of what it stands below
    pub(crate) levels: Levels,
    // whether a list of its own is null where an optional group above is absent
    pub(crate) null_above: bool,
    // its hint row
    pub(crate) hint: Option<usize>,
    // the field in which its outermost row stands: name, whether it is a key's, metadata
    pub(crate) name: Place,
    pub(crate) key: bool,
    pub(crate) metadata: Option<Metadata>,
    // the type of a list row of its own
    pub(crate) list: ArrowType,
    // whether it is the repeated child of a group that is read as a list, and the list's element
    pub(crate) element: bool,
}

// What a field, a key or a value is told from above.
#[derive(Clone, Copy)]
pub(crate) struct Task {
    // the levels of what it stands below
    pub(crate) levels: Levels,
    // its hint row
    pub(crate) hint: Option<usize>,
    // whether its name is compared with the hint's
    pub(crate) named: bool,
    pub(crate) key: bool,
}
