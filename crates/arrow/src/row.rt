// The rows of a field tree.
ghost use Rattle.std.specs.Prelude.{◌≡◌};
ghost use Rattle.arrow.specs.Kinds.{row_span};

use crate::types::ArrowType;
use schema::Place;
use tree::Row;

// Where a field's metadata comes from.
#[derive(Clone, Copy, PartialEq, Eq, Debug)]
pub enum Metadata {
    // the hint's number
    Hint(u32),
    FieldId(i32),
}

// The field by which a row's parent knows it.
#[derive(Clone, Copy, PartialEq, Eq, Debug)]
pub struct Field {
    // where the name lies in the name memory
    pub name: Place,
    pub nullable: bool,
    pub metadata: Option<Metadata>,
}

// What a leaf row adds.
#[derive(Clone, Copy, PartialEq, Eq, Debug)]
pub struct LeafNumbers {
    pub element: usize,
    pub leaf: usize,
}

// What a map row adds: its entries' name and metadata number.
#[derive(Clone, Copy, PartialEq, Eq, Debug)]
pub struct Entries {
    pub name: Place,
    // 0 for none, as in the hint row that gives it
    pub metadata: u32,
}

#[derive(Clone, Copy, PartialEq, Eq, Debug)]
pub struct ResultRow {
    pub rep_level: u16,
    pub def_level: u16,
    pub nullable: bool,
    pub data_type: ArrowType,
    // the rows of its subtree, itself counted
    pub size: usize,
    pub field: Field,
    pub leaf: Option<LeafNumbers>,
    pub entries: Option<Entries>,
}

impl ResultRow {
    // A row to fill a result table with before it is lent; what a conversion leaves past its rows.
    pub const EMPTY: ResultRow = ResultRow {
        rep_level: 0,
        def_level: 0,
        nullable: false,
        data_type: ArrowType::Null,
        size: 0,
        field: Field {
            name: Place {
                start: 0,
                length: 0,
            },
            nullable: false,
            metadata: None,
        },
        leaf: None,
        entries: None,
    };
}

impl Row for ResultRow {
    const MOST: usize = 8192;

    ghost MOST = { 8192 };

    ghost span = { row_span };

    fn size(&self) -> usize {
        self.size
    }
}
