// The rows of a schema's table.
ghost use Rattle.std.specs.Prelude.{◌≡◌, ℕ, ◌+◌, ◌≤◌, length, MatchOption};
ghost use Rattle.schema.specs.Elements.{element_span, is_group, counted, end_of, lies_inside, part};

use crate::basic::{Annotation, ConvertedType, LogicalType, PhysicalType, Repetition};
use tree::Row;

// The length of a place: a byte for a name, so that none is longer than 255 bytes, and a `usize` for other places. A trait
// of its own, since of `Into<usize>` clauses know a relation, and not the number.
pub trait Length: Copy {
    // The number that it is, for clauses.
    ghost length_of: { Self → ℕ };

    fn to_usize(self) -> usize
        ensures told { result ≡ length_of self };
}

impl Length for u8 {
    ghost length_of = { λ n. n };

    fn to_usize(self) -> usize {
        usize::from(self)
    }
}

impl Length for usize {
    ghost length_of = { λ n. n };

    fn to_usize(self) -> usize {
        self
    }
}

// Where bytes lie in a caller's memory, with the length's type as a parameter. (A place, and no `&[u8]`: the memory is lent anew
// with each call, and a row keeps no loan of it.)
#[derive(Clone, Copy, PartialEq, Eq, Debug)]
pub struct PlaceOf<N> {
    pub start: usize,
    pub length: N,
}

// A name's place. (A name of its own, and no default of the parameter: a literal `Place { .. }` fixes the length's type.)
pub type Place = PlaceOf<u8>;

impl<N: Length> PlaceOf<N> {
    // Whether this place lies inside a memory of so many bytes.
    pub fn lies_inside(&self, bytes: usize) -> bool
        ensures inside { result ≡ lies_inside bytes (counted N.length_of self.now) }
    {
        self.start <= bytes && self.length.to_usize() <= bytes - self.start
    }

    // The bytes at this place, if it lies inside the memory.
    pub fn read<'a>(&self, memory: &'a [u8]) -> Option<&'a [u8]>
        ensures bytes { MatchOption result (end_of (counted N.length_of self.now) ≤ length memory.now → ⊥) (λ s. (end_of (counted N.length_of self.now) ≤ length memory.now) × (s.now ≡ part memory.now (counted N.length_of self.now))) }
    {
        self.lies_inside(memory.len())
            .then(|| self.bytes_in(memory))
    }

    // The bytes at this place, as far as it lies inside the memory.
    pub fn bytes_in<'a>(&self, memory: &'a [u8]) -> &'a [u8]
        ensures bytes { result.now ≡ part memory.now (counted N.length_of self.now) }
    {
        match memory.get(self.start..) {
            Some(rest) => &rest[..rest.len().min(self.length.to_usize())],
            None => &[],
        }
    }
}

// What a leaf is.
#[derive(Clone, Copy, PartialEq, Eq, Debug)]
pub struct Leaf {
    pub physical: PhysicalType,
    // meant for FIXED_LEN_BYTE_ARRAY; other types may carry any length
    pub type_length: i32,
    pub scale: i32,
    pub precision: i32,
    pub converted: Option<ConvertedType>,
    pub logical: Option<LogicalType>,
}

// What an element is.
#[derive(Clone, Copy, PartialEq, Eq, Debug)]
pub enum Kind {
    Group(Option<Annotation>),
    Leaf(Leaf),
}

impl Kind {
    pub fn is_group(&self) -> bool
        ensures group { result ≡ is_group self.now }
    {
        matches!(self, Kind::Group(_))
    }
}

// A schema element: one row of the element memory.
#[derive(Clone, Copy, PartialEq, Eq, Debug)]
pub struct Element {
    // where the name lies in the name memory
    pub name: Place,
    // how many elements stand above it
    pub depth: u8,
    // none for the root
    pub repetition: Option<Repetition>,
    pub field_id: Option<i32>,
    // the rows of its subtree, itself counted; 0 until the schema is finished
    pub size: usize,
    pub kind: Kind,
}

impl Element {
    // A row to fill element memory with before it is lent.
    pub const EMPTY: Element = Element {
        name: Place {
            start: 0,
            length: 0,
        },
        depth: 0,
        repetition: None,
        field_id: None,
        size: 0,
        kind: Kind::Group(None),
    };
}

impl Row for Element {
    const MOST: usize = 4096;

    ghost MOST = { 4096 };

    ghost span = { element_span };

    fn size(&self) -> usize {
        self.size
    }
}
