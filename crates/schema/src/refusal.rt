// Why a call was refused.
ghost use Rattle.std.specs.Prelude.{◌≡◌};
ghost use Rattle.schema.specs.Refusals.{number_of, element_of};

use std::error::Error;
use std::fmt;

// One case for each number. The cases 10 to 22 hold the number of the element that they name.
#[derive(Clone, Copy, PartialEq, Eq, Debug)]
pub enum Refusal {
    // 1: 4,096 elements, or the element memory, used up
    ElementsFull,
    // 2: depth above 64
    TooDeep,
    // 3: a name above 255 bytes, or above the name memory left
    NameTooLong,
    // 4: a fixed length below 0, or the decimal rule broken
    LeafRule,
    // 5: close with only the root open
    NoGroupOpen,
    // 6: finish with another group open
    GroupOpen,
    // 7: memory that is not what the draft or the schema counts
    Memory,
    // 8: hint rows that are no hint
    Hint,
    // 9: a table that is too short, or a path record that is not empty
    Table,
    // 10: a LIST group with not just one child
    ListChildren(usize),
    // 11: a LIST group whose child is not repeated
    ListChildNotRepeated(usize),
    // 12: a repeated LIST group
    ListRepeated(usize),
    // 13: a repeated MAP group
    MapRepeated(usize),
    // 14: a MAP group with not just one child
    MapChildren(usize),
    // 15: a MAP group whose child is no repeated group
    MapChildNotRepeatedGroup(usize),
    // 16: a MAP group whose entries have neither one nor two children
    EntriesChildren(usize),
    // 17: a MAP group with a repeated key or value
    EntryRepeated(usize),
    // 18: a hint of another kind
    HintKind(usize),
    // 19: a struct hint with another number of fields
    HintFieldCount(usize),
    // 20: a struct hint with another name for this child
    HintFieldName(usize),
    // 21: a map hint that is not over a struct of two
    HintMap(usize),
    // 22: a chosen leaf with no Arrow type
    LeafType(usize),
    // 23: path numbers used up
    PathNumbersFull,
    // 24: a flag outside the flags
    FlagOutside,
}

impl Refusal {
    // The refusal's number, written out: no `as` turns a case with a field into a number.
    pub fn number(self) -> u8
        ensures number { result ≡ number_of self }
    {
        match self {
            Refusal::ElementsFull => 1,
            Refusal::TooDeep => 2,
            Refusal::NameTooLong => 3,
            Refusal::LeafRule => 4,
            Refusal::NoGroupOpen => 5,
            Refusal::GroupOpen => 6,
            Refusal::Memory => 7,
            Refusal::Hint => 8,
            Refusal::Table => 9,
            Refusal::ListChildren(_) => 10,
            Refusal::ListChildNotRepeated(_) => 11,
            Refusal::ListRepeated(_) => 12,
            Refusal::MapRepeated(_) => 13,
            Refusal::MapChildren(_) => 14,
            Refusal::MapChildNotRepeatedGroup(_) => 15,
            Refusal::EntriesChildren(_) => 16,
            Refusal::EntryRepeated(_) => 17,
            Refusal::HintKind(_) => 18,
            Refusal::HintFieldCount(_) => 19,
            Refusal::HintFieldName(_) => 20,
            Refusal::HintMap(_) => 21,
            Refusal::LeafType(_) => 22,
            Refusal::PathNumbersFull => 23,
            Refusal::FlagOutside => 24,
        }
    }

    // The element that the refusal names, if it names one.
    pub fn element(self) -> Option<usize>
        ensures element { result ≡ element_of self }
    {
        match self {
            Refusal::ListChildren(element)
            | Refusal::ListChildNotRepeated(element)
            | Refusal::ListRepeated(element)
            | Refusal::MapRepeated(element)
            | Refusal::MapChildren(element)
            | Refusal::MapChildNotRepeatedGroup(element)
            | Refusal::EntriesChildren(element)
            | Refusal::EntryRepeated(element)
            | Refusal::HintKind(element)
            | Refusal::HintFieldCount(element)
            | Refusal::HintFieldName(element)
            | Refusal::HintMap(element)
            | Refusal::LeafType(element) => Some(element),
            _ => None,
        }
    }
}

impl fmt::Display for Refusal {
    fn fmt<W: fmt::Write>(&self, f: &mut fmt::Formatter<W>) -> fmt::Result {
        write!(f, "refused {}", self.number())?;
        match self.element() {
            Some(element) => write!(f, " element {element}"),
            None => Ok(()),
        }
    }
}

impl Error for Refusal {}
