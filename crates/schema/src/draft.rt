// Drafting a schema in memory that the caller lends with each call.
ghost use Rattle.std.specs.Prelude.{◌≡◌, ℕ, ◌+◌, ◌-◌, ◌<◌, ◌≤◌, List, ◌++◌, length, None};
ghost use Rattle.schema.specs.Rows.{rows_kept, sized};
ghost use Rattle.schema.specs.Posts.{refusal, begin_refusal, spell_refusal, Spelt, Begun, Opened, Added, Closed, Finished, FinishMeans};
ghost use Rattle.schema.specs.Words.{Event};
ghost use Rattle.schema.specs.Reach.{Reached, drafted, FinishLaw};

use crate::basic::{Annotation, Repetition};
use crate::element::{Element, Kind, Leaf, Place};
use crate::refusal::Refusal;
use crate::rows::{fill_sizes, keeps_rows};
use tree::Row;

// The greatest depth of an element; the root lies at depth 0.
pub const MAX_DEPTH: u8 = 64;

// The longest name, in bytes.
pub const MAX_NAME: usize = 255;

// A schema that is being spelled: how much of the lent memory it uses, and how many groups are open, the root counted.
// (Counts, and no `Vec`: the memory is the caller's.)
#[derive(Drop)]
pub struct Draft {
    count: usize,
    bytes: usize,
    groups: u8,
}

// A finished schema: how much of the lent memory it uses.
#[derive(Drop)]
pub struct Schema {
    count: usize,
    bytes: usize,
}

impl Schema {
    // How many elements the schema has.
    pub fn elements(&self) -> usize
        ensures count { result ≡ self.now.count }
    {
        self.count
    }

    // How many bytes of the name memory it uses.
    pub fn name_bytes(&self) -> usize
        ensures bytes { result ≡ self.now.bytes }
    {
        self.bytes
    }
}

// Elements and names are lent side by side: a struct of the two `&mut` would be built anew for each call, and each call would
// have to say that it leaves them the caller's.
impl Draft {
    // How many elements have been spelled.
    pub fn elements(&self) -> usize
        ensures count { result ≡ self.now.count }
    {
        self.count
    }

    // How many groups are open, the root counted; the next element lies at this depth.
    pub fn open_groups(&self) -> u8
        ensures groups { result ≡ self.now.groups }
    {
        self.groups
    }

    // Whether one element more, with this name, has room.
    fn room(&self, elements: &[Element], names: &[u8], name: &[u8]) -> Result<(), Refusal>
        ensures { refusal result ≡ spell_refusal name.now self.now elements.now names.now }
    {
        if elements.len() < self.count || names.len() < self.bytes {
            return Err(Refusal::Memory);
        }
        if elements.len() <= self.count || self.count >= Element::MOST {
            return Err(Refusal::ElementsFull);
        }
        if self.groups > MAX_DEPTH {
            return Err(Refusal::TooDeep);
        }
        if name.len() > MAX_NAME || name.len() > names.len() - self.bytes {
            return Err(Refusal::NameTooLong);
        }
        Ok(())
    }

    // Spells one element more, and answers its number; a group is open from now on.
    fn spell(
        &mut self,
        elements: &mut [Element],
        names: &mut [u8],
        name: &[u8],
        repetition: Option<Repetition>,
        field_id: Option<i32>,
        kind: Kind,
    ) -> usize
        requires { spell_refusal name.now self.old elements.old names.old ≡ None }
        ensures number { result ≡ self.old.count }
        ensures spelt { Spelt repetition field_id kind name.now self.old elements.old names.old self.new elements.new names.new }
    {
        let number = self.count;
        let start = self.bytes;
        let end = start + name.len();
        names[start..end].copy_from_slice(name);
        elements[number] = Element {
            name: Place {
                start,
                length: name.len() as u8,
            },
            depth: self.groups,
            repetition,
            field_id,
            size: 0,
            kind,
        };
        self.count += 1;
        self.bytes = end;
        self.groups += kind.is_group() as u8;
        number
    }

    // Begins a draft: the named root alone, which is open, whatever the memory held.
    pub fn begin(
        elements: &mut [Element],
        names: &mut [u8],
        name: &[u8],
        field_id: Option<i32>,
    ) -> Result<Draft, Refusal>
        ensures told { Begun name.now field_id elements.old names.old result elements.new names.new }
    {
        let mut draft = Draft {
            count: 0,
            bytes: 0,
            groups: 0,
        };
        draft.room(elements, names, name)?;
        draft.spell(elements, names, name, None, field_id, Kind::Group(None));
        Ok(draft)
    }

    // Spells a group, which is open from now on, and answers its number.
    pub fn open(
        &mut self,
        elements: &mut [Element],
        names: &mut [u8],
        name: &[u8],
        repetition: Repetition,
        annotation: Option<Annotation>,
        field_id: Option<i32>,
    ) -> Result<usize, Refusal>
        ensures told { Opened name.now repetition annotation field_id self.old elements.old names.old result self.new elements.new names.new }
    {
        self.room(elements, names, name)?;
        Ok(self.spell(
            elements,
            names,
            name,
            Some(repetition),
            field_id,
            Kind::Group(annotation),
        ))
    }

    // Spells a leaf, and answers its number.
    pub fn add(
        &mut self,
        elements: &mut [Element],
        names: &mut [u8],
        name: &[u8],
        repetition: Repetition,
        leaf: Leaf,
        field_id: Option<i32>,
    ) -> Result<usize, Refusal>
        ensures told { Added name.now repetition leaf field_id self.old elements.old names.old result self.new elements.new names.new }
    {
        self.room(elements, names, name)?;
        if !leaf.keeps_rules() {
            return Err(Refusal::LeafRule);
        }
        Ok(self.spell(
            elements,
            names,
            name,
            Some(repetition),
            field_id,
            Kind::Leaf(leaf),
        ))
    }

    // Closes the group that was opened last.
    pub fn close(&mut self) -> Result<(), Refusal>
        ensures told { Closed self.old result self.new }
    {
        if self.groups <= 1 {
            return Err(Refusal::NoGroupOpen);
        }
        self.groups -= 1;
        Ok(())
    }

    // Apart from `finish`, so that its other clauses follow from this one, and not anew at every return.
    fn make(self, elements: &mut [Element], names: &[u8]) -> Result<Schema, (Draft, Refusal)>
        ensures { Finished self elements.old names.now result elements.new }
    {
        if elements.len() < self.count || names.len() < self.bytes {
            return Err((self, Refusal::Memory));
        }
        let count = self.count;
        if !keeps_rows(&elements[..count], self.bytes) {
            return Err((self, Refusal::Memory));
        }
        if self.groups != 1 {
            return Err((self, Refusal::GroupOpen));
        }
        fill_sizes(&mut elements[..count]);
        Ok(Schema {
            count,
            bytes: self.bytes,
        })
    }

    // Finishes the schema: every counted row gets its size, and nothing else changes. Refused, it hands the draft back.
    // `law`: whatever was called since the accepted begin, in whatever order, accepted or refused, the memory holds
    // exactly the elements that the accepted calls spelled, and the finished rows are a flat tree of them.
    pub fn finish(self, elements: &mut [Element], names: &[u8]) -> Result<Schema, (Draft, Refusal)>
        ensures told { Finished self elements.old names.now result elements.new }
        ensures tree { FinishMeans self elements.old names.now result elements.new }
        ensures law { (h : List Event) → Reached h (drafted self) elements.old names.now → FinishLaw h self elements.old names.now result elements.new }
    {
        self.make(elements, names)
    }
}
