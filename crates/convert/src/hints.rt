// What the walk asks of hint rows.
ghost use Rattle.std.specs.Prelude.{◌≡◌, ℕ, Bool, ◌&&◌, List};
ghost use Rattle.tree.specs.Forest.{Forest};
ghost use Rattle.walk.specs.Hints.{Hint, Nesting, inside, others, nesting, plain_list, any_list, any_struct, any_map, fits, has_children, over_two};
ghost use Rattle.walk.specs.Forests.{planted};
ghost use Rattle.walk.specs.Walk.{by_number, by_id, metadata_of, hinted_list, list_or, sorted_in, hinted_sorted, hinted_number};
ghost use Rattle.convert.specs.Handed.{Hinted, HintsLeft, Sees, Unwrapped, WholeHints, named_as};

use crate::HintSchema;
use arrow::{ArrowType, HintRow, Metadata, check_hints};
use schema::Refusal;
use tree::FlatTree;

// The rows of a hint, which are whole trees, and the text that their names and zones lie in. No rows, no hint.
#[derive(Clone, Copy)]
pub(crate) struct Hints<'a> {
    pub(crate) rows: &'a [HintRow],
    pub(crate) text: &'a [u8],
    ghost whole: { ∥ WholeHints rows.now ∥₁ },
}

impl<'a> TryFrom<HintSchema<'a>> for Hints<'a> {
    type Error = Refusal;

    ghost use Rattle.convert.specs.Given.{Given};

    ghost try_from_gives = { λ schema result. Given schema.rows.now schema.text.now result };

    fn try_from(schema: HintSchema<'a>) -> Result<Self, Refusal> {
        if !check_hints(schema) {
            return Err(Refusal::Hint);
        }
        Ok(Hints {
            rows: schema.rows,
            text: schema.text,
        })
    }
}

// The type if it is a list, else List.
fn list_or(data_type: ArrowType) -> ArrowType
    ensures { result ≡ list_or (nesting data_type) data_type }
{
    if is_any_list(data_type) {
        data_type
    } else {
        ArrowType::List
    }
}

fn is_plain_list(data_type: ArrowType) -> bool
    ensures { result ≡ plain_list (nesting data_type) }
{
    matches!(
        data_type,
        ArrowType::List | ArrowType::LargeList | ArrowType::FixedSizeList(_)
    )
}

pub(crate) fn is_any_list(data_type: ArrowType) -> bool
    ensures { result ≡ any_list (nesting data_type) }
{
    matches!(
        data_type,
        ArrowType::List
            | ArrowType::LargeList
            | ArrowType::FixedSizeList(_)
            | ArrowType::ListView
            | ArrowType::LargeListView
    )
}

pub(crate) fn is_struct(data_type: ArrowType) -> bool
    ensures { result ≡ any_struct (nesting data_type) }
{
    matches!(data_type, ArrowType::Struct)
}

pub(crate) fn is_map(data_type: ArrowType) -> bool
    ensures { result ≡ any_map (nesting data_type) }
{
    matches!(data_type, ArrowType::Map(_))
}

// A hint's metadata number, 0 for none.
fn by_number(number: u32) -> Option<Metadata>
    ensures { result ≡ by_number number }
{
    (number != 0).then_some(Metadata::Hint(number))
}

fn by_id(field_id: Option<i32>) -> Option<Metadata>
    ensures { result ≡ by_id field_id }
{
    field_id.map(Metadata::FieldId)
}

fn sorted_in(data_type: ArrowType) -> bool
    ensures { result ≡ sorted_in (nesting data_type) }
{
    matches!(data_type, ArrowType::Map(true))
}

impl<'a> Hints<'a> {
    // The row of a hint, if there is one.
    pub(crate) fn row(self, hint: Option<usize>) -> Option<HintRow>
        ensures { (bytes : List ℕ) (hs : Forest Hint) → Hinted self.entry.rows.now bytes hint hs → Sees bytes result hs }
    {
        self.rows.get(hint?).copied()
    }

    // The first of a hint's children.
    #[tactic(auto, using(crate::proofs::Handing::first_left))]
    pub(crate) fn first(self, parent: Option<usize>) -> Option<usize>
        ensures { (bytes : List ℕ) (hs : Forest Hint) → Hinted self.entry.rows.now bytes parent hs → HintsLeft self.entry.rows.now bytes parent result (inside hs) }
    {
        FlatTree::new(self.rows).first_child(parent?)
    }

    // The child of a hint that comes after another.
    #[tactic(auto, using(crate::proofs::Handing::next_left))]
    pub(crate) fn next(self, hint: Option<usize>, parent: Option<usize>) -> Option<usize>
        ensures { (bytes : List ℕ) (hs : Forest Hint) → HintsLeft self.entry.rows.now bytes parent hint hs → HintsLeft self.entry.rows.now bytes parent result (others hs) }
    {
        FlatTree::new(self.rows).next_sibling(hint?, parent?)
    }

    // Whether a hint is absent, or of a type that meets the test.
    pub(crate) fn fits<F: Fn(ArrowType) -> bool>(self, hint: Option<usize>, test: F) -> bool
        requires { F.IsAlwaysCallable test }
        ensures { (bytes : List ℕ) (hs : Forest Hint) → Hinted self.entry.rows.now bytes hint hs → (kind : Nesting → Bool) → ((t : ArrowType) (b : Bool) → F.post test t b → b ≡ kind (nesting t)) → result ≡ fits kind hs }
    {
        self.row(hint).is_none_or(|row| test(row.data_type))
    }

    // The hint's kind of list, and List without one.
    pub(crate) fn list_kind(self, hint: Option<usize>) -> ArrowType
        ensures { (bytes : List ℕ) (hs : Forest Hint) → Hinted self.entry.rows.now bytes hint hs → result ≡ hinted_list hs }
    {
        // a match: with `map_or` no proof is found
        match self.row(hint) {
            Some(row) => list_or(row.data_type),
            None => ArrowType::List,
        }
    }

    // A field has the hint's metadata number, or without a hint the field id.
    #[tactic(auto, using(crate::proofs::Handing::metadata_row, crate::proofs::Handing::metadata_none))]
    pub(crate) fn metadata_of(self, hint: Option<usize>, field_id: Option<i32>) -> Option<Metadata>
        ensures { (bytes : List ℕ) (hs : Forest Hint) → Hinted self.entry.rows.now bytes hint hs → result ≡ metadata_of hs field_id }
    {
        match self.row(hint) {
            Some(row) => by_number(row.metadata),
            None => by_id(field_id),
        }
    }

    // The hint inside a list of an element's own: the list's child. Without such a list it is the hint itself.
    pub(crate) fn unwrap_list(
        self,
        at: usize,
        wrapped: bool,
        hint: Option<usize>,
    ) -> Result<Option<usize>, Refusal>
        ensures { (bytes : List ℕ) (hs : Forest Hint) → Hinted self.entry.rows.now bytes hint hs → Unwrapped self.entry.rows.now bytes at wrapped hs result }
    {
        if !wrapped {
            return Ok(hint);
        }
        if !self.fits(hint, is_plain_list) {
            return Err(Refusal::HintKind(at));
        }
        Ok(self.first(hint))
    }

    // Whether a hint is absent, or has so many children.
    pub(crate) fn has_children(self, hint: Option<usize>, count: usize) -> bool
        ensures { (bytes : List ℕ) (hs : Forest Hint) → Hinted self.entry.rows.now bytes hint hs → result ≡ has_children count hs }
    {
        hint.is_none_or(|row| FlatTree::new(self.rows).count_children(row) == count)
    }

    // Whether a hint is absent, or has this name.
    pub(crate) fn has_name(self, hint: Option<usize>, name: &[u8]) -> bool
        ensures { (hs : Forest Hint) → Hinted self.entry.rows.now self.entry.text.now hint hs → result ≡ named_as name.now hs }
    {
        self.row(hint)
            .is_none_or(|row| row.name.bytes_in(self.text) == name)
    }

    // Whether a map's keys are sorted: the hint says so.
    pub(crate) fn is_sorted(self, hint: Option<usize>) -> bool
        ensures { (bytes : List ℕ) (hs : Forest Hint) → Hinted self.entry.rows.now bytes hint hs → result ≡ hinted_sorted hs }
    {
        self.row(hint).is_some_and(|row| sorted_in(row.data_type))
    }

    // A hint's metadata number; 0 without a hint.
    pub(crate) fn number(self, hint: Option<usize>) -> u32
        ensures { (bytes : List ℕ) (hs : Forest Hint) → Hinted self.entry.rows.now bytes hint hs → result ≡ hinted_number hs }
    {
        self.row(hint).map_or(0, |row| row.metadata)
    }

    // Whether there is a hint, a struct of two.
    fn is_struct_of_two(self, hint: Option<usize>) -> bool
        ensures { (bytes : List ℕ) (hs : Forest Hint) → Hinted self.entry.rows.now bytes hint hs → result ≡ (planted hs && (fits any_struct hs && has_children 2 hs)) }
    {
        self.row(hint).is_some_and(|row| is_struct(row.data_type)) && self.has_children(hint, 2)
    }

    // Whether a hint is absent, or over a struct of two.
    #[tactic(auto, using(crate::proofs::Handing::left_sole, crate::proofs::Handing::over_by))]
    pub(crate) fn is_over_two(self, hint: Option<usize>) -> bool
        ensures { (bytes : List ℕ) (hs : Forest Hint) → Hinted self.entry.rows.now bytes hint hs → result ≡ over_two hs }
    {
        hint.is_none() || self.is_struct_of_two(self.first(hint))
    }
}
