// Writing result rows.
ghost use Rattle.std.specs.Prelude.{◌≡◌, ℕ, ◌+◌, ◌^◌, ◌<◌, ◌≤◌, Bool, not, ◌&&◌, List, length, if◌then◌else◌};
ghost use Rattle.selection.specs.Sets.{in_flags};
ghost use Rattle.tree.specs.Forest.{Forest};
ghost use Rattle.walk.specs.Labels.{is_repeated, or_required};
ghost use Rattle.walk.specs.Hints.{Hint};
ghost use Rattle.walk.specs.Shape.{raised};
ghost use Rattle.walk.specs.Results.{shown_row};
ghost use Rattle.convert.specs.Outcome.{Outcome, within};
ghost use Rattle.convert.specs.Handed.{Hinted};
ghost use Rattle.convert.specs.Visit.{Wrote};
ghost use Rattle.convert.specs.Own.{outer_field, inner_of, own_field, own_row, list_row, leaf_outcome, StructClosed};

use crate::context::{Cursor, Seat};
use crate::hints::Hints;
use crate::reading::{is_optional, is_repeated};
use arrow::{ArrowType, Field, LeafNumbers, Metadata, ResultRow};
use schema::{Element, Repetition};
use selection::{Flags, Selection};
use walk::Levels;

pub(crate) fn raise(levels: Levels, element: Element) -> Levels
    requires { (levels.rep < 65535) × (levels.def < 65535) }
    ensures { result ≡ raised levels (or_required element.repetition) }
{
    match element.repetition {
        Some(Repetition::Optional) => Levels {
            def: levels.def + 1,
            ..levels
        },
        Some(Repetition::Repeated) => Levels {
            rep: levels.rep + 1,
            def: levels.def + 1,
        },
        _ => levels,
    }
}

pub(crate) fn is_chosen(chosen: &[bool], leaf: usize) -> bool
    ensures { result ≡ in_flags chosen.now leaf }
{
    Flags(chosen).contains(leaf)
}

// Puts a row round what was written from the row after `start` on, or gives that row back where nothing was.
#[tactic(auto, using(crate::proofs::Written::wrote_unwrapped, crate::proofs::Written::wrote_wrapped))]
pub(crate) fn close(rows: &mut [ResultRow], start: usize, cursor: Cursor, row: ResultRow) -> Cursor
    requires { (start + 1 ≤ cursor.row) × (start < length rows.old) }
    ensures low { start ≤ result.row }
    ensures wrote { (bytes : List ℕ) (o : Outcome) (next : ℕ) (before : List ResultRow) → length before ≡ length rows.old → Wrote bytes o (start + 1) next before rows.old cursor → Wrote bytes (within (shown_row bytes row) o) start next before rows.new result }
{
    if cursor.row == start + 1 {
        return Cursor {
            row: start,
            leaf: cursor.leaf,
        };
    }
    rows[start] = ResultRow {
        size: cursor.row - start,
        ..row
    };
    cursor
}

// Where a struct's own row goes: after its list's, if it has one.
pub(crate) fn head_of(element: Element, start: usize) -> usize
    requires { start + 1 < 2 ^ 64 }
    ensures { result ≡ start + (if is_repeated (or_required element.repetition) then 1 else 0) }
{
    start + usize::from(is_repeated(element))
}

impl Seat {
    // The field in which an element's outermost row stands.
    fn outer_field(self, nullable: bool) -> Field
        ensures { result ≡ outer_field self nullable }
    {
        Field {
            name: self.name,
            nullable: !self.key && nullable,
            metadata: self.metadata,
        }
    }

    // The row of a list for an element alone.
    fn list_row(self, levels: Levels) -> ResultRow
        ensures { result ≡ list_row self levels }
    {
        ResultRow {
            rep_level: levels.rep,
            def_level: levels.def,
            nullable: self.null_above,
            data_type: self.list,
            size: 1,
            field: self.outer_field(self.null_above),
            leaf: None,
            entries: None,
        }
    }
}

// An element with what it is told from above, and the hints.
#[derive(Clone, Copy)]
pub(crate) struct Seated<'a> {
    pub(crate) hints: Hints<'a>,
    pub(crate) element: Element,
    pub(crate) seat: Seat,
}

impl<'a> Seated<'a> {
    // Whether the element has a list for itself alone: it is repeated, and not the element of a list above it.
    pub(crate) fn is_wrapped(self) -> bool
        ensures { result ≡ (is_repeated (or_required self.entry.element.repetition) && not self.entry.seat.element) }
    {
        is_repeated(self.element) && !self.seat.element
    }

    // The metadata of the inner of the element's two rows.
    #[tactic(auto, using(crate::proofs::Handing::left_sole))]
    fn inner_metadata(self) -> Option<Metadata>
        ensures { (bytes : List ℕ) (hs : Forest Hint) → Hinted self.entry.hints.rows.now bytes self.entry.seat.hint hs → result ≡ inner_of self.entry.seat.element hs }
    {
        if self.seat.element {
            return None;
        }
        self.hints
            .metadata_of(self.hints.first(self.seat.hint), None)
    }

    // The field of the element's own row.
    fn own_field(self) -> Field
        ensures { (bytes : List ℕ) (hs : Forest Hint) → Hinted self.entry.hints.rows.now bytes self.entry.seat.hint hs → result ≡ own_field self.entry.seat hs self.entry.element.name (or_required self.entry.element.repetition) }
    {
        if is_repeated(self.element) {
            return Field {
                name: self.element.name,
                nullable: false,
                metadata: self.inner_metadata(),
            };
        }
        self.seat.outer_field(is_optional(self.element))
    }

    // The element's own row, of size 1.
    fn own_row(self, levels: Levels, data_type: ArrowType, leaf: Option<LeafNumbers>) -> ResultRow
        ensures { (bytes : List ℕ) (hs : Forest Hint) → Hinted self.entry.hints.rows.now bytes self.entry.seat.hint hs → result ≡ own_row self.entry.seat hs self.entry.element.name (or_required self.entry.element.repetition) levels data_type leaf }
    {
        ResultRow {
            rep_level: levels.rep,
            def_level: levels.def,
            nullable: is_optional(self.element),
            data_type,
            size: 1,
            field: self.own_field(),
            leaf,
            entries: None,
        }
    }

    // Writes the row of a leaf, and puts a list round it where it is repeated.
    #[tactic(auto, using(crate::proofs::Leaves::leaf_alone, crate::proofs::Leaves::leaf_listed))]
    pub(crate) fn write_leaf(
        self,
        at: usize,
        data_type: ArrowType,
        levels: Levels,
        from: Cursor,
        rows: &mut [ResultRow],
    ) -> Cursor
        requires room { from.row + 2 ≤ length rows.old }
        requires few { from.leaf + 1 < 2 ^ 64 }
        ensures { (bytes names : List ℕ) (hs : Forest Hint) → Hinted self.entry.hints.rows.now bytes self.entry.seat.hint hs → Wrote names (leaf_outcome names self.entry.seat hs at from.leaf self.entry.element.name (or_required self.entry.element.repetition) levels data_type) from.row (from.leaf + 1) rows.old rows.new result }
    {
        let numbers = LeafNumbers {
            element: at,
            leaf: from.leaf,
        };
        let row = self.own_row(levels, data_type, Some(numbers));
        if is_repeated(self.element) {
            rows[from.row + 1] = row;
            let cursor = Cursor {
                row: from.row + 2,
                leaf: from.leaf + 1,
            };
            return close(rows, from.row, cursor, self.seat.list_row(levels));
        }
        rows[from.row] = row;
        Cursor {
            row: from.row + 1,
            leaf: from.leaf + 1,
        }
    }

    // Puts a struct's row round its fields' rows, and a list round it where it is repeated.
    #[tactic(auto, using(crate::proofs::Leaves::struct_listed))]
    pub(crate) fn close_struct(
        self,
        levels: Levels,
        start: usize,
        cursor: Cursor,
        rows: &mut [ResultRow],
    ) -> Cursor
        requires room { start + 1 < length rows.old }
        requires past { (start + (if is_repeated (or_required self.element.repetition) then 1 else 0)) + 1 ≤ cursor.row }
        ensures { StructClosed self.entry.hints.rows.now self.entry.element self.entry.seat levels start cursor rows.old rows.new result }
    {
        let row = self.own_row(levels, ArrowType::Struct, None);
        if is_repeated(self.element) {
            let inner = close(rows, start + 1, cursor, row);
            return close(rows, start, inner, self.seat.list_row(levels));
        }
        close(rows, start, cursor, row)
    }
}
