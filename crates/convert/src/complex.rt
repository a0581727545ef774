// The walk over a schema: one visit for each kind of element.
ghost use Rattle.std.specs.Prelude.{◌≡◌, ℕ, ◌+◌, ◌*◌, ◌^◌, ◌<◌, ◌≤◌, false, length, Option, Ok};
ghost use Rattle.tree.specs.Forest.{Forest, Lists};
ghost use Rattle.schema.specs.declared.element.Kind.TheVariants.{Leaf as LeafKind, Group as GroupKind};
ghost use Rattle.walk.specs.declared.role.Role.TheVariants.{Own as OwnRole, Listed as ListedRole, Mapped as MappedRole, Middle as MiddleRole, Entries as EntriesRole};
ghost use Rattle.tree.specs.Forest.Forest.{plant};
ghost use Rattle.schema.specs.Elements.{part};
ghost use Rattle.walk.specs.Forests.{trees};
ghost use Rattle.schema.specs.Rows.{IsFinished};
ghost use Rattle.arrow.specs.Kinds.{hint_span};
ghost use Rattle.walk.specs.Hints.{Hint, hints_of, sole};
ghost use Rattle.walk.specs.Faults.{Typing, name_checks, struct_checks, map_checks};
ghost use Rattle.walk.specs.Labels.{Numbered, is_optional, or_required};
ghost use Rattle.walk.specs.Shape.{base};
ghost use Rattle.walk.specs.Shape.Items.{of_list, of_map};
ghost use Rattle.convert.specs.Table.{Stands, Rooted, Reads, element_at, label};
ghost use Rattle.convert.specs.Handed.{Hinted, Passes};
ghost use Rattle.convert.specs.Walked.{field_told, element_told, middle_told, entries_told, items_full, HasHint, Ready, ReadyBelow, Visits, VisitsAs, Dispatches, Fields};
ghost use Rattle.convert.specs.Own.{group_field};
ghost use Rattle.convert.specs.Root.{root_told, Walks};
ghost use Rattle.walk.specs.Results.{shown_row};
ghost use Rattle.convert.specs.Outcome.{Told};
ghost use Rattle.convert.specs.Visit.{Meets, Seats, read_by, gives_as};

use crate::context::{Cursor, Seat, Source, Task};
use crate::hints::{Hints, is_any_list, is_map, is_struct};
use crate::reading::{Node, is_optional};
use crate::rows::{Seated, close, head_of, is_chosen, raise};
use arrow::{ArrowType, Entries, Field, HintRow, HintSchema, ResultRow, convert_primitive};
use schema::{Annotation, Element, Kind, Leaf, Place, Refusal};
use tree::FlatTree;
use walk::{Levels, Role};

// Visits a leaf.
pub(crate) fn visit_primitive(
    source: Source,
    at: usize,
    element: Element,
    leaf: Leaf,
    seat: Seat,
    from: Cursor,
    rows: &mut [ResultRow],
) -> Result<Cursor, Refusal>
    requires room { from.row + 2 ≤ length rows.old }
    requires few { from.leaf + 1 < 2 ^ 64 }
    requires shallow { (seat.levels.rep < 65535) × (seat.levels.def < 65535) }
    requires kind { element.kind ≡ LeafKind leaf }
    ensures { (t : Told) (below : Forest Element) → Seats (read_by source.entry) seat t → Meets (read_by source.entry).names (gives_as (read_by source.entry) (Ok OwnRole) at from.leaf seat t element below) from.row (from.leaf + 1) rows.old rows.new result }
{
    if !is_chosen(source.chosen, from.leaf) {
        return Ok(Cursor {
            row: from.row,
            leaf: from.leaf + 1,
        });
    }
    let seated = Seated {
        hints: source.hints,
        element,
        seat,
    };
    let wrapped = seated.is_wrapped();
    let hint = source.hints.unwrap_list(at, wrapped, seat.hint)?;
    let schema = HintSchema {
        rows: source.hints.rows,
        text: source.hints.text,
    };
    let data_type = convert_primitive(&leaf, at, schema, hint)?;
    let levels = raise(seat.levels, element);
    Ok(seated.write_leaf(at, data_type, levels, from, rows))
}

// 20: a struct hint has another name for this child.
fn check_name(source: Source, at: usize, element: Element, task: Task) -> Result<(), Refusal>
    ensures { (hs : Forest Hint) → Hinted (read_by source.entry).hints (read_by source.entry).text task.hint hs → Passes (name_checks at task.named (part (read_by source.entry).names element.name) hs) result }
{
    if !task.named {
        return Ok(());
    }
    let name = element.name.bytes_in(source.names);
    if !source.hints.has_name(task.hint, name) {
        return Err(Refusal::HintFieldName(at));
    }
    Ok(())
}

// 18, 19: the hint of a struct is no struct, or has another number of fields.
fn check_struct(hints: Hints, group: Node, hint: Option<usize>) -> Result<(), Refusal>
    ensures { (e : Element) (below next : Forest Element) → Stands group.entry.elements.now group.entry.at (plant e below next) → (hs : Forest Hint) → Hinted hints.entry.rows.now hints.entry.text.now hint hs → Passes (struct_checks group.entry.at hs (trees below)) result }
{
    if !hints.fits(hint, is_struct) {
        return Err(Refusal::HintKind(group.at));
    }
    if !hints.has_children(hint, group.count_children()) {
        return Err(Refusal::HintFieldCount(group.at));
    }
    Ok(())
}

// What a field or a key tells its own visit.
fn field_seat(source: Source, element: Element, task: Task) -> Seat
    ensures levels { result.levels ≡ task.levels }
    ensures above { result.null_above ≡ false }
    ensures hint { result.hint ≡ task.hint }
    ensures seats { (i k : ℕ) (hs : Forest Hint) → Hinted (read_by source.entry).hints (read_by source.entry).text task.hint hs → Seats (read_by source.entry) result (field_told false task.key hs (label (read_by source.entry).names i k element)) }
{
    Seat {
        levels: task.levels,
        null_above: false,
        hint: task.hint,
        name: element.name,
        key: task.key,
        metadata: source.hints.metadata_of(task.hint, element.field_id),
        list: source.hints.list_kind(task.hint),
        element: false,
    }
}

// 18, 21: the hint of the map at `at` is no map, or not over a struct of two.
fn check_map(source: Source, at: usize, hint: Option<usize>) -> Result<(), Refusal>
    ensures { (hs : Forest Hint) → Hinted (read_by source.entry).hints (read_by source.entry).text hint hs → Passes (map_checks at hs) result }
{
    if !source.hints.fits(hint, is_map) {
        return Err(Refusal::HintKind(at));
    }
    if !source.hints.is_over_two(hint) {
        return Err(Refusal::HintMap(at));
    }
    Ok(())
}

// What the element of a list is told, where it is the group's repeated child.
fn element_seat(source: Source, group: Element, task: Task, levels: Levels) -> Seat
    ensures levels { result.levels ≡ levels }
    ensures above { result.null_above ≡ is_optional (or_required group.repetition) }
    ensures seats { (i k : ℕ) (hs : Forest Hint) → Hinted (read_by source.entry).hints (read_by source.entry).text task.hint hs → Seats (read_by source.entry) result (element_told task.key hs (label (read_by source.entry).names i k group)) }
{
    Seat {
        levels,
        null_above: is_optional(group),
        hint: source.hints.first(task.hint),
        name: group.name,
        key: task.key,
        metadata: source.hints.metadata_of(task.hint, group.field_id),
        list: ArrowType::List,
        element: true,
    }
}

// The field in which a list's or a map's row stands.
fn group_field(source: Source, group: Element, task: Task) -> Field
    ensures { (hs : Forest Hint) → Hinted (read_by source.entry).hints (read_by source.entry).text task.hint hs → result ≡ group_field hs task.key group }
{
    Field {
        name: group.name,
        nullable: !task.key && is_optional(group),
        metadata: source.hints.metadata_of(task.hint, group.field_id),
    }
}

// The row of a list whose element is the one child of the group's repeated child.
fn middle_row(source: Source, group: Element, task: Task, levels: Levels) -> ResultRow
    ensures { (i k : ℕ) (hs : Forest Hint) → Hinted (read_by source.entry).hints (read_by source.entry).text task.hint hs → (typing : Typing) (y : Numbered) → shown_row (read_by source.entry).names result ≡ items_full typing (middle_told task.key hs (label (read_by source.entry).names i k group)) (Ok MiddleRole) of_list y levels (is_optional (or_required group.repetition)) }
{
    ResultRow {
        rep_level: levels.rep,
        def_level: levels.def,
        nullable: is_optional(group),
        data_type: source.hints.list_kind(task.hint),
        size: 1,
        field: group_field(source, group, task),
        leaf: None,
        entries: None,
    }
}

// The row of a map of key and value, whose entries are the group's repeated child.
#[tactic(auto, using(crate::proofs::Handing::left_sole, crate::proofs::Grouped::map_shown))]
fn map_row(
    source: Source,
    group: Element,
    entries: Element,
    task: Task,
    levels: Levels,
) -> ResultRow
    ensures { (i j k : ℕ) (hs : Forest Hint) → Hinted (read_by source.entry).hints (read_by source.entry).text task.hint hs → (typing : Typing) → shown_row (read_by source.entry).names result ≡ items_full typing (entries_told task.key hs (label (read_by source.entry).names i k group)) (Ok EntriesRole) of_map (label (read_by source.entry).names j k entries) levels (is_optional (or_required group.repetition)) }
{
    let inner = source.hints.first(task.hint);
    ResultRow {
        rep_level: levels.rep,
        def_level: levels.def,
        nullable: is_optional(group),
        data_type: ArrowType::Map(source.hints.is_sorted(task.hint)),
        size: 1,
        field: group_field(source, group, task),
        leaf: None,
        entries: Some(Entries {
            name: entries.name,
            metadata: source.hints.number(inner),
        }),
    }
}

// What a visit asks, `Ready` and `HasHint`, is of its own place, cursor and hint, which differ from visit to visit; so they stand
// on each and in no type.

// Visits the element at `at`, which has a row of its own.
#[cycle(dispatch_visit_fields_visit_list_visit_map_visit_own_visit_struct)]
fn visit_own(
    source: Source,
    at: usize,
    seat: Seat,
    from: Cursor,
    rows: &mut [ResultRow],
) -> Result<Cursor, Refusal>
    requires ready { Ready (read_by source).elements at seat.levels from (length rows.old) }
    requires hinted { HasHint (read_by source) seat.hint }
    ensures { Visits (read_by source.entry) at seat from rows.old rows.new result }
{
    let element = source.elements[at];
    match element.kind {
        Kind::Leaf(leaf) => visit_primitive(source, at, element, leaf, seat, from, rows),
        Kind::Group(_) => visit_struct(source, at, seat, from, rows),
    }
}

// Visits a group as a struct.
#[cycle(dispatch_visit_fields_visit_list_visit_map_visit_own_visit_struct)]
fn visit_struct(
    source: Source,
    at: usize,
    seat: Seat,
    from: Cursor,
    rows: &mut [ResultRow],
) -> Result<Cursor, Refusal>
    requires ready { Ready (read_by source).elements at seat.levels from (length rows.old) }
    requires hinted { HasHint (read_by source) seat.hint }
    requires kind { (n : Option Annotation) × ((element_at (read_by source).elements at).kind ≡ GroupKind n) }
    ensures { Visits (read_by source.entry) at seat from rows.old rows.new result }
{
    let element = source.elements[at];
    let seated = Seated {
        hints: source.hints,
        element,
        seat,
    };
    let wrapped = seated.is_wrapped();
    let hint = source.hints.unwrap_list(at, wrapped, seat.hint)?;
    check_struct(source.hints, Node::new(source.elements, at), hint)?;
    let levels = raise(seat.levels, element);
    let inner = Cursor {
        row: head_of(element, from.row) + 1,
        leaf: from.leaf,
    };
    let cursor = visit_fields(source, at, levels, hint, inner, rows)?;
    Ok(seated.close_struct(levels, from.row, cursor, rows))
}

// Visits the fields of the struct at `at`, each with its hint.
#[cycle(dispatch_visit_fields_visit_list_visit_map_visit_own_visit_struct)]
fn visit_fields(
    source: Source,
    at: usize,
    levels: Levels,
    hint: Option<usize>,
    from: Cursor,
    rows: &mut [ResultRow],
) -> Result<Cursor, Refusal>
    requires ready { ReadyBelow (read_by source).elements at levels from (length rows.old) }
    requires hinted { HasHint (read_by source) hint }
    ensures { Fields (read_by source.entry) at levels hint from rows.old rows.new result }
{
    let mut cursor = from;
    let mut given = source.hints.first(hint);
    for child in FlatTree::new(source.elements).children(at) {
        let task = Task {
            levels,
            hint: given,
            named: true,
            key: false,
        };
        cursor = dispatch(source, child, task, cursor, rows)?;
        given = source.hints.next(given, hint);
    }
    Ok(cursor)
}

// Visits a group as a list, by its repeated child.
#[cycle(dispatch_visit_fields_visit_list_visit_map_visit_own_visit_struct)]
fn visit_list(
    source: Source,
    at: usize,
    task: Task,
    from: Cursor,
    rows: &mut [ResultRow],
) -> Result<Cursor, Refusal>
    requires ready { Ready (read_by source).elements at task.levels from (length rows.old) }
    requires hinted { HasHint (read_by source) task.hint }
    requires reads { Reads (read_by source).elements at (Ok ListedRole) }
    ensures { VisitsAs (Ok ListedRole) (read_by source.entry) at task from rows.old rows.new result }
{
    if !source.hints.fits(task.hint, is_any_list) {
        return Err(Refusal::HintKind(at));
    }
    let group = source.elements[at];
    let levels = raise(task.levels, group);
    let child = at + 1;
    let seat = element_seat(source, group, task, levels);
    if Node::new(source.elements, at).is_element(source.names) {
        return visit_own(source, child, seat, from, rows);
    }
    let deeper = raise(levels, source.elements[child]);
    let item = Task {
        levels: deeper,
        hint: seat.hint,
        named: false,
        key: false,
    };
    let inner = Cursor {
        row: from.row + 1,
        leaf: from.leaf,
    };
    let cursor = dispatch(source, child + 1, item, inner, rows)?;
    let row = middle_row(source, group, task, deeper);
    Ok(close(rows, from.row, cursor, row))
}

// Visits a group as a map: where key or value gives no row, the rows of the other are given back.
#[cycle(dispatch_visit_fields_visit_list_visit_map_visit_own_visit_struct)]
fn visit_map(
    source: Source,
    at: usize,
    task: Task,
    from: Cursor,
    rows: &mut [ResultRow],
) -> Result<Cursor, Refusal>
    requires ready { Ready (read_by source).elements at task.levels from (length rows.old) }
    requires hinted { HasHint (read_by source) task.hint }
    requires reads { Reads (read_by source).elements at (Ok MappedRole) }
    ensures { VisitsAs (Ok MappedRole) (read_by source.entry) at task from rows.old rows.new result }
{
    check_map(source, at, task.hint)?;
    let group = source.elements[at];
    let entries = source.elements[at + 1];
    let levels = raise(raise(task.levels, group), entries);
    let parent = source.hints.first(task.hint);
    let given = source.hints.first(parent);
    let key = Task {
        levels,
        hint: given,
        named: false,
        key: true,
    };
    let inner = Cursor {
        row: from.row + 1,
        leaf: from.leaf,
    };
    let middle = dispatch(source, at + 2, key, inner, rows)?;
    let value = Task {
        levels,
        hint: source.hints.next(given, parent),
        named: false,
        key: false,
    };
    let cursor = dispatch(
        source,
        at + 2 + source.elements[at + 2].size,
        value,
        middle,
        rows,
    )?;
    if middle.row == from.row + 1 || cursor.row == middle.row {
        return Ok(Cursor {
            row: from.row,
            leaf: cursor.leaf,
        });
    }
    let row = map_row(source, group, entries, task, levels);
    Ok(close(rows, from.row, cursor, row))
}

// Visits a field, a key or a value, by how it is read.
#[cycle(dispatch_visit_fields_visit_list_visit_map_visit_own_visit_struct)]
fn dispatch(
    source: Source,
    at: usize,
    task: Task,
    from: Cursor,
    rows: &mut [ResultRow],
) -> Result<Cursor, Refusal>
    requires ready { Ready (read_by source).elements at task.levels from (length rows.old) }
    requires hinted { HasHint (read_by source) task.hint }
    ensures { Dispatches (read_by source.entry) at task from rows.old rows.new result }
{
    let element = source.elements[at];
    check_name(source, at, element, task)?;
    match Node::new(source.elements, at).role()? {
        Role::Own => visit_own(source, at, field_seat(source, element, task), from, rows),
        Role::Listed => visit_list(source, at, task, from, rows),
        Role::Mapped => visit_map(source, at, task, from, rows),
        Role::Middle | Role::Entries => unreachable(),
    }
}

// The first hint row is the root's, if there are any.
#[tactic(auto, using(crate::proofs::Whole::first_hinted))]
fn root_hint(source: Source) -> Option<usize>
    ensures { (h : Forest HintRow) → Lists hint_span h (read_by source.entry).hints → Hinted (read_by source.entry).hints (read_by source.entry).text result (sole (hints_of (read_by source.entry).text 0 h)) }
{
    if source.hints.rows.is_empty() {
        None
    } else {
        Some(0)
    }
}

// What the root is told: levels start at 0, and its field is empty.
fn root_seat(source: Source) -> Seat
    ensures levels { result.levels ≡ base }
    ensures above { result.null_above ≡ false }
    ensures seats { (h : Forest HintRow) → Lists hint_span h (read_by source.entry).hints → Seats (read_by source.entry) result (root_told (hints_of (read_by source.entry).text 0 h)) }
{
    Seat {
        levels: Levels { rep: 0, def: 0 },
        null_above: false,
        hint: root_hint(source),
        name: Place {
            start: 0,
            length: 0,
        },
        key: false,
        metadata: None,
        list: source.hints.list_kind(None),
        element: false,
    }
}

// Visits the whole schema, from the root, and answers how many rows were written.
pub(crate) fn visit_root(source: Source, rows: &mut [ResultRow]) -> Result<usize, Refusal>
    requires finished { (bytes : ℕ) × IsFinished bytes (read_by source).elements }
    requires room { 2 * length (read_by source).elements ≤ length rows.old }
    ensures { Walks (read_by source.entry) rows.new result }
{
    let seat = root_seat(source);
    let from = Cursor { row: 0, leaf: 0 };
    let cursor = visit_struct(source, 0, seat, from, rows)?;
    Ok(cursor.row)
}
