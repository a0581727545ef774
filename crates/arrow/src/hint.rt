// The rows of an Arrow schema that is given as a hint.
ghost use Rattle.std.specs.Prelude.{◌≡◌, length, Decides};
ghost use Rattle.tree.specs.Forest.{Forest, Lists};
ghost use Rattle.arrow.specs.Kinds.{hint_span};
ghost use Rattle.arrow.specs.HintTrees.{brood_of, brood_kept, zone_inside, hint_kept, HintsKept, IsHint, shallow, tree_at};

use crate::same::zone_of;
use crate::types::{ArrowType, TextPlace, Zone};
use tree::{FlatTree, Row};

#[derive(Clone, Copy)]
pub struct HintRow {
    // where the name lies in the hint text
    pub name: TextPlace,
    pub data_type: ArrowType,
    pub nullable: bool,
    // a number of its writer's, 0 for none: the row's documented form (docs/RULES.md)
    pub metadata: u32,
    // the rows of its subtree, itself counted
    pub size: usize,
}

impl Row for HintRow {
    const MOST: usize = 4096;

    ghost MOST = { 4096 };

    ghost span = { hint_span };

    fn size(&self) -> usize {
        self.size
    }
}

// An Arrow schema that is given as a hint: its rows, and the text that their names and zones lie in. No rows, no hint.
#[derive(Clone, Copy)]
pub struct HintSchema<'a> {
    pub rows: &'a [HintRow],
    pub text: &'a [u8],
}

// Whether the rows are a hint: none at all, or a flat tree whose rows go down to depth 128 at most and have the children
// that their types want, with names and zones inside the text and no empty zone.
pub fn check_hints(hints: HintSchema) -> bool
    ensures accepts { Decides result (IsHint (length hints.entry.text.now) hints.entry.rows.now) }
{
    let rows = hints.rows;
    if rows.is_empty() {
        return true;
    }
    if !FlatTree::new(rows).check() {
        return false;
    }
    is_shallow(rows, 0, 129) && keeps_hints(rows, hints.text.len())
}

// Whether the row at `at` and what is below it, of rows that are a tree, lie at most so many one above another.
#[tactic(auto, using(crate::proofs::Depths::begins))]
fn is_shallow(rows: &[HintRow], at: usize, levels: u8) -> bool
    ensures { (f : Forest HintRow) → Lists hint_span f rows.now → result ≡ shallow levels (tree_at f rows.now at) }
{
    if levels == 0 {
        return false;
    }
    let tree = FlatTree::new(rows);
    for child in tree.children(at) {
        if levels == 1 {
            return false;
        }
        // most rows have no child, are one deep and need no call
        if tree.first_child(child).is_none() {
            continue;
        }
        if !is_shallow(rows, child, levels - 1) {
            return false;
        }
    }
    true
}

fn keeps_hints(rows: &[HintRow], text_length: usize) -> bool
    ensures { (f : Forest HintRow) → Lists hint_span f rows.now → Decides result (HintsKept text_length f rows.now) }
{
    let tree = FlatTree::new(rows);
    rows.iter().enumerate().all(|(i, row)| keeps_hint(*row, tree.count_children(i), text_length))
}

// What a row with so many children has to keep.
fn keeps_hint(row: HintRow, children: usize, text_length: usize) -> bool
    ensures { result ≡ hint_kept text_length row children }
{
    row.name.lies_inside(text_length)
        && keeps_zone(zone_of(row.data_type), text_length)
        && keeps_brood(row.data_type, children)
}

// A hint's zone, if it has one, is a place of at least one byte.
fn keeps_zone(zone: Option<Zone>, text_length: usize) -> bool
    ensures { result ≡ zone_inside text_length zone }
{
    match zone {
        None => true,
        Some(Zone::Utc) => false,
        Some(Zone::Text(place)) => place.length >= 1 && place.lies_inside(text_length),
    }
}

// Lists, maps and dictionaries have one child, structs any number, all others none.
fn keeps_brood(data_type: ArrowType, children: usize) -> bool
    ensures { result ≡ brood_kept (brood_of data_type) children }
{
    match data_type {
        ArrowType::List
        | ArrowType::LargeList
        | ArrowType::ListView
        | ArrowType::LargeListView
        | ArrowType::FixedSizeList(_)
        | ArrowType::Map(_)
        | ArrowType::Dictionary(_) => children == 1,
        ArrowType::Struct => true,
        _ => children == 0,
    }
}
