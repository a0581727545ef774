// Rows by their depths alone: whether they are a schema, and their sizes.
ghost use Rattle.std.specs.Prelude.{◌≡◌, ℕ, ◌+◌, ◌<◌, ◌≤◌, ◌++◌, length, drop, slice_index_or};
ghost use Rattle.schema.specs.Elements.{empty};
ghost use Rattle.schema.specs.Rows.{plain_group, kind_kept, root_kept, row_kept, may_follow, next_kept, rows_kept, depths_of, deeper, sized, sizes_kept};

use crate::draft::MAX_DEPTH;
use crate::element::{Element, Kind};
use tree::Row;

fn is_plain(kind: &Kind) -> bool
    ensures { result ≡ plain_group kind.now }
{
    *kind == Kind::Group(None)
}

fn keeps_kind(kind: &Kind) -> bool
    ensures { result ≡ kind_kept kind.now }
{
    match kind {
        Kind::Group(_) => true,
        Kind::Leaf(leaf) => leaf.keeps_rules(),
    }
}

// Whether the row may be the root.
fn keeps_root(element: &Element, bytes: usize) -> bool
    ensures { result ≡ root_kept bytes element.now }
{
    element.depth == 0
        && element.repetition.is_none()
        && is_plain(&element.kind)
        && element.name.lies_inside(bytes)
}

// Whether the row may stand below the root.
fn keeps_row(element: &Element, bytes: usize) -> bool
    ensures { result ≡ row_kept bytes element.now }
{
    (1..=MAX_DEPTH).contains(&element.depth)
        && element.repetition.is_some()
        && keeps_kind(&element.kind)
        && element.name.lies_inside(bytes)
}

// Whether the row may come right after the row before it, by their depths.
fn follows(before: &Element, element: &Element) -> bool
    ensures { result ≡ may_follow before.now element.now }
{
    if before.kind.is_group() {
        element.depth as u16 <= before.depth as u16 + 1
    } else {
        element.depth <= before.depth
    }
}

fn keeps_next(before: &Element, element: &Element, bytes: usize) -> bool
    ensures { result ≡ next_kept bytes before.now element.now }
{
    follows(before, element) && keeps_row(element, bytes)
}

// Whether the rows are a schema, by their depths; sizes are not looked at.
pub(crate) fn keeps_rows(rows: &[Element], bytes: usize) -> bool
    ensures { result ≡ rows_kept bytes rows.now }
{
    match rows.split_first() {
        Some((root, rest)) if rows.len() <= Element::MOST => {
            keeps_root(root, bytes)
                && rows
                    .iter()
                    .zip(rest)
                    .all(|(before, element)| keeps_next(before, element, bytes))
        }
        _ => false,
    }
}

// Where the subtree of the row at `at` ends, once the rows after it have their sizes: from child to child by their sizes,
// a step that differs each time, so by a `while`. `take_while` over the depths would pass every row once for each row above it.
fn end_of_subtree(rows: &[Element], at: usize) -> usize
    requires at { at < length rows.now }
    requires known { drop (at + 1) rows.now ≡ sized (drop (at + 1) rows.now) }
    ensures { result ≡ (at + 1) + deeper (slice_index_or rows.now at empty).depth (depths_of (drop (at + 1) rows.now)) }
{
    let depth = rows[at].depth;
    let mut end = at + 1;
    while end < rows.len() && rows[end].depth > depth {
        end += rows[end].size;
    }
    end
}

// Gives each row its size, from the last row back, so that each row is passed once as a child. A loop over places: the
// size that is written is looked for in the rows after it, which no `iter_mut` lends beside it.
pub(crate) fn fill_sizes(rows: &mut [Element])
    ensures { rows.new ≡ sized rows.old }
{
    for i in (0..rows.len()).rev() {
        let size = end_of_subtree(rows, i) - i;
        rows[i].size = size;
    }
}

// Whether each row's size is the one that the depths give, from the last row back as above. A loop: with `all` the proof did not
// close, since that a subtree's end may be asked for rests on the answers before, of which a closure's clause cannot speak.
pub(crate) fn keeps_sizes(rows: &[Element]) -> bool
    ensures { result ≡ sizes_kept rows.now }
{
    for i in (0..rows.len()).rev() {
        if rows[i].size != end_of_subtree(rows, i) - i {
            return false;
        }
    }
    true
}
