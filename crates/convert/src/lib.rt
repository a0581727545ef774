// The conversion of a finished schema into rows of Arrow fields.
#![tactic(auto)]

ghost use Rattle.std.specs.Prelude.{◌≡◌, ℕ, ◌-◌, ◌*◌, ◌≤◌, List, ◌++◌, length, take, replicate};
ghost use Rattle.std.specs.Result.{result_unwrap_or};
ghost use Rattle.schema.specs.Reach.{Reached, whole};
ghost use Rattle.schema.specs.Rows.{IsFinished};
ghost use Rattle.schema.specs.Words.{Event};
ghost use Rattle.promise.specs.Conversion.{Converts, conversion, empty_row};
ghost use Rattle.promise.specs.Promise.{Promised};
ghost use Rattle.convert.specs.Root.{Walks};
ghost use Rattle.convert.specs.Uncleared.{Uncleared};

mod complex;
mod context;
mod hints;
mod reading;
mod rows;

use crate::complex::visit_root;
use crate::context::Source;
use crate::hints::Hints;
pub use arrow::HintSchema;
use arrow::ResultRow;
use columns::count_leaves;
use schema::{Element, Refusal, Schema};
use selection::{Selection, choose};

// Walks the counted elements, and answers how many rows were written.
// (`finished` is asked here and of the visit of the root; a type for finished rows would be made and taken apart between the two.)
fn walk_elements<'a>(
    elements: &'a [Element],
    names: &'a [u8],
    hints: Hints<'a>,
    chosen: &'a [bool],
    rows: &mut [ResultRow],
) -> Result<usize, Refusal>
    requires finished { (bytes : ℕ) × IsFinished bytes elements.now }
    requires room { 2 * length elements.now ≤ length rows.old }
    ensures fits { result_unwrap_or result 0 ≤ length rows.new }
    ensures walks { Walks (record { elements = elements.entry.now; names = names.now; hints = hints.entry.rows.now; text = hints.entry.text.now; flags = chosen.now }) rows.new result }
{
    let source = Source {
        elements,
        names,
        hints,
        chosen,
    };
    visit_root(source, rows)
}

// Looks at all that is lent, asks the selection, and walks.
fn walk_schema<S: Selection>(
    schema: &Schema,
    elements: &[Element],
    names: &[u8],
    selection: &S,
    hints: HintSchema,
    rows: &mut [ResultRow],
    chosen: &mut [bool],
) -> Result<usize, Refusal>
    ensures fits { result_unwrap_or result 0 ≤ length rows.new }
    ensures walked { Uncleared (conversion schema.now elements.now names.now (S.Selection.chosen selection.now) hints.entry.rows.now hints.entry.text.now (length rows.old) (length chosen.old) result rows.new chosen.new) }
{
    if !schema.check(elements, names) {
        return Err(Refusal::Memory);
    }
    let hints = Hints::try_from(hints)?;
    let count = schema.elements();
    if rows.len() / 2 < count {
        return Err(Refusal::Table);
    }
    let counted = &elements[0..count];
    choose(selection, count_leaves(counted), chosen)?;
    walk_elements(counted, names, hints, chosen, rows)
}

// Converts a finished schema into the rows of its Arrow field tree, for the leaves that the selection chooses and under the hint, if any.
// It answers how many rows there are. Past them rows are empty, and past the leaves flags are false; refused, all are so throughout. The
// selection is asked once for each leaf, rising, and `chosen` keeps the answers.
// `told`: which refusal comes, or which rows and flags, for all that may be lent.
// `promise`: after any history of calls, an accepted conversion has the rows of the walk over the elements that were spelled; on the way of
// every leaf row each level is read by just one row, as the schema says; listings agree; and hints, memory and tables change nothing but Arrow
// types and metadata.
pub fn convert<S: Selection>(
    schema: &Schema,
    elements: &[Element],
    names: &[u8],
    selection: &S,
    hints: HintSchema,
    rows: &mut [ResultRow],
    chosen: &mut [bool],
) -> Result<usize, Refusal>
    ensures told { Converts (conversion schema.now elements.now names.now (S.Selection.chosen selection.now) hints.entry.rows.now hints.entry.text.now (length rows.old) (length chosen.old) result rows.new chosen.new) }
    ensures promise { (h : List Event) → Reached h (whole schema.now) elements.now names.now → Promised h (conversion schema.now elements.now names.now (S.Selection.chosen selection.now) hints.entry.rows.now hints.entry.text.now (length rows.old) (length chosen.old) result rows.new chosen.new) }
{
    let outcome = walk_schema(schema, elements, names, selection, hints, rows, chosen);
    rows[outcome.unwrap_or(0)..].fill(ResultRow::EMPTY);
    if outcome.is_err() {
        chosen.fill(false);
    }
    outcome
}
