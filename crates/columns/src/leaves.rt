// The listing of a finished schema's leaves.
ghost use Rattle.std.specs.Prelude.{◌≡◌, ℕ, ◌+◌, ◌<◌, ◌≤◌, true, List, [], ◌∷◌, ◌++◌, length, take, if◌then◌else◌, nat_eq};
ghost use Rattle.schema.specs.Posts.{memory_kept};
ghost use Rattle.schema.specs.Rows.{IsFinished};
ghost use Rattle.columns.specs.Levels.{repeats, may_miss, row_at, path_of, root_of, leaves_of};
ghost use Rattle.columns.specs.Listing.{walked_path, Restored, Listing, LevelsBounded, ListLaw};
ghost use Rattle.schema.specs.Reach.{Reached, whole};
ghost use Rattle.schema.specs.Words.{Event};
ghost use Rattle.columns.specs.Walk.{Appended, Walking, Wrote, leaves_at, leaves_below, Walked};

use crate::column::{Column, PathPlace};
use crate::record::{PathRecord, enter};
use schema::{Element, Refusal, Repetition, Schema};
use tree::FlatTree;

// The levels of the path walked so far. (Not the walk's `Levels`: there is a third number; and that a listing and a conversion agree
// is a law, which would be none of a step that they share.)
#[derive(Clone, Copy)]
struct Levels {
    repetition: u16,
    definition: u16,
    // the definition level of the nearest repeated element
    repeated: u16,
}

impl Levels {
    // The levels one element further down.
    fn below(self, repetition: Option<Repetition>) -> Levels
        requires { (self.repetition < 64) × (self.definition < 64) }
        ensures repetition { result.repetition ≡ self.repetition + (if repeats repetition then 1 else 0) }
        ensures definition { result.definition ≡ self.definition + (if may_miss repetition then 1 else 0) }
        ensures repeated { result.repeated ≡ (if repeats repetition then self.definition + 1 else self.repeated) }
    {
        match repetition {
            Some(Repetition::Optional) => Levels {
                definition: self.definition + 1,
                ..self
            },
            Some(Repetition::Repeated) => Levels {
                repetition: self.repetition + 1,
                definition: self.definition + 1,
                repeated: self.definition + 1,
            },
            _ => self,
        }
    }
}

// How much of the caller's tables is used.
// (It travels beside the tables: of a struct that holds their `&mut` slices, each function would have to say that it leaves
// them the caller's.)
#[derive(Clone, Copy)]
struct Done {
    columns: usize,
    numbers: usize,
}

impl Done {
    const NOTHING: Done = Done {
        columns: 0,
        numbers: 0,
    };
}

// Writes the column of the leaf that the walk has come to, and its path.
fn write_column(
    walked: &PathRecord,
    leaf: usize,
    levels: Levels,
    root: usize,
    columns: &mut [Column],
    paths: &mut [usize],
    done: Done,
) -> Result<Done, Refusal>
    requires { (walked.now.len ≤ 64) × ((done.columns < length columns.old) × (done.numbers ≤ length paths.old)) }
    ensures { Appended (walked_path walked.now) walked.now.len leaf levels root done columns.old paths.old columns.new paths.new result }
{
    let length = walked.len;
    let start = done.numbers;
    if length > paths.len() - start {
        return Err(Refusal::PathNumbersFull);
    }
    let end = start + length;
    paths[start..end].copy_from_slice(&walked.numbers[0..length]);
    columns[done.columns] = Column {
        element: leaf,
        max_rep_level: levels.repetition,
        max_def_level: levels.definition,
        repeated_def_level: levels.repeated,
        root,
        path: PathPlace { start, length },
    };
    Ok(Done {
        columns: done.columns + 1,
        numbers: end,
    })
}

// A child of the root has its own number; what lies deeper has that of the child of the root above it.
fn root_number(parent: usize, number: usize, root: usize) -> usize
    ensures { result ≡ (if nat_eq parent 0 then number else root) }
{
    if parent == 0 { number } else { root }
}

// Lists the leaves of an element's stretch; `levels` are those of its parent.
// (Levels and `root` stand apart: levels rise at each element, the root is set below the schema's root alone.)
#[cycle(list_children_list_element)]
fn list_element(
    rows: &[Element],
    element: usize,
    levels: Levels,
    root: usize,
    walked: &mut PathRecord,
    columns: &mut [Column],
    paths: &mut [usize],
    done: Done,
) -> Result<Done, Refusal>
    requires walking { Walking rows.now walked.old levels columns.old paths.old done (walked_path walked.old) (leaves_at rows.now element) }
    requires element { element < length rows.now }
    requires path { path_of rows.now element ≡ walked_path walked.old ++ element ∷ [] }
    requires root { root ≡ root_of rows.now (path_of rows.now element) }
    ensures restored { Restored walked.old walked.new }
    ensures wrote { Wrote rows.now (leaves_at rows.now element) done columns.old paths.old columns.new paths.new result }
{
    let row = rows[element];
    let levels = levels.below(row.repetition);
    let guard = enter(walked, element);
    if row.kind.is_group() {
        return list_children(
            rows,
            element,
            levels,
            root,
            guard.walked,
            columns,
            paths,
            done,
        );
    }
    write_column(guard.walked, element, levels, root, columns, paths, done)
}

// Lists the leaves below an element, child by child.
#[cycle(list_children_list_element)]
fn list_children(
    rows: &[Element],
    parent: usize,
    levels: Levels,
    root: usize,
    walked: &mut PathRecord,
    columns: &mut [Column],
    paths: &mut [usize],
    done: Done,
) -> Result<Done, Refusal>
    requires walking { Walking rows.now walked.old levels columns.old paths.old done (path_of rows.now parent) (leaves_below rows.now parent) }
    requires parent { parent < length rows.now }
    requires root { 0 < parent → root ≡ root_of rows.now (path_of rows.now parent) }
    ensures restored { Restored walked.old walked.new }
    ensures wrote { Wrote rows.now (leaves_below rows.now parent) done columns.old paths.old columns.new paths.new result }
{
    let mut so_far = done;
    for (number, child) in FlatTree::new(rows).children(parent).enumerate() {
        let root = root_number(parent, number, root);
        so_far = list_element(rows, child, levels, root, walked, columns, paths, so_far)?;
    }
    Ok(so_far)
}

// How many leaves the rows have.
#[tactic(auto, using(crate::proofs::Tables::leaves_counted, std::proofs::lemmas::Grind::common_steps))]
pub fn count_leaves(rows: &[Element]) -> usize
    ensures count { result ≡ length (leaves_of rows.now) }
{
    rows.iter().filter(|row| !row.kind.is_group()).count()
}

// Walks a finished schema, once the caller's tables have been looked at.
fn walk_rows(
    rows: &[Element],
    columns: &mut [Column],
    paths: &mut [usize],
    walked: &mut PathRecord,
) -> Result<Done, Refusal>
    requires { (bytes : ℕ) × IsFinished bytes rows.now }
    ensures restored { Restored walked.old walked.new }
    ensures walked { Walked true rows.now walked.old columns.old paths.old result columns.new paths.new }
{
    if columns.len() < count_leaves(rows) {
        return Err(Refusal::Table);
    }
    if walked.len != 0 {
        return Err(Refusal::Table);
    }
    let levels = Levels {
        repetition: 0,
        definition: 0,
        repeated: 0,
    };
    list_children(rows, 0, levels, 0, walked, columns, paths, Done::NOTHING)
}

// The same, once the memory has been looked at.
fn walk(
    schema: &Schema,
    elements: &[Element],
    names: &[u8],
    columns: &mut [Column],
    paths: &mut [usize],
    walked: &mut PathRecord,
) -> Result<Done, Refusal>
    ensures restored { Restored walked.old walked.new }
    ensures walked { Walked (memory_kept schema.now elements.now names.now) (take schema.now.count elements.now) walked.old columns.old paths.old result columns.new paths.new }
{
    if !schema.check(elements, names) {
        return Err(Refusal::Memory);
    }
    let count = schema.elements();
    walk_rows(&elements[0..count], columns, paths, walked)
}

// Lists the leaves of a finished schema, in order: one column for each, and its path in the path numbers, path after
// path. Past them columns are empty and numbers 0; refused, they are so throughout. The path record has to be empty,
// and is left as it was on every way out.
// `law`: after any history of calls the columns are those of the elements that were spelled.
// (Schema, elements and names are lent side by side with every call: a signature shows which memory it can touch.)
pub fn list(
    schema: &Schema,
    elements: &[Element],
    names: &[u8],
    columns: &mut [Column],
    paths: &mut [usize],
    walked: &mut PathRecord,
) -> Result<usize, Refusal>
    ensures told { Listing (memory_kept schema.now elements.now names.now) (take schema.now.count elements.now) walked.old (length columns.old) (length paths.old) result columns.new paths.new }
    ensures restored { Restored walked.old walked.new }
    ensures levels { LevelsBounded (take schema.now.count elements.now) result }
    ensures law { (h : List Event) → Reached h (whole schema.now) elements.now names.now → ListLaw h schema.now elements.now names.now walked.old (length columns.old) (length paths.old) result }
{
    let outcome = walk(schema, elements, names, columns, paths, walked);
    let done = outcome.unwrap_or(Done::NOTHING);
    columns[done.columns..].fill(Column::EMPTY);
    paths[done.numbers..].fill(0);
    outcome.map(|done| done.columns)
}
