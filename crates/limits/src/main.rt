// Conversions at the limits of schemas and tables, and what refused ones leave.
#![tactic(auto)]

use anyhow::Context;
use arrow::{ArrowType, Field, HintRow, Metadata, ResultRow, TextPlace};
use convert::{HintSchema, convert};
use odd_leaves::OddLeaves;
use schema::{Draft, Element, Leaf, PhysicalType, Place, Refusal, Repetition, Schema};
use selection::{All, Selection};
use std::alloc::{AllocError, Global};
use std::io;

const NUMBER: Leaf = Leaf {
    physical: PhysicalType::Int32,
    type_length: 0,
    scale: 0,
    precision: 0,
    converted: None,
    logical: None,
};

const NO_HINT: HintSchema<'static> = HintSchema {
    rows: &[],
    text: &[],
};

// The memory that is lent to each call.
#[derive(Drop)]
struct Tables {
    elements: Vec<Element>,
    names: Vec<u8>,
    rows: Vec<ResultRow>,
    chosen: Vec<bool>,
}

// A row that is not empty, so that a conversion has something to clear.
const USED: ResultRow = ResultRow {
    rep_level: 1,
    def_level: 1,
    nullable: true,
    data_type: ArrowType::Struct,
    size: 1,
    field: Field {
        name: Place {
            start: 1,
            length: 1,
        },
        nullable: true,
        metadata: Some(Metadata::Hint(1)),
    },
    leaf: None,
    entries: None,
};

impl Tables {
    fn new(heap: Global, rows: usize, flags: usize) -> Result<Tables, AllocError> {
        Ok(Tables {
            elements: vec![in heap; Element::EMPTY; 4096]?,
            names: vec![in heap; 0; 4096]?,
            rows: vec![in heap; USED; rows]?,
            chosen: vec![in heap; true; flags]?,
        })
    }

    // As many leaves of one repetition below the root.
    fn draft_leaves(&mut self, count: usize, repetition: Repetition) -> Result<Schema, Refusal> {
        let mut draft = Draft::begin(&mut self.elements, &mut self.names, b"", None)?;
        for _ in 0..count {
            draft.add(
                &mut self.elements,
                &mut self.names,
                b"n",
                repetition,
                NUMBER,
                None,
            )?;
        }
        draft
            .finish(&mut self.elements, &self.names)
            .map_err(|(_, refusal)| refusal)
    }

    // Groups of one repetition, one in the other, and a leaf of it in the last.
    fn draft_chain(&mut self, groups: usize, repetition: Repetition) -> Result<Schema, Refusal> {
        let mut draft = Draft::begin(&mut self.elements, &mut self.names, b"", None)?;
        for _ in 0..groups {
            draft.open(
                &mut self.elements,
                &mut self.names,
                b"g",
                repetition,
                None,
                None,
            )?;
        }
        draft.add(
            &mut self.elements,
            &mut self.names,
            b"n",
            repetition,
            NUMBER,
            None,
        )?;
        for _ in 0..groups {
            draft.close()?;
        }
        draft
            .finish(&mut self.elements, &self.names)
            .map_err(|(_, refusal)| refusal)
    }

    fn convert<S: Selection>(
        &mut self,
        schema: &Schema,
        selection: &S,
        hints: HintSchema,
    ) -> Result<usize, Refusal> {
        convert(
            schema,
            &self.elements,
            &self.names,
            selection,
            hints,
            &mut self.rows,
            &mut self.chosen,
        )
    }

    // Converts all leaves under a hint of one row.
    fn convert_under(&mut self, schema: &Schema, data_type: ArrowType) -> Result<usize, Refusal> {
        let row = HintRow {
            name: TextPlace {
                start: 0,
                length: 0,
            },
            data_type,
            nullable: false,
            metadata: 0,
            size: 1,
        };
        let rows = [row];
        let hints = HintSchema {
            rows: &rows,
            text: b"",
        };
        self.convert(schema, &All, hints)
    }

    // Whether every row is empty and every flag false.
    fn is_clear(&self) -> bool {
        self.rows.iter().all(|row| *row == ResultRow::EMPTY) && !self.chosen.contains(&true)
    }
}

// What came of a conversion: the rows and the last of them, or the refusal and whether the tables are clear.
fn report(
    rt: &HostRuntime,
    what: &str,
    tables: &Tables,
    answer: Result<usize, Refusal>,
) -> io::Result<()> {
    match answer {
        Ok(count) => {
            println!(rt; "{what}: {count} rows")?;
            if let Some(row) = tables.rows.iter().take(count).last() {
                report_row(rt, row)?;
            }
            Ok(())
        }
        Err(refusal) => {
            let clear = tables.is_clear();
            println!(rt; "{what}: refused {}, all clear {clear}", refusal.number())
        }
    }
}

fn report_row(rt: &HostRuntime, row: &ResultRow) -> io::Result<()> {
    if let Some(numbers) = row.leaf {
        println!(rt;
            "  the last: element {}, leaf {}, levels ({},{})",
            numbers.element, numbers.leaf, row.rep_level, row.def_level
        )?;
    }
    Ok(())
}

// As many elements as a schema may have, each but the root a repeated leaf: two rows for each.
fn largest(rt: &HostRuntime, rows: usize, flags: usize) -> anyhow::Result<()> {
    let mut tables = Tables::new(rt.alloc(), rows, flags)?;
    let schema = tables
        .draft_leaves(4095, Repetition::Repeated)
        .ok()
        .context("not drafted")?;
    let answer = tables.convert(&schema, &All, NO_HINT);
    println!(rt; "a table of {rows} rows and {flags} flags")?;
    report(rt, "4096 elements", &tables, answer)?;
    Ok(())
}

// Elements down to the greatest depth.
fn deepest(rt: &HostRuntime, repetition: Repetition, what: &str) -> anyhow::Result<()> {
    let mut tables = Tables::new(rt.alloc(), 130, 1)?;
    let schema = tables
        .draft_chain(63, repetition)
        .ok()
        .context("not drafted")?;
    let answer = tables.convert(&schema, &All, NO_HINT);
    report(rt, what, &tables, answer)?;
    Ok(())
}

// Memory that was altered after the finish, as a caller could.
fn altered(rt: &HostRuntime) -> anyhow::Result<()> {
    let mut tables = Tables::new(rt.alloc(), 8, 3)?;
    let schema = tables
        .draft_leaves(3, Repetition::Optional)
        .ok()
        .context("not drafted")?;
    let row = tables.elements.get(2).copied().unwrap_or(Element::EMPTY);
    for (what, element) in [
        ("an element one deeper", Element { depth: 2, ..row }),
        ("an element one longer", Element { size: 2, ..row }),
        ("the elements as they were", row),
    ] {
        if let Some(place) = tables.elements.get_mut(2) {
            *place = element;
        }
        let answer = tables.convert(&schema, &All, NO_HINT);
        report(rt, what, &tables, answer)?;
    }
    Ok(())
}

// A hint that is none, and one of another kind than a struct.
fn hinted(rt: &HostRuntime) -> anyhow::Result<()> {
    let mut tables = Tables::new(rt.alloc(), 8, 3)?;
    let schema = tables
        .draft_leaves(3, Repetition::Optional)
        .ok()
        .context("not drafted")?;
    for (what, data_type) in [
        ("a list hint with no child", ArrowType::List),
        ("a root hint that is no struct", ArrowType::Int32),
    ] {
        let answer = tables.convert_under(&schema, data_type);
        report(rt, what, &tables, answer)?;
    }
    Ok(())
}

// A selection that is written outside the library.
fn odd(rt: &HostRuntime) -> anyhow::Result<()> {
    let mut tables = Tables::new(rt.alloc(), 22, 12)?;
    let schema = tables
        .draft_leaves(10, Repetition::Required)
        .ok()
        .context("not drafted")?;
    let answer = tables.convert(&schema, &OddLeaves, NO_HINT);
    report(rt, "the odd leaves of ten", &tables, answer)?;
    for (leaf, chosen) in tables.chosen.iter().enumerate() {
        if *chosen {
            println!(rt; "  leaf {leaf} is chosen")?;
        }
    }
    Ok(())
}

fn run(rt: &HostRuntime) -> anyhow::Result<()> {
    largest(rt, 8192, 4095)?;
    largest(rt, 8191, 4095)?;
    largest(rt, 8192, 4094)?;
    deepest(rt, Repetition::Optional, "optional down to depth 64")?;
    deepest(rt, Repetition::Repeated, "repeated down to depth 64")?;
    altered(rt)?;
    hinted(rt)?;
    odd(rt)
}

fn main(rt: HostRuntime) -> anyhow::Result<()> {
    run(&rt)
}
