// The column listing at its edges.
use crate::drafting::{FLAG, refused};
use columns::{Column, PathPlace, PathRecord, list};
use schema::{Annotation, Draft, Element, Refusal, Repetition, Schema};
use std::test::Fail;

// A map of lists of maps: m (optional MAP), e (repeated), key, value (optional LIST), l (repeated), element (optional
// MAP), f (repeated), k, v (optional); and a repeated leaf at the root.
fn nested(elements: &mut [Element], names: &mut [u8]) -> Result<Schema, Refusal> {
    let mut draft = Draft::begin(elements, names, b"root", None)?;
    draft.open(
        elements,
        names,
        b"m",
        Repetition::Optional,
        Some(Annotation::Map),
        None,
    )?;
    draft.open(elements, names, b"e", Repetition::Repeated, None, None)?;
    draft.add(elements, names, b"key", Repetition::Required, FLAG, None)?;
    draft.open(
        elements,
        names,
        b"value",
        Repetition::Optional,
        Some(Annotation::List),
        None,
    )?;
    draft.open(elements, names, b"l", Repetition::Repeated, None, None)?;
    draft.open(
        elements,
        names,
        b"element",
        Repetition::Optional,
        Some(Annotation::Map),
        None,
    )?;
    draft.open(elements, names, b"f", Repetition::Repeated, None, None)?;
    draft.add(elements, names, b"k", Repetition::Required, FLAG, None)?;
    draft.add(elements, names, b"v", Repetition::Optional, FLAG, None)?;
    for _ in 0..6 {
        draft.close()?;
    }
    draft.add(elements, names, b"last", Repetition::Repeated, FLAG, None)?;
    draft
        .finish(elements, names)
        .map_err(|(_, refusal)| refusal)
}

// A column of three levels, and the place of its path.
fn column(element: usize, levels: [u16; 3], root: usize, path: [usize; 2]) -> Column {
    let [max_rep_level, max_def_level, repeated_def_level] = levels;
    let [start, length] = path;
    Column {
        element,
        max_rep_level,
        max_def_level,
        repeated_def_level,
        root,
        path: PathPlace { start, length },
    }
}

#[test]
fn nestings(rt: HostRuntime) -> Result<(), Fail> {
    let mut elements = [Element::EMPTY; 11];
    let mut names = [0; 32];
    let Ok(schema) = nested(&mut elements, &mut names) else {
        return Err(Fail::new("draft"));
    };
    let mut columns = [Column::EMPTY; 5];
    let mut paths = [9; 22];
    let mut walked = PathRecord::EMPTY;
    let answer = list(
        &schema,
        &elements,
        &names,
        &mut columns,
        &mut paths,
        &mut walked,
    );
    assert_eq!(rt; answer.ok(), Some(4));
    assert_eq!(rt;
        columns,
        [
            column(3, [1, 2, 2], 0, [0, 3]),
            column(8, [3, 6, 6], 0, [3, 7]),
            column(9, [3, 7, 6], 0, [10, 7]),
            column(10, [1, 1, 1], 1, [17, 1]),
            Column::EMPTY,
        ]
    );
    assert_eq!(rt;
        paths,
        [
            1, 2, 3, 1, 2, 4, 5, 6, 7, 8, 1, 2, 4, 5, 6, 7, 9, 10, 0, 0, 0, 0,
        ]
    );
    assert_eq!(rt; walked.len, 0);
    Ok(())
}

// The same listing into tables of these lengths.
fn listed(
    columns: &mut [Column],
    paths: &mut [usize],
    walked: &mut PathRecord,
    broken: bool,
) -> Result<usize, Refusal> {
    let elements: &mut [Element] = &mut [Element::EMPTY; 11];
    let names: &mut [u8] = &mut [0; 32];
    let schema = nested(elements, names)?;
    if broken && elements.len() > 9 {
        elements[9].depth = 6;
    }
    list(&schema, elements, names, columns, paths, walked)
}

#[test]
fn tables_too_short(rt: HostRuntime) {
    let columns: &mut [Column] = &mut [Column::EMPTY; 4];
    let paths: &mut [usize] = &mut [9; 18];
    let mut walked = PathRecord::EMPTY;
    assert_eq!(rt; refused(listed(columns, paths, &mut walked, false)), None);
    // one short: 23 for the path numbers, and everything is empty
    assert_eq!(rt;
        refused(listed(columns, &mut paths[0..17], &mut walked, false)),
        Some(23)
    );
    assert_eq!(rt; columns[0].element, 0);
    assert_eq!(rt; paths[0], 0);
    assert_eq!(rt; paths[17], 10);
    // 9 for the columns
    assert_eq!(rt;
        refused(listed(&mut columns[0..3], paths, &mut walked, false)),
        Some(9)
    );
    assert_eq!(rt; paths[17], 0);
}

#[test]
fn record_not_empty(rt: HostRuntime) {
    let columns: &mut [Column] = &mut [Column::EMPTY; 4];
    let paths: &mut [usize] = &mut [9; 18];
    let mut walked = PathRecord::EMPTY;
    walked.len = 1;
    walked.numbers[0] = 5;
    assert_eq!(rt;
        refused(listed(columns, paths, &mut walked, false)),
        Some(9)
    );
    assert_eq!(rt; walked.len, 1);
    assert_eq!(rt; walked.numbers[0], 5);
    // memory that is not the schema's comes before the tables
    assert_eq!(rt; refused(listed(columns, paths, &mut walked, true)), Some(7));
}

#[test]
fn root_alone_and_deepest(rt: HostRuntime) -> Result<(), Fail> {
    let mut elements = vec![in rt.alloc(); Element::EMPTY; 65]?;
    let names: &mut [u8] = &mut [0; 1];
    let rows = elements.as_mut_slice();
    let columns: &mut [Column] = &mut [Column::EMPTY; 1];
    let paths: &mut [usize] = &mut [0; 64];
    let mut walked = PathRecord::EMPTY;
    let Ok(draft) = Draft::begin(rows, names, b"", None) else {
        return Err(Fail::new("begin"));
    };
    let Ok(alone) = draft.finish(rows, names) else {
        return Err(Fail::new("finish"));
    };
    let answer = list(&alone, rows, names, columns, paths, &mut walked);
    assert_eq!(rt; answer.ok(), Some(0));
    let Ok(mut draft) = Draft::begin(rows, names, b"", None) else {
        return Err(Fail::new("begin"));
    };
    for _ in 0..63 {
        assert_eq!(rt;
            refused(draft.open(rows, names, b"", Repetition::Repeated, None, None,)),
            None
        );
    }
    assert_eq!(rt;
        refused(draft.add(rows, names, b"", Repetition::Optional, FLAG, None)),
        None
    );
    for _ in 0..63 {
        assert_eq!(rt; refused(draft.close()), None);
    }
    let Ok(deep) = draft.finish(rows, names) else {
        return Err(Fail::new("finish"));
    };
    let answer = list(&deep, rows, names, columns, paths, &mut walked);
    assert_eq!(rt; answer.ok(), Some(1));
    assert_eq!(rt; columns[0], column(64, [63, 64, 63], 0, [0, 64]));
    assert_eq!(rt; paths[63], 64);
    Ok(())
}

// As many leaves as a schema can have: each is a column of its own, below a child of the root of its own.
#[test]
fn most_leaves(rt: HostRuntime) -> Result<(), Fail> {
    let mut elements = vec![in rt.alloc(); Element::EMPTY; 4096]?;
    let mut columns = vec![in rt.alloc(); Column::EMPTY; 4095]?;
    let mut paths = vec![in rt.alloc(); 0; 4095]?;
    let names: &mut [u8] = &mut [0; 1];
    let rows = elements.as_mut_slice();
    let Ok(mut draft) = Draft::begin(rows, names, b"", None) else {
        return Err(Fail::new("begin"));
    };
    for _ in 0..4095 {
        assert_eq!(rt;
            refused(draft.add(rows, names, b"", Repetition::Optional, FLAG, None)),
            None
        );
    }
    let Ok(schema) = draft.finish(rows, names) else {
        return Err(Fail::new("finish"));
    };
    let mut walked = PathRecord::EMPTY;
    let table = columns.as_mut_slice();
    let numbers = paths.as_mut_slice();
    let answer = list(&schema, rows, names, table, numbers, &mut walked);
    assert_eq!(rt; answer.ok(), Some(4095));
    assert_eq!(rt; numbers.get(4094).copied(), Some(4095));
    assert_eq!(rt;
        table.last().copied(),
        Some(column(4095, [0, 1, 0], 4094, [4094, 1]))
    );
    Ok(())
}
