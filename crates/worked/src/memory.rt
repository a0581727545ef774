// Lent memory that is not what the schema counts.
use crate::drafting::{FLAG, refused};
use schema::{
    ConvertedType, Draft, Element, Kind, Leaf, PhysicalType, Place, Refusal, Repetition, Schema,
};
use std::test::Fail;

// A root, a group with one leaf, and one leaf more.
fn draft(elements: &mut [Element], names: &mut [u8]) -> Result<Draft, Refusal> {
    let mut draft = Draft::begin(elements, names, b"root", None)?;
    draft.open(elements, names, b"group", Repetition::Optional, None, None)?;
    draft.add(elements, names, b"in", Repetition::Required, FLAG, None)?;
    draft.close()?;
    draft.add(elements, names, b"out", Repetition::Required, FLAG, None)?;
    Ok(draft)
}

fn finished(elements: &mut [Element], names: &mut [u8]) -> Result<Schema, Refusal> {
    draft(elements, names)?
        .finish(elements, names)
        .map_err(|(_, refusal)| refusal)
}

// Whether the check accepts the rows with one of them changed.
fn accepts(
    schema: &Schema,
    elements: &[Element; 4],
    names: &[u8],
    at: usize,
    row: Element,
) -> bool {
    let mut rows = *elements;
    if let Some(place) = rows.get_mut(at) {
        *place = row;
    }
    schema.check(&rows, names)
}

#[test]
fn tampered(rt: HostRuntime) -> Result<(), Fail> {
    let mut elements = [Element::EMPTY; 4];
    let mut names = [0; 14];
    let Ok(schema) = finished(&mut elements, &mut names) else {
        return Err(Fail::new("draft"));
    };
    let [root, group, inner, outer] = elements;
    assert_eq!(rt; root.size, 4);
    assert_eq!(rt; group.size, 2);
    assert!(rt; schema.check(&elements, &names));
    assert!(rt; !schema.check(&elements[0..3], &names));
    assert!(rt; !schema.check(&elements, &names[0..13]));
    for (at, row) in [
        (2, Element { depth: 1, ..inner }),
        (1, Element { size: 1, ..group }),
        (1, Element { size: 3, ..group }),
        (3, Element { size: 0, ..outer }),
    ] {
        assert!(rt; !accepts(&schema, &elements, &names, at, row), "row {at}");
    }
    Ok(())
}

#[test]
fn tampered_records(rt: HostRuntime) -> Result<(), Fail> {
    let mut elements = [Element::EMPTY; 4];
    let mut names = [0; 14];
    let Ok(schema) = finished(&mut elements, &mut names) else {
        return Err(Fail::new("draft"));
    };
    let [root, group, _, outer] = elements;
    let mut row = outer;
    row.name = Place {
        start: 12,
        length: 3,
    };
    assert!(rt; !accepts(&schema, &elements, &names, 3, row));
    row.name = Place {
        start: 14,
        length: 0,
    };
    assert!(rt; accepts(&schema, &elements, &names, 3, row));
    row = root;
    row.repetition = Some(Repetition::Required);
    assert!(rt; !accepts(&schema, &elements, &names, 0, row));
    row = group;
    row.kind = Kind::Leaf(FLAG);
    assert!(rt; !accepts(&schema, &elements, &names, 1, row));
    row = outer;
    row.repetition = None;
    assert!(rt; !accepts(&schema, &elements, &names, 3, row));
    row = outer;
    row.kind = Kind::Leaf(Leaf {
        physical: PhysicalType::Int32,
        type_length: 0,
        scale: 0,
        precision: 10,
        converted: Some(ConvertedType::Decimal),
        logical: None,
    });
    assert!(rt; !accepts(&schema, &elements, &names, 3, row));
    Ok(())
}

#[test]
fn tampered_drafts(rt: HostRuntime) -> Result<(), Fail> {
    let mut elements = [Element::EMPTY; 4];
    let mut names = [0; 14];
    assert_eq!(rt; refused(finished(&mut elements, &mut names)), None);
    let Ok(drafted) = draft(&mut elements, &mut names) else {
        return Err(Fail::new("draft"));
    };
    // sizes are not looked at: they are filled in
    elements[1].size = 9;
    elements[3].depth = 3;
    let Err((drafted, refusal)) = drafted.finish(&mut elements, &names) else {
        return Err(Fail::new("too deep below a leaf"));
    };
    assert_eq!(rt; refusal.number(), 7);
    assert_eq!(rt; elements[1].size, 9);
    elements[3].depth = 1;
    let Ok(_) = drafted.finish(&mut elements, &names) else {
        return Err(Fail::new("finish"));
    };
    assert_eq!(rt; elements[1].size, 2);
    Ok(())
}

// A literal that nothing else gives a type is a name's place.
#[test]
fn plain_places(rt: HostRuntime) {
    let place = Place {
        start: 1,
        length: 2,
    };
    assert_eq!(rt; place.read(b"abc"), Some(b"bc".as_slice()));
    assert_eq!(rt; place.read(b"ab"), None);
}
