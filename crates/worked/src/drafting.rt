// Drafting at its limits.
use schema::{Draft, Element, Leaf, PhysicalType, Refusal, Repetition};
use std::test::Fail;

pub const FLAG: Leaf = Leaf {
    physical: PhysicalType::Boolean,
    type_length: 0,
    scale: 0,
    precision: 0,
    converted: None,
    logical: None,
};

// The number of a refusal, if the call was refused.
pub fn refused<T: Drop>(answer: Result<T, Refusal>) -> Option<u8> {
    answer.err().map(Refusal::number)
}

#[test]
fn most_elements(rt: HostRuntime) -> Result<(), Fail> {
    let mut elements = vec![in rt.alloc(); Element::EMPTY; 4100]?;
    let names: &mut [u8] = &mut [0; 1];
    let rows = elements.as_mut_slice();
    let Ok(mut draft) = Draft::begin(rows, names, b"r", None) else {
        return Err(Fail::new("begin"));
    };
    let accepted = (0..4096)
        .filter(|_| draft
            .add(rows, names, b"", Repetition::Required, FLAG, None)
            .is_ok())
        .count();
    assert_eq!(rt; accepted, 4095);
    assert_eq!(rt;
        refused(draft.add(rows, names, b"", Repetition::Required, FLAG, None)),
        Some(1)
    );
    assert_eq!(rt;
        refused(draft.open(rows, names, b"", Repetition::Required, None, None,)),
        Some(1)
    );
    let Ok(schema) = draft.finish(rows, names) else {
        return Err(Fail::new("finish"));
    };
    assert_eq!(rt; schema.elements(), 4096);
    Ok(())
}

#[test]
fn full_memories(rt: HostRuntime) -> Result<(), Fail> {
    let mut elements = [Element::EMPTY; 2];
    let mut names = [7; 4];
    assert_eq!(rt;
        refused(Draft::begin(&mut elements[0..0], &mut names, b"", None)),
        Some(1)
    );
    assert_eq!(rt;
        refused(Draft::begin(&mut elements, &mut names, b"12345", None)),
        Some(3)
    );
    assert_eq!(rt; names, [7, 7, 7, 7]);
    let Ok(mut draft) = Draft::begin(&mut elements, &mut names, b"ab", Some(-3)) else {
        return Err(Fail::new("begin"));
    };
    assert_eq!(rt;
        refused(draft.add(
            &mut elements,
            &mut names,
            b"xyz",
            Repetition::Required,
            FLAG,
            None,
        )),
        Some(3)
    );
    assert_eq!(rt;
        refused(draft.add(
            &mut elements,
            &mut names,
            b"xy",
            Repetition::Required,
            FLAG,
            None,
        )),
        None
    );
    assert_eq!(rt; names, *b"abxy");
    // the element memory comes before the name memory
    assert_eq!(rt;
        refused(draft.add(
            &mut elements,
            &mut names,
            b"z",
            Repetition::Required,
            FLAG,
            None,
        )),
        Some(1)
    );
    // shorter memory than is in use comes first of all
    assert_eq!(rt;
        refused(draft.add(
            &mut elements[0..1],
            &mut names,
            b"z",
            Repetition::Required,
            FLAG,
            None,
        )),
        Some(7)
    );
    assert_eq!(rt;
        refused(draft.add(
            &mut elements,
            &mut names[0..3],
            b"z",
            Repetition::Required,
            FLAG,
            None,
        )),
        Some(7)
    );
    assert_eq!(rt; elements[0].field_id, Some(-3));
    assert_eq!(rt; elements[1].depth, 1);
    Ok(())
}

#[test]
fn deepest(rt: HostRuntime) -> Result<(), Fail> {
    let mut elements = vec![in rt.alloc(); Element::EMPTY; 80]?;
    let names: &mut [u8] = &mut [0; 1];
    let rows = elements.as_mut_slice();
    let Ok(mut draft) = Draft::begin(rows, names, b"", None) else {
        return Err(Fail::new("begin"));
    };
    for _ in 0..64 {
        assert_eq!(rt;
            refused(draft.open(rows, names, b"", Repetition::Optional, None, None,)),
            None
        );
    }
    assert_eq!(rt;
        refused(draft.add(rows, names, b"", Repetition::Required, FLAG, None)),
        Some(2)
    );
    assert_eq!(rt; refused(draft.close()), None);
    assert_eq!(rt;
        refused(draft.add(rows, names, b"", Repetition::Required, FLAG, None)),
        None
    );
    let Err((draft, refusal)) = draft.finish(rows, names) else {
        return Err(Fail::new("a group is open"));
    };
    assert_eq!(rt; refusal.number(), 6);
    assert_eq!(rt; draft.open_groups(), 64);
    Ok(())
}
