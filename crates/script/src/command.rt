// What a line of a script asks for.
use crate::hints::{HintLine, read_type};
use crate::words::{OrNone, Words, number};
use schema::{Annotation, ConvertedType, Leaf, LogicalType, PhysicalType, Repetition};

// A command, with the line that spells it. One space stands between two words, `-` is what is absent, and a name is the
// rest of the line, whatever bytes it holds.
#[derive(Clone, Copy)]
pub enum Command<'a> {
    // begin FIELDID NAME
    Begin {
        field_id: Option<i32>,
        name: &'a [u8],
    },
    // open REPETITION ANNOTATION FIELDID NAME
    Open {
        repetition: Repetition,
        annotation: Option<Annotation>,
        field_id: Option<i32>,
        name: &'a [u8],
    },
    // add REPETITION PHYSICAL LENGTH SCALE PRECISION CONVERTED LOGICAL FIELDID NAME
    Add {
        repetition: Repetition,
        leaf: Leaf,
        field_id: Option<i32>,
        name: &'a [u8],
    },
    // close
    Close,
    // finish
    Finish,
    // list
    List,
    // select all, select leaves N.., select roots N..
    Select(Select<'a>),
    // hint DEPTH NULLABLE METADATA TYPE NAME
    Hint(HintLine<'a>),
    // hints
    Hints,
    // convert or levels, with whatever words: planned, and not there yet
    Planned,
}

// Which leaves are selected. Numbers are words of a line, each of which is a number.
#[derive(Clone, Copy)]
pub enum Select<'a> {
    All,
    Leaves(&'a [u8]),
    Roots(&'a [u8]),
}

// A line of a script.
#[derive(Clone, Copy)]
pub enum Line<'a> {
    // a blank line or a comment, which is passed over
    Blank,
    // a line that is printed as it is
    Rule,
    Command(Command<'a>),
    // a line that is no command
    Other,
}

impl<'a> Line<'a> {
    // Reads a line without its line feed.
    pub fn parse(line: &'a [u8]) -> Line<'a> {
        match line {
            [b'#', ..] => Line::Blank,
            b"---" => Line::Rule,
            _ if line.trim_ascii().is_empty() => Line::Blank,
            _ => match Command::parse(line) {
                Some(command) => Line::Command(command),
                None => Line::Other,
            },
        }
    }
}

impl<'a> Command<'a> {
    // The command that a line spells, if it spells one.
    pub fn parse(line: &'a [u8]) -> Option<Command<'a>> {
        let mut words = Words::new(line);
        match words.word()? {
            "begin" => Command::begin(words),
            "open" => Command::open(words),
            "add" => Command::add(words),
            "close" => words.is_done().then_some(Command::Close),
            "finish" => words.is_done().then_some(Command::Finish),
            "list" => words.is_done().then_some(Command::List),
            "select" => Command::select(words),
            "hint" => Command::hint(words),
            "hints" => words.is_done().then_some(Command::Hints),
            "convert" | "levels" => Some(Command::Planned),
            _ => None,
        }
    }

    fn hint(mut words: Words<'a>) -> Option<Command<'a>> {
        let depth = number(words.next()?)?;
        let nullable = match words.word()? {
            "null" => true,
            "notnull" => false,
            _ => return None,
        };
        let metadata = number(words.next()?)?;
        let data_type = read_type(words.word()?)?;
        Some(Command::Hint(HintLine {
            depth,
            nullable,
            metadata,
            data_type,
            name: words.name(),
        }))
    }

    fn select(mut words: Words<'a>) -> Option<Command<'a>> {
        match words.word()? {
            "all" => words.is_done().then_some(Command::Select(Select::All)),
            "leaves" => Some(Command::Select(Select::Leaves(numbers(words)?))),
            "roots" => Some(Command::Select(Select::Roots(numbers(words)?))),
            _ => None,
        }
    }

    fn begin(mut words: Words<'a>) -> Option<Command<'a>> {
        let field_id = words.read::<Option<i32>>()?;
        Some(Command::Begin {
            field_id,
            name: words.name(),
        })
    }

    fn open(mut words: Words<'a>) -> Option<Command<'a>> {
        let repetition = words.read::<Repetition>()?;
        let OrNone(annotation) = words.read::<OrNone<Annotation>>()?;
        let field_id = words.read::<Option<i32>>()?;
        Some(Command::Open {
            repetition,
            annotation,
            field_id,
            name: words.name(),
        })
    }

    fn add(mut words: Words<'a>) -> Option<Command<'a>> {
        let repetition = words.read::<Repetition>()?;
        let leaf = read_leaf(&mut words)?;
        let field_id = words.read::<Option<i32>>()?;
        Some(Command::Add {
            repetition,
            leaf,
            field_id,
            name: words.name(),
        })
    }
}

// The rest of the line, if each of its words is a number.
fn numbers<'a>(words: Words<'a>) -> Option<&'a [u8]> {
    let text = words.name();
    let all = text.is_empty() || Words::new(text).all(|word| number::<usize>(word).is_some());
    all.then_some(text)
}

// A number of a leaf, where an absent one is 0.
fn read_number(words: &mut Words<'_>) -> Option<i32> {
    Some(words.read::<Option<i32>>()?.unwrap_or(0))
}

fn read_leaf(words: &mut Words<'_>) -> Option<Leaf> {
    Some(Leaf {
        physical: words.read::<PhysicalType>()?,
        type_length: read_number(words)?,
        scale: read_number(words)?,
        precision: read_number(words)?,
        converted: words.read::<OrNone<ConvertedType>>()?.0,
        logical: words.read::<Option<LogicalType>>()?,
    })
}
