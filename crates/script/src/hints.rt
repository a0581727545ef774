// Hint rows: how a script spells them, and how they are printed.
use crate::show::Text;
use arrow::{ArrowType, HintRow, HintSchema, IntervalUnit, TextPlace, TimeUnit, Zone, check_hints};
use schema::Refusal;
use std::alloc::{AllocError, Global};
use std::fmt;

// An Arrow type as a script spells it; a timestamp's zone is bytes that are yet to be laid into the hint text.
#[derive(Clone, Copy)]
pub enum HintType<'a> {
    Plain(ArrowType),
    Zoned(TimeUnit, &'a [u8]),
}

// The types that have no arguments. A dictionary's number plays no part in a hint.
const PLAIN: [(&str, ArrowType); 27] = [
    ("null", ArrowType::Null),
    ("boolean", ArrowType::Boolean),
    ("int8", ArrowType::Int8),
    ("int16", ArrowType::Int16),
    ("int32", ArrowType::Int32),
    ("int64", ArrowType::Int64),
    ("uint8", ArrowType::UInt8),
    ("uint16", ArrowType::UInt16),
    ("uint32", ArrowType::UInt32),
    ("uint64", ArrowType::UInt64),
    ("float16", ArrowType::Float16),
    ("float32", ArrowType::Float32),
    ("float64", ArrowType::Float64),
    ("utf8", ArrowType::Utf8),
    ("large_utf8", ArrowType::LargeUtf8),
    ("utf8_view", ArrowType::Utf8View),
    ("binary", ArrowType::Binary),
    ("large_binary", ArrowType::LargeBinary),
    ("binary_view", ArrowType::BinaryView),
    ("date32", ArrowType::Date32),
    ("date64", ArrowType::Date64),
    ("list", ArrowType::List),
    ("large_list", ArrowType::LargeList),
    ("list_view", ArrowType::ListView),
    ("large_list_view", ArrowType::LargeListView),
    ("struct", ArrowType::Struct),
    ("dictionary", ArrowType::Dictionary(0)),
];

const UNITS: [(&str, TimeUnit); 4] = [
    ("s", TimeUnit::Second),
    ("ms", TimeUnit::Millisecond),
    ("us", TimeUnit::Microsecond),
    ("ns", TimeUnit::Nanosecond),
];

const INTERVALS: [(&str, IntervalUnit); 3] = [
    ("year_month", IntervalUnit::YearMonth),
    ("day_time", IntervalUnit::DayTime),
    ("month_day_nano", IntervalUnit::MonthDayNano),
];

// Whether a map's keys are sorted.
const ORDERS: [(&str, bool); 2] = [("sorted", true), ("unsorted", false)];

// What a word of the table stands for.
fn read<T: Copy>(table: &[(&str, T)], word: &str) -> Option<T> {
    let (_, value) = table.iter().find(|(name, _)| *name == word)?;
    Some(*value)
}

// The word of the table for a value, which has one.
fn word_of<T: Copy + PartialEq>(table: &[(&'static str, T)], value: T) -> &'static str {
    match table.iter().find(|(_, other)| *other == value) {
        Some((word, _)) => word,
        None => "?",
    }
}

fn unit(word: &str) -> Option<TimeUnit> {
    read(&UNITS, word)
}

fn unit_word(unit: TimeUnit) -> &'static str {
    word_of(&UNITS, unit)
}

// `kind(argument)`
fn of_one(kind: &str, argument: &str) -> Option<ArrowType> {
    match kind {
        "fixed_size_binary" => Some(ArrowType::FixedSizeBinary(argument.parse::<i32>().ok()?)),
        "fixed_size_list" => Some(ArrowType::FixedSizeList(argument.parse::<i32>().ok()?)),
        "time32" => Some(ArrowType::Time32(unit(argument)?)),
        "time64" => Some(ArrowType::Time64(unit(argument)?)),
        "timestamp" => Some(ArrowType::Timestamp(unit(argument)?, None)),
        "duration" => Some(ArrowType::Duration(unit(argument)?)),
        "interval" => Some(ArrowType::Interval(read(&INTERVALS, argument)?)),
        "map" => Some(ArrowType::Map(read(&ORDERS, argument)?)),
        _ => None,
    }
}

// `kind(precision,scale)`
fn decimal(kind: &str, precision: u8, scale: i8) -> Option<ArrowType> {
    match kind {
        "decimal32" => Some(ArrowType::Decimal32(precision, scale)),
        "decimal64" => Some(ArrowType::Decimal64(precision, scale)),
        "decimal128" => Some(ArrowType::Decimal128(precision, scale)),
        "decimal256" => Some(ArrowType::Decimal256(precision, scale)),
        _ => None,
    }
}

fn of_two<'a>(kind: &str, first: &str, second: &'a str) -> Option<HintType<'a>> {
    if kind == "timestamp" {
        return Some(HintType::Zoned(unit(first)?, second.as_bytes()));
    }
    let precision = first.parse::<u8>().ok()?;
    let scale = second.parse::<i8>().ok()?;
    Some(HintType::Plain(decimal(kind, precision, scale)?))
}

// The type that a word spells, if it spells one.
pub fn read_type(word: &str) -> Option<HintType<'_>> {
    let Some((kind, rest)) = word.split_once('(') else {
        return Some(HintType::Plain(read(&PLAIN, word)?));
    };
    let arguments = rest.strip_suffix(')')?;
    match arguments.split_once(',') {
        Some((first, second)) => of_two(kind, first, second),
        None => Some(HintType::Plain(of_one(kind, arguments)?)),
    }
}

// A type as a script spells it.
#[derive(Clone, Copy)]
pub struct TypeWord<'a> {
    pub data_type: ArrowType,
    pub text: &'a [u8],
}

impl fmt::Display for TypeWord<'_> {
    fn fmt<W: fmt::Write>(&self, f: &mut fmt::Formatter<W>) -> fmt::Result {
        match self.data_type {
            ArrowType::FixedSizeBinary(n) => write!(f, "fixed_size_binary({n})"),
            ArrowType::FixedSizeList(n) => write!(f, "fixed_size_list({n})"),
            ArrowType::Time32(unit) => write!(f, "time32({})", unit_word(unit)),
            ArrowType::Time64(unit) => write!(f, "time64({})", unit_word(unit)),
            ArrowType::Duration(unit) => write!(f, "duration({})", unit_word(unit)),
            ArrowType::Interval(unit) => write!(f, "interval({})", word_of(&INTERVALS, unit)),
            ArrowType::Timestamp(unit, None) => write!(f, "timestamp({})", unit_word(unit)),
            ArrowType::Timestamp(unit, Some(Zone::Utc)) => write!(
                f,
                "timestamp({},UTC)",
                unit_word(unit)
            ),
            ArrowType::Timestamp(unit, Some(Zone::Text(place))) => {
                write!(
                    f,
                    "timestamp({},{})",
                    unit_word(unit),
                    Text(place.bytes_in(self.text))
                )
            }
            ArrowType::Decimal32(p, s) => write!(f, "decimal32({p},{s})"),
            ArrowType::Decimal64(p, s) => write!(f, "decimal64({p},{s})"),
            ArrowType::Decimal128(p, s) => write!(f, "decimal128({p},{s})"),
            ArrowType::Decimal256(p, s) => write!(f, "decimal256({p},{s})"),
            ArrowType::Map(sorted) => write!(f, "map({})", word_of(&ORDERS, sorted)),
            ArrowType::Dictionary(_) => f.write_str("dictionary"),
            other => f.write_str(word_of(&PLAIN, other)),
        }
    }
}

// A hint row as a script spells it.
#[derive(Clone, Copy)]
pub struct HintLine<'a> {
    pub depth: usize,
    pub nullable: bool,
    pub metadata: u32,
    pub data_type: HintType<'a>,
    pub name: &'a [u8],
}

// A row that may have more rows below it.
#[derive(Clone, Copy)]
struct Open {
    depth: usize,
    row: usize,
}

// The hint rows that a script has spelled, and their text.
#[derive(Drop)]
pub struct Hints {
    rows: Vec<HintRow>,
    // the last row and those above it, each deeper than the one before
    open: Vec<Open>,
    text: Vec<u8>,
}

impl Hints {
    pub fn new(heap: Global) -> Hints {
        Hints {
            rows: Vec::new(heap),
            open: Vec::new(heap),
            text: Vec::new(heap),
        }
    }

    pub fn clear(&mut self) {
        self.rows.clear();
        self.open.clear();
        self.text.clear();
    }

    pub fn len(&self) -> usize {
        self.rows.len()
    }

    fn lay(&mut self, bytes: &[u8]) -> Result<TextPlace, AllocError> {
        let start = self.text.len();
        self.text.extend_from_slice(bytes)?;
        Ok(TextPlace {
            start,
            length: bytes.len(),
        })
    }

    // One row more, and its number. Where memory runs out, rows and open rows stay as they were: room for both is made
    // before an open row ends.
    pub fn push(&mut self, line: HintLine<'_>) -> Result<usize, AllocError> {
        let number = self.rows.len();
        let name = self.lay(line.name)?;
        let data_type = match line.data_type {
            HintType::Plain(data_type) => data_type,
            HintType::Zoned(unit, zone) => ArrowType::Timestamp(
                unit,
                Some(Zone::Text(self.lay(zone)?)),
            ),
        };
        self.rows.reserve(1)?;
        self.open.reserve(1)?;
        self.end_rows(line.depth);
        self.rows.push(HintRow {
            name,
            data_type,
            nullable: line.nullable,
            metadata: line.metadata,
            size: 1,
        })?;
        self.open.push(Open {
            depth: line.depth,
            row: number,
        })?;
        Ok(number)
    }

    // A row at this depth comes next, so the open rows that are no shallower end here.
    fn end_rows(&mut self, depth: usize) {
        let above = self.open.partition_point(|open| open.depth < depth);
        self.size_rows(above);
        self.open.truncate(above);
    }

    // Gives the open rows past the first so many their sizes.
    fn size_rows(&mut self, above: usize) {
        let end = self.rows.len();
        for open in self.open.iter().skip(above) {
            if let Some(row) = self.rows.get_mut(open.row) {
                row.size = end.saturating_sub(open.row);
            }
        }
    }

    // Gives the open rows the sizes that they have so far, and refuses rows that are no hint.
    pub fn check(&mut self) -> Result<(), Refusal> {
        self.size_rows(0);
        let hints = HintSchema {
            rows: &self.rows,
            text: &self.text,
        };
        if check_hints(hints) {
            Ok(())
        } else {
            Err(Refusal::Hint)
        }
    }

    // The rows as text, each with its size.
    pub fn push_rows(&self, heap: Global, text: &mut String) -> Result<(), AllocError> {
        for (number, row) in self.rows.iter().enumerate() {
            let size = row.size;
            let null = row.nullable;
            let metadata = row.metadata;
            let word = TypeWord {
                data_type: row.data_type,
                text: &self.text,
            };
            let name = Text(row.name.bytes_in(&self.text));
            let line = format!(in heap;
                "  hint {number} size={size} null={null} type={word} meta={metadata} {name}\n"
            )?;
            text.push_str(line.as_str())?;
        }
        Ok(())
    }
}
