// The Arrow type of a leaf.
ghost use Rattle.std.specs.Prelude.{◌≡◌, drop};
ghost use Rattle.arrow.specs.Table.{decimal_parts, decimal_128, decimal_by_digits, decimal_by_length, row_of, leaf_type};
ghost use Rattle.arrow.specs.Hints.{is_dictionary, told, only_child, plain_hint, kept, hinted};
ghost use Rattle.arrow.specs.Convert.{unit_fixed, converted_leaf, answered};
ghost use Rattle.arrow.specs.Laws.{LeafLaws};

use crate::hint::{HintRow, HintSchema};
use crate::same::same_type;
use crate::types::{ArrowType, IntervalUnit, TimeUnit, Zone};
use schema::{
    ConvertedType, Leaf, LogicalType, PhysicalType, Refusal, TimeUnit as ParquetTimeUnit,
};

// The type of the leaf that the element has, with the hint at the row that is given, if any. A leaf with no Arrow type is
// refused. Hint rows need not be checked: a row past the last, and a dictionary without just one child, count as absent.
pub fn convert_primitive(
    leaf: &Leaf,
    element: usize,
    hints: HintSchema,
    row: Option<usize>,
) -> Result<ArrowType, Refusal>
    ensures answer { result ≡ answered element (converted_leaf leaf.now hints.entry.rows.now hints.entry.text.now row) }
{
    let parquet = from_parquet(leaf).ok_or(Refusal::LeafType(element))?;
    match row {
        Some(row) => Ok(apply_hint(is_unit_fixed(leaf.physical), parquet, &hints, row)),
        None => Ok(parquet),
    }
}

// What holds of the types that `convert_primitive` answers. It does nothing: its contract is the theorem.
#[tactic(auto, using(crate::proofs::Leaves::all_laws))]
pub fn leaf_laws()
    ensures laws { LeafLaws }
{}

// An INT64 has a time only by its annotation, which says the unit.
fn is_unit_fixed(physical: PhysicalType) -> bool
    ensures { result ≡ unit_fixed physical }
{
    physical == PhysicalType::Int64
}

// What the hint at a row makes of the leaf's own type, so that the data come back as they were written. `unit_fixed`: an
// annotation says the unit of a time.
fn apply_hint(unit_fixed: bool, parquet: ArrowType, hints: &HintSchema, row: usize) -> ArrowType
    ensures { result ≡ hinted unit_fixed hints.now.text.now parquet row (drop row hints.now.rows.now) }
{
    let Some(hint) = hints.rows.get(row) else {
        return parquet;
    };
    if !is_dictionary(hint.data_type) {
        return plain_hint(unit_fixed, parquet, hint.data_type);
    }
    let below = row + 1;
    match hints.rows.get(below) {
        // the value type is tried as the hint
        Some(child) if is_only_child(hint, child) => {
            let inner = apply_hint(unit_fixed, parquet, hints, below);
            keep_dictionary(row, type_told(child, below), inner, hints.text)
        }
        _ => parquet,
    }
}

fn is_dictionary(data_type: ArrowType) -> bool
    ensures { result ≡ is_dictionary data_type }
{
    matches!(data_type, ArrowType::Dictionary(_))
}

// Whether, by their sizes, the row after the hint is its only child.
fn is_only_child(hint: &HintRow, child: &HintRow) -> bool
    ensures { result ≡ only_child hint.now child.now }
{
    child.size >= 1 && child.size < hint.size && hint.size == child.size + 1
}

// The type that a hint row tells: a dictionary goes by the number of its row.
fn type_told(hint: &HintRow, row: usize) -> ArrowType
    ensures { result ≡ told row hint.now }
{
    match hint.data_type {
        ArrowType::Dictionary(_) => ArrowType::Dictionary(row),
        data_type => data_type,
    }
}

// A dictionary is kept where its value type, tried as the hint, gives that same type.
fn keep_dictionary(row: usize, value: ArrowType, inner: ArrowType, text: &[u8]) -> ArrowType
    ensures { result ≡ kept text.now row value inner }
{
    if same_type(inner, value, text) {
        ArrowType::Dictionary(row)
    } else {
        inner
    }
}

// What a hint that is no dictionary makes of the leaf's own type.
fn plain_hint(unit_fixed: bool, parquet: ArrowType, hint: ArrowType) -> ArrowType
    ensures { result ≡ plain_hint unit_fixed parquet hint }
{
    match (parquet, hint) {
        // not all units have an annotation
        (ArrowType::Int32 | ArrowType::Int64, ArrowType::Timestamp(_, _)) => hint,
        (ArrowType::Int32, ArrowType::Time32(_)) => hint,
        (ArrowType::Int64, ArrowType::Time64(_) | ArrowType::Duration(_)) => hint,
        // Date64 has no annotation
        (ArrowType::Int64 | ArrowType::Date32, ArrowType::Date64) => hint,
        // a time of the same unit may have another zone
        (ArrowType::Timestamp(p, _), ArrowType::Timestamp(h, zone)) if p == h && zone.is_some() =>
            hint,
        // an INT96 has no unit of its own: another one holds a longer range of dates
        (
            ArrowType::Timestamp(TimeUnit::Nanosecond, None),
            ArrowType::Timestamp(
                TimeUnit::Second | TimeUnit::Millisecond | TimeUnit::Microsecond,
                _,
            ),
        ) if !unit_fixed => hint,
        // larger offsets
        (ArrowType::Utf8, ArrowType::LargeUtf8) => hint,
        (ArrowType::Binary, ArrowType::LargeBinary) => hint,
        // read as text
        (ArrowType::Binary, ArrowType::Utf8 | ArrowType::LargeUtf8 | ArrowType::Utf8View) => hint,
        // views
        (ArrowType::Utf8, ArrowType::Utf8View) => hint,
        (ArrowType::Binary, ArrowType::BinaryView) => hint,
        (ArrowType::Interval(_), ArrowType::Interval(_)) => hint,
        // a wider or a narrower decimal, at the same scale
        (ArrowType::Decimal128(_, s), ArrowType::Decimal32(_, t)) if s == t => hint,
        (ArrowType::Decimal128(_, s), ArrowType::Decimal64(_, t)) if s == t => hint,
        (ArrowType::Decimal128(_, s), ArrowType::Decimal256(_, t)) if s == t => hint,
        _ => parquet,
    }
}

// The type of a leaf that has no hint; none where its annotation says nothing of such a leaf.
fn from_parquet(leaf: &Leaf) -> Option<ArrowType>
    ensures { result ≡ leaf_type leaf.now }
{
    match leaf.logical {
        // any physical type may be annotated as unknown
        Some(LogicalType::Unknown) => Some(ArrowType::Null),
        _ => match leaf.physical {
            PhysicalType::Boolean => Some(ArrowType::Boolean),
            PhysicalType::Int32 => from_int32(leaf),
            PhysicalType::Int64 => from_int64(leaf),
            PhysicalType::Int96 => Some(ArrowType::Timestamp(TimeUnit::Nanosecond, None)),
            PhysicalType::Float => Some(ArrowType::Float32),
            PhysicalType::Double => Some(ArrowType::Float64),
            PhysicalType::ByteArray => from_byte_array(leaf),
            PhysicalType::FixedLenByteArray => from_fixed_len_byte_array(leaf),
        },
    }
}

// A decimal's precision and scale, as Arrow keeps them.
// (They come as two numbers, as `LogicalType::Decimal` holds them, and the annotations stand arm by arm as in the Rust crate.)
fn decimal_parts(scale: i32, precision: i32) -> Option<(u8, i8)>
    ensures { result ≡ decimal_parts scale precision }
{
    let precision = u8::try_from(precision).ok()?;
    let scale = i8::try_from(scale).ok()?;
    Some((precision, scale))
}

// On INT32 and INT64 a decimal has 128 bits.
fn decimal_of_int(scale: i32, precision: i32) -> Option<ArrowType>
    ensures { result ≡ decimal_128 scale precision }
{
    let (precision, scale) = decimal_parts(scale, precision)?;
    Some(ArrowType::Decimal128(precision, scale))
}

fn decimal_by_digits(scale: i32, precision: i32) -> Option<ArrowType>
    ensures { result ≡ decimal_by_digits scale precision }
{
    let (digits, scale) = decimal_parts(scale, precision)?;
    match digits {
        0..=38 => Some(ArrowType::Decimal128(digits, scale)),
        _ => Some(ArrowType::Decimal256(digits, scale)),
    }
}

// Lengths from 1 to 16 give Decimal128, from 17 to 32 Decimal256.
fn decimal_by_length(type_length: i32, scale: i32, precision: i32) -> Option<ArrowType>
    ensures { result ≡ decimal_by_length type_length scale precision }
{
    let (digits, scale) = decimal_parts(scale, precision)?;
    match type_length {
        1..=16 => Some(ArrowType::Decimal128(digits, scale)),
        17..=32 => Some(ArrowType::Decimal256(digits, scale)),
        _ => None,
    }
}

fn from_int32(leaf: &Leaf) -> Option<ArrowType>
    ensures { result ≡ (row_of leaf.now).0 }
{
    match (leaf.logical, leaf.converted) {
        (None, None | Some(ConvertedType::Int32)) => Some(ArrowType::Int32),
        (
            Some(
                LogicalType::Integer {
                    bit_width,
                    is_signed,
                },
            ),
            _,
        ) => match (bit_width, is_signed) {
            (8, true) => Some(ArrowType::Int8),
            (16, true) => Some(ArrowType::Int16),
            (32, true) => Some(ArrowType::Int32),
            (8, false) => Some(ArrowType::UInt8),
            (16, false) => Some(ArrowType::UInt16),
            (32, false) => Some(ArrowType::UInt32),
            _ => None,
        },
        (Some(LogicalType::Decimal { scale, precision }), _) => decimal_of_int(scale, precision),
        (Some(LogicalType::Date), _) => Some(ArrowType::Date32),
        (
            Some(
                LogicalType::Time {
                    unit: ParquetTimeUnit::Millis,
                    ..
                },
            ),
            _,
        ) => Some(ArrowType::Time32(TimeUnit::Millisecond)),
        (None, Some(ConvertedType::UInt8)) => Some(ArrowType::UInt8),
        (None, Some(ConvertedType::UInt16)) => Some(ArrowType::UInt16),
        (None, Some(ConvertedType::UInt32)) => Some(ArrowType::UInt32),
        (None, Some(ConvertedType::Int8)) => Some(ArrowType::Int8),
        (None, Some(ConvertedType::Int16)) => Some(ArrowType::Int16),
        (None, Some(ConvertedType::Date)) => Some(ArrowType::Date32),
        (None, Some(ConvertedType::TimeMillis)) => Some(ArrowType::Time32(TimeUnit::Millisecond)),
        (None, Some(ConvertedType::Decimal)) => decimal_of_int(leaf.scale, leaf.precision),
        _ => None,
    }
}

fn from_int64(leaf: &Leaf) -> Option<ArrowType>
    ensures { result ≡ (row_of leaf.now).1 }
{
    match (leaf.logical, leaf.converted) {
        (None, None | Some(ConvertedType::Int64)) => Some(ArrowType::Int64),
        (
            Some(
                LogicalType::Integer {
                    bit_width: 64,
                    is_signed,
                },
            ),
            _,
        ) => match is_signed {
            true => Some(ArrowType::Int64),
            false => Some(ArrowType::UInt64),
        },
        (
            Some(
                LogicalType::Time {
                    unit: unit @ (ParquetTimeUnit::Micros | ParquetTimeUnit::Nanos),
                    ..
                },
            ),
            _,
        ) => Some(ArrowType::Time64(unit.into())),
        (
            Some(
                LogicalType::Timestamp {
                    is_adjusted_to_utc,
                    unit,
                },
            ),
            _,
        ) => Some(ArrowType::Timestamp(unit.into(), is_adjusted_to_utc.then_some(Zone::Utc))),
        (None, Some(ConvertedType::UInt64)) => Some(ArrowType::UInt64),
        (None, Some(ConvertedType::TimeMicros)) => Some(ArrowType::Time64(TimeUnit::Microsecond)),
        (None, Some(ConvertedType::TimestampMillis)) => {
            Some(ArrowType::Timestamp(TimeUnit::Millisecond, Some(Zone::Utc)))
        }
        (None, Some(ConvertedType::TimestampMicros)) => {
            Some(ArrowType::Timestamp(TimeUnit::Microsecond, Some(Zone::Utc)))
        }
        (Some(LogicalType::Decimal { scale, precision }), _) => decimal_of_int(scale, precision),
        (None, Some(ConvertedType::Decimal)) => decimal_of_int(leaf.scale, leaf.precision),
        _ => None,
    }
}

fn from_byte_array(leaf: &Leaf) -> Option<ArrowType>
    ensures { result ≡ (row_of leaf.now).2 }
{
    match (leaf.logical, leaf.converted) {
        (Some(LogicalType::String | LogicalType::Json), _) => Some(ArrowType::Utf8),
        (Some(LogicalType::Bson | LogicalType::Enum), _) => Some(ArrowType::Binary),
        (None, Some(ConvertedType::Utf8 | ConvertedType::Json)) => Some(ArrowType::Utf8),
        (None, None | Some(ConvertedType::Bson | ConvertedType::Enum)) => {
            Some(ArrowType::Binary)
        }
        (Some(LogicalType::Decimal { scale, precision }), _) => decimal_by_digits(scale, precision),
        (None, Some(ConvertedType::Decimal)) => decimal_by_digits(leaf.scale, leaf.precision),
        _ => None,
    }
}

fn from_fixed_len_byte_array(leaf: &Leaf) -> Option<ArrowType>
    ensures { result ≡ (row_of leaf.now).3 }
{
    match (leaf.logical, leaf.converted) {
        (Some(LogicalType::Decimal { scale, precision }), _) => {
            decimal_by_length(leaf.type_length, scale, precision)
        }
        (None, Some(ConvertedType::Decimal)) => {
            decimal_by_length(leaf.type_length, leaf.scale, leaf.precision)
        }
        // nothing tells the unit of an interval: a hint may
        (None, Some(ConvertedType::Interval)) => {
            (leaf.type_length == 12).then_some(ArrowType::Interval(IntervalUnit::DayTime))
        }
        (Some(LogicalType::Float16), _) => (leaf.type_length == 2).then_some(ArrowType::Float16),
        _ => Some(ArrowType::FixedSizeBinary(leaf.type_length)),
    }
}
