// The types of leaves, with hints and without, and the check of hint rows.
use crate::{ArrowType as A, *};
use schema::{
    ConvertedType as C, Leaf, LogicalType as L, PhysicalType as P, Refusal, TimeUnit as ParquetUnit,
};
use std::array;

const BYTES: P = P::ByteArray;

const FIXED: P = P::FixedLenByteArray;

const TEXT: [u8; 12] = *b"UTCCETUTCabc";

const CET: Option<Zone> = Some(Zone::Text(TextPlace {
    start: 3,
    length: 3,
}));

const UTC: Option<Zone> = Some(Zone::Text(TextPlace {
    start: 6,
    length: 3,
}));

const INT_8: L = L::Integer {
    bit_width: 8,
    is_signed: true,
};

const UINT_8: L = L::Integer {
    bit_width: 8,
    is_signed: false,
};

const INT_16: L = L::Integer {
    bit_width: 16,
    is_signed: true,
};

const UINT_16: L = L::Integer {
    bit_width: 16,
    is_signed: false,
};

const INT_32: L = L::Integer {
    bit_width: 32,
    is_signed: true,
};

const UINT_32: L = L::Integer {
    bit_width: 32,
    is_signed: false,
};

const INT_64: L = L::Integer {
    bit_width: 64,
    is_signed: true,
};

const UINT_64: L = L::Integer {
    bit_width: 64,
    is_signed: false,
};

const ODD_INT: L = L::Integer {
    bit_width: -8,
    is_signed: true,
};

const TIME_MILLI: L = L::Time {
    is_adjusted_to_utc: true,
    unit: ParquetUnit::Millis,
};

const TIME_MICRO: L = L::Time {
    is_adjusted_to_utc: true,
    unit: ParquetUnit::Micros,
};

const TIME_NANO: L = L::Time {
    is_adjusted_to_utc: true,
    unit: ParquetUnit::Nanos,
};

const STAMP_MILLI: L = L::Timestamp {
    is_adjusted_to_utc: true,
    unit: ParquetUnit::Millis,
};

const LOCAL_MILLI: L = L::Timestamp {
    is_adjusted_to_utc: false,
    unit: ParquetUnit::Millis,
};

const STAMP_MICRO: L = L::Timestamp {
    is_adjusted_to_utc: true,
    unit: ParquetUnit::Micros,
};

const LOCAL_MICRO: L = L::Timestamp {
    is_adjusted_to_utc: false,
    unit: ParquetUnit::Micros,
};

const STAMP_NANO: L = L::Timestamp {
    is_adjusted_to_utc: true,
    unit: ParquetUnit::Nanos,
};

const LOCAL_NANO: L = L::Timestamp {
    is_adjusted_to_utc: false,
    unit: ParquetUnit::Nanos,
};

const DECIMAL_9_2: L = L::Decimal {
    scale: 2,
    precision: 9,
};

const DECIMAL_9_128: L = L::Decimal {
    scale: 128,
    precision: 9,
};

const DECIMAL_0_MINUS_128: L = L::Decimal {
    scale: -128,
    precision: 0,
};

const DECIMAL_256_0: L = L::Decimal {
    scale: 0,
    precision: 256,
};

const DECIMAL_18_4: L = L::Decimal {
    scale: 4,
    precision: 18,
};

const DECIMAL_38_10: L = L::Decimal {
    scale: 10,
    precision: 38,
};

const DECIMAL_39_10: L = L::Decimal {
    scale: 10,
    precision: 39,
};

const DECIMAL_38_0: L = L::Decimal {
    scale: 0,
    precision: 38,
};

const DECIMAL_76_5: L = L::Decimal {
    scale: 5,
    precision: 76,
};

const DECIMAL_1_0: L = L::Decimal {
    scale: 0,
    precision: 1,
};

const TIME32: A = A::Time32(TimeUnit::Millisecond);

const TIME64: A = A::Time64(TimeUnit::Microsecond);

const DAY_TIME: A = A::Interval(IntervalUnit::DayTime);

const SECOND: A = A::Timestamp(TimeUnit::Second, None);

const MILLI: A = A::Timestamp(TimeUnit::Millisecond, None);

const MILLI_UTC: A = A::Timestamp(TimeUnit::Millisecond, Some(Zone::Utc));

const MILLI_CET: A = A::Timestamp(TimeUnit::Millisecond, CET);

const MICRO: A = A::Timestamp(TimeUnit::Microsecond, None);

const MICRO_UTC: A = A::Timestamp(TimeUnit::Microsecond, Some(Zone::Utc));

const MICRO_CET: A = A::Timestamp(TimeUnit::Microsecond, CET);

const NANO: A = A::Timestamp(TimeUnit::Nanosecond, None);

const NANO_UTC: A = A::Timestamp(TimeUnit::Nanosecond, Some(Zone::Utc));

const NANO_CET: A = A::Timestamp(TimeUnit::Nanosecond, CET);

const MICRO_TEXT: A = A::Timestamp(TimeUnit::Microsecond, UTC);

const DICT: A = A::Dictionary(0);

const VIEW: A = A::Utf8View;

const SMALL_2: A = A::Decimal64(9, 2);

const SMALL_3: A = A::Decimal64(9, 3);

// A leaf by its physical type, length and logical type, and its own type.
const BY_LOGICAL: [(P, i32, L, Option<A>); 55] = [
    (P::Int32, 0, INT_8, Some(A::Int8)),
    (P::Int32, 0, UINT_8, Some(A::UInt8)),
    (P::Int32, 0, INT_16, Some(A::Int16)),
    (P::Int32, 0, UINT_16, Some(A::UInt16)),
    (P::Int32, 0, INT_32, Some(A::Int32)),
    (P::Int32, 0, UINT_32, Some(A::UInt32)),
    (P::Int32, 0, INT_64, None),
    (P::Int32, 0, ODD_INT, None),
    (P::Int32, 0, DECIMAL_9_2, Some(A::Decimal128(9, 2))),
    (P::Int32, 0, DECIMAL_9_128, None),
    (
        P::Int32,
        0,
        DECIMAL_0_MINUS_128,
        Some(A::Decimal128(0, -128)),
    ),
    (P::Int32, 0, DECIMAL_256_0, None),
    (P::Int32, 0, L::Date, Some(A::Date32)),
    (
        P::Int32,
        0,
        TIME_MILLI,
        Some(A::Time32(TimeUnit::Millisecond)),
    ),
    (P::Int32, 0, TIME_MICRO, None),
    (P::Int32, 0, TIME_NANO, None),
    (P::Int32, 0, L::String, None),
    (P::Int32, 0, STAMP_MILLI, None),
    (P::Int32, 0, L::Unknown, Some(A::Null)),
    (P::Int64, 0, INT_64, Some(A::Int64)),
    (P::Int64, 0, UINT_64, Some(A::UInt64)),
    (P::Int64, 0, INT_32, None),
    (P::Int64, 0, TIME_MILLI, None),
    (
        P::Int64,
        0,
        TIME_MICRO,
        Some(A::Time64(TimeUnit::Microsecond)),
    ),
    (
        P::Int64,
        0,
        TIME_NANO,
        Some(A::Time64(TimeUnit::Nanosecond)),
    ),
    (P::Int64, 0, STAMP_MILLI, Some(MILLI_UTC)),
    (P::Int64, 0, LOCAL_MILLI, Some(MILLI)),
    (P::Int64, 0, STAMP_MICRO, Some(MICRO_UTC)),
    (P::Int64, 0, LOCAL_MICRO, Some(MICRO)),
    (P::Int64, 0, STAMP_NANO, Some(NANO_UTC)),
    (P::Int64, 0, LOCAL_NANO, Some(NANO)),
    (P::Int64, 0, DECIMAL_18_4, Some(A::Decimal128(18, 4))),
    (P::Int64, 0, L::Date, None),
    (BYTES, 0, L::String, Some(A::Utf8)),
    (BYTES, 0, L::Json, Some(A::Utf8)),
    (BYTES, 0, L::Bson, Some(A::Binary)),
    (BYTES, 0, L::Enum, Some(A::Binary)),
    (BYTES, 0, DECIMAL_38_10, Some(A::Decimal128(38, 10))),
    (BYTES, 0, DECIMAL_39_10, Some(A::Decimal256(39, 10))),
    (BYTES, 0, L::Uuid, None),
    (BYTES, 0, L::Date, None),
    (FIXED, 16, DECIMAL_38_0, Some(A::Decimal128(38, 0))),
    (FIXED, 17, DECIMAL_38_0, Some(A::Decimal256(38, 0))),
    (FIXED, 32, DECIMAL_76_5, Some(A::Decimal256(76, 5))),
    (FIXED, 33, DECIMAL_38_0, None),
    (FIXED, 0, DECIMAL_1_0, None),
    (FIXED, 2, L::Float16, Some(A::Float16)),
    (FIXED, 3, L::Float16, None),
    (FIXED, 16, L::Uuid, Some(A::FixedSizeBinary(16))),
    (FIXED, 5, L::String, Some(A::FixedSizeBinary(5))),
    (P::Boolean, 0, L::Date, Some(A::Boolean)),
    (P::Boolean, 0, L::Unknown, Some(A::Null)),
    (P::Int96, 0, STAMP_MILLI, Some(NANO)),
    (P::Float, 0, L::String, Some(A::Float32)),
    (P::Double, 0, DECIMAL_1_0, Some(A::Float64)),
];

// A leaf by its physical type, length and converted type, with the scale 2 and the precision 9.
const BY_CONVERTED: [(P, i32, Option<C>, Option<A>); 40] = [
    (P::Int32, 0, None, Some(A::Int32)),
    (P::Int32, 0, Some(C::UInt8), Some(A::UInt8)),
    (P::Int32, 0, Some(C::UInt16), Some(A::UInt16)),
    (P::Int32, 0, Some(C::UInt32), Some(A::UInt32)),
    (P::Int32, 0, Some(C::Int8), Some(A::Int8)),
    (P::Int32, 0, Some(C::Int16), Some(A::Int16)),
    (P::Int32, 0, Some(C::Int32), Some(A::Int32)),
    (P::Int32, 0, Some(C::Date), Some(A::Date32)),
    (P::Int32, 0, Some(C::TimeMillis), Some(TIME32)),
    (P::Int32, 0, Some(C::Decimal), Some(A::Decimal128(9, 2))),
    (P::Int32, 0, Some(C::Utf8), None),
    (P::Int32, 0, Some(C::List), None),
    (P::Int64, 0, None, Some(A::Int64)),
    (P::Int64, 0, Some(C::Int64), Some(A::Int64)),
    (P::Int64, 0, Some(C::UInt64), Some(A::UInt64)),
    (P::Int64, 0, Some(C::TimeMicros), Some(TIME64)),
    (P::Int64, 0, Some(C::TimestampMillis), Some(MILLI_UTC)),
    (P::Int64, 0, Some(C::TimestampMicros), Some(MICRO_UTC)),
    (P::Int64, 0, Some(C::Decimal), Some(A::Decimal128(9, 2))),
    (P::Int64, 0, Some(C::Date), None),
    (P::Int64, 0, Some(C::Map), None),
    (BYTES, 0, None, Some(A::Binary)),
    (BYTES, 0, Some(C::Json), Some(A::Utf8)),
    (BYTES, 0, Some(C::Bson), Some(A::Binary)),
    (BYTES, 0, Some(C::Enum), Some(A::Binary)),
    (BYTES, 0, Some(C::Utf8), Some(A::Utf8)),
    (BYTES, 0, Some(C::Decimal), Some(A::Decimal128(9, 2))),
    (BYTES, 0, Some(C::Int8), None),
    (BYTES, 0, Some(C::MapKeyValue), None),
    (FIXED, 16, Some(C::Decimal), Some(A::Decimal128(9, 2))),
    (FIXED, 17, Some(C::Decimal), Some(A::Decimal256(9, 2))),
    (FIXED, 33, Some(C::Decimal), None),
    (FIXED, 12, Some(C::Interval), Some(DAY_TIME)),
    (FIXED, 11, Some(C::Interval), None),
    (FIXED, 7, None, Some(A::FixedSizeBinary(7))),
    (FIXED, -1, Some(C::Utf8), Some(A::FixedSizeBinary(-1))),
    (P::Boolean, 0, None, Some(A::Boolean)),
    (P::Int96, 0, None, Some(NANO)),
    (P::Float, 0, None, Some(A::Float32)),
    (P::Double, 0, None, Some(A::Float64)),
];

// A leaf of 12 bytes, a hint, and what the leaf is under it.
const HINTED_LOGICAL: [(P, L, A, A); 23] = [
    (P::Int64, STAMP_MICRO, MICRO_CET, MICRO_CET),
    (P::Int64, LOCAL_MICRO, MICRO_CET, MICRO_CET),
    (P::Int64, STAMP_MICRO, MICRO, MICRO_UTC),
    (P::Int64, LOCAL_MICRO, MILLI_CET, MICRO),
    (P::Int64, LOCAL_NANO, SECOND, NANO),
    (P::Int64, LOCAL_NANO, MILLI, NANO),
    (P::Int64, LOCAL_NANO, MICRO, NANO),
    (P::Int64, LOCAL_NANO, MILLI_CET, NANO),
    (BYTES, L::String, A::LargeUtf8, A::LargeUtf8),
    (BYTES, L::String, A::Utf8View, A::Utf8View),
    (BYTES, L::Bson, A::Utf8, A::Utf8),
    (BYTES, L::Enum, A::Utf8, A::Utf8),
    (BYTES, L::String, A::Binary, A::Utf8),
    (
        P::Int32,
        DECIMAL_9_2,
        A::Decimal64(9, 3),
        A::Decimal128(9, 2),
    ),
    (
        P::Int32,
        DECIMAL_9_2,
        A::Decimal64(9, 2),
        A::Decimal64(9, 2),
    ),
    (
        P::Int32,
        DECIMAL_9_2,
        A::Decimal32(9, 2),
        A::Decimal32(9, 2),
    ),
    (
        P::Int32,
        DECIMAL_9_2,
        A::Decimal32(3, 2),
        A::Decimal32(3, 2),
    ),
    (
        P::Int32,
        DECIMAL_9_2,
        A::Decimal32(9, -2),
        A::Decimal128(9, 2),
    ),
    (
        P::Int32,
        DECIMAL_9_2,
        A::Decimal256(40, 2),
        A::Decimal256(40, 2),
    ),
    (
        P::Int32,
        DECIMAL_9_2,
        A::Decimal256(40, 0),
        A::Decimal128(9, 2),
    ),
    (
        P::Int32,
        DECIMAL_9_2,
        A::Decimal128(10, 2),
        A::Decimal128(9, 2),
    ),
    (
        BYTES,
        DECIMAL_39_10,
        A::Decimal64(9, 10),
        A::Decimal256(39, 10),
    ),
    (FIXED, L::Uuid, A::Utf8, A::FixedSizeBinary(12)),
];

// The same, by its converted type.
const HINTED_CONVERTED: [(P, Option<C>, A, A); 26] = [
    (P::Int32, None, MILLI, MILLI),
    (P::Int64, None, NANO_CET, NANO_CET),
    (
        P::Int32,
        None,
        A::Time32(TimeUnit::Second),
        A::Time32(TimeUnit::Second),
    ),
    (
        P::Int32,
        None,
        A::Time32(TimeUnit::Nanosecond),
        A::Time32(TimeUnit::Nanosecond),
    ),
    (P::Int32, None, TIME64, A::Int32),
    (P::Int64, None, TIME64, TIME64),
    (
        P::Int64,
        None,
        A::Duration(TimeUnit::Second),
        A::Duration(TimeUnit::Second),
    ),
    (P::Int64, None, A::Date64, A::Date64),
    (P::Int32, Some(C::Date), A::Date64, A::Date64),
    (
        P::Int32,
        Some(C::TimeMillis),
        A::Time32(TimeUnit::Second),
        TIME32,
    ),
    (P::Int96, None, SECOND, SECOND),
    (P::Int96, None, MILLI, MILLI),
    (P::Int96, None, MICRO, MICRO),
    (P::Int96, None, MILLI_CET, MILLI_CET),
    (P::Int96, None, NANO_CET, NANO_CET),
    (P::Int96, None, A::Date64, NANO),
    (BYTES, None, A::LargeBinary, A::LargeBinary),
    (BYTES, None, A::BinaryView, A::BinaryView),
    (BYTES, None, A::Utf8, A::Utf8),
    (BYTES, None, A::LargeUtf8, A::LargeUtf8),
    (BYTES, None, A::Utf8View, A::Utf8View),
    (
        FIXED,
        Some(C::Interval),
        A::Interval(IntervalUnit::YearMonth),
        A::Interval(IntervalUnit::YearMonth),
    ),
    (
        FIXED,
        Some(C::Interval),
        A::Interval(IntervalUnit::DayTime),
        A::Interval(IntervalUnit::DayTime),
    ),
    (
        FIXED,
        Some(C::Interval),
        A::Interval(IntervalUnit::MonthDayNano),
        A::Interval(IntervalUnit::MonthDayNano),
    ),
    (P::Boolean, None, A::Int8, A::Boolean),
    (P::Double, None, A::Struct, A::Float64),
];

// A leaf, three hint rows with their sizes, and what the leaf is under the first.
const DICTIONARIES: [(P, L, [A; 3], [usize; 3], A); 15] = [
    (BYTES, L::String, [DICT, A::Utf8, A::Null], [2, 1, 1], DICT),
    (
        BYTES,
        L::String,
        [DICT, A::LargeUtf8, A::Null],
        [2, 1, 1],
        DICT,
    ),
    (BYTES, L::String, [DICT, DICT, VIEW], [3, 2, 1], DICT),
    (
        BYTES,
        L::String,
        [DICT, A::Binary, A::Null],
        [2, 1, 1],
        A::Utf8,
    ),
    (P::Int32, INT_32, [DICT, DICT, VIEW], [3, 2, 1], A::Int32),
    (
        P::Int32,
        DECIMAL_9_2,
        [DICT, SMALL_3, A::Null],
        [2, 1, 1],
        A::Decimal128(9, 2),
    ),
    (
        P::Int32,
        DECIMAL_9_2,
        [DICT, SMALL_2, A::Null],
        [2, 1, 1],
        DICT,
    ),
    (
        P::Int32,
        DECIMAL_9_2,
        [DICT, DICT, SMALL_2],
        [3, 2, 1],
        DICT,
    ),
    (
        P::Int64,
        STAMP_MICRO,
        [DICT, MICRO_TEXT, A::Null],
        [2, 1, 1],
        DICT,
    ),
    (
        P::Int64,
        LOCAL_NANO,
        [DICT, MILLI, A::Null],
        [2, 1, 1],
        NANO,
    ),
    (
        P::Int96,
        L::Date,
        [DICT, MILLI_CET, A::Null],
        [2, 1, 1],
        DICT,
    ),
    (P::Int96, L::Date, [DICT, NANO, A::Null], [2, 1, 1], DICT),
    (
        BYTES,
        L::String,
        [DICT, A::Utf8, A::Null],
        [1, 1, 1],
        A::Utf8,
    ),
    (
        BYTES,
        L::String,
        [DICT, A::Utf8, A::Utf8],
        [3, 1, 1],
        A::Utf8,
    ),
    (
        BYTES,
        L::String,
        [DICT, A::List, A::Utf8],
        [3, 2, 1],
        A::Utf8,
    ),
];

// Hint rows with their sizes, how many of them there are, and whether they are a hint.
const SHAPES: [([A; 3], [usize; 3], usize, bool); 30] = [
    ([A::Null, A::Null, A::Null], [1, 1, 1], 0, true),
    ([A::Int8, A::Null, A::Null], [1, 1, 1], 1, true),
    ([A::Struct, A::Null, A::Null], [1, 1, 1], 1, true),
    ([A::Struct, A::Int8, A::Utf8], [3, 1, 1], 3, true),
    ([A::List, A::Int8, A::Null], [2, 1, 1], 2, true),
    ([A::List, A::Null, A::Null], [1, 1, 1], 1, false),
    ([A::List, A::Int8, A::Int8], [3, 1, 1], 3, false),
    ([A::LargeList, A::Int8, A::Null], [2, 1, 1], 2, true),
    ([A::LargeList, A::Null, A::Null], [1, 1, 1], 1, false),
    ([A::LargeList, A::Int8, A::Int8], [3, 1, 1], 3, false),
    ([A::ListView, A::Int8, A::Null], [2, 1, 1], 2, true),
    ([A::ListView, A::Null, A::Null], [1, 1, 1], 1, false),
    ([A::ListView, A::Int8, A::Int8], [3, 1, 1], 3, false),
    ([A::LargeListView, A::Int8, A::Null], [2, 1, 1], 2, true),
    ([A::LargeListView, A::Null, A::Null], [1, 1, 1], 1, false),
    ([A::LargeListView, A::Int8, A::Int8], [3, 1, 1], 3, false),
    ([A::FixedSizeList(4), A::Int8, A::Null], [2, 1, 1], 2, true),
    ([A::FixedSizeList(4), A::Null, A::Null], [1, 1, 1], 1, false),
    ([A::FixedSizeList(4), A::Int8, A::Int8], [3, 1, 1], 3, false),
    ([A::Map(true), A::Int8, A::Null], [2, 1, 1], 2, true),
    ([A::Map(true), A::Null, A::Null], [1, 1, 1], 1, false),
    ([A::Map(true), A::Int8, A::Int8], [3, 1, 1], 3, false),
    ([DICT, A::Int8, A::Null], [2, 1, 1], 2, true),
    ([DICT, A::Null, A::Null], [1, 1, 1], 1, false),
    ([DICT, A::Int8, A::Int8], [3, 1, 1], 3, false),
    ([A::Int8, A::Int8, A::Null], [2, 1, 1], 2, false),
    ([A::Int8, A::Int8, A::Null], [1, 1, 1], 2, false),
    ([A::Struct, A::Null, A::Null], [2, 1, 1], 1, false),
    ([A::Struct, A::List, A::Int8], [3, 2, 1], 3, true),
    ([A::Struct, A::Utf8, A::Int8], [3, 2, 1], 3, false),
];

// A name by its start and length, and whether it lies inside the text.
const NAMES: [(usize, usize, bool); 7] = [
    (0, 0, true),
    (12, 0, true),
    (0, 12, true),
    (13, 0, false),
    (1, 12, false),
    (usize::MAX, 1, false),
    (1, usize::MAX, false),
];

// A zone in the text, likewise.
const ZONES: [(usize, usize, bool); 6] = [
    (0, 3, true),
    (11, 1, true),
    (11, 0, false),
    (11, 2, false),
    (12, 1, false),
    (2, usize::MAX, false),
];

fn is(answer: Result<A, Refusal>, own: Option<A>) -> bool {
    match (answer, own) {
        (Ok(a), Some(b)) => same_type(a, b, &TEXT),
        (Err(e), None) => e.number() == 22,
        _ => false,
    }
}

fn leaf(physical: P, type_length: i32, logical: Option<L>, converted: Option<C>) -> Leaf {
    Leaf {
        physical,
        type_length,
        scale: 2,
        precision: 9,
        converted,
        logical,
    }
}

fn hint_of(data_type: A, size: usize) -> HintRow {
    let name = TextPlace {
        start: 0,
        length: 0,
    };
    HintRow {
        name,
        data_type,
        nullable: true,
        metadata: 0,
        size,
    }
}

fn beside_text(rows: &[HintRow]) -> HintSchema<'_> {
    HintSchema { rows, text: &TEXT }
}

fn hints_of(types: [A; 3], sizes: [usize; 3]) -> [HintRow; 3] {
    array::from_fn(|i| hint_of(types[i], sizes[i]))
}

#[test]
fn types_by_annotation(rt: HostRuntime) {
    for &(physical, length, logical, own) in BY_LOGICAL.iter() {
        let leaf = leaf(physical, length, Some(logical), Some(C::Utf8));
        assert!(rt; is(convert_primitive(&leaf, 3, beside_text(&[]), None), own));
    }
    for &(physical, length, converted, own) in BY_CONVERTED.iter() {
        let leaf = leaf(physical, length, None, converted);
        assert!(rt; is(convert_primitive(&leaf, 3, beside_text(&[]), None), own));
    }
    let leaf = leaf(P::Int32, 0, None, Some(C::Utf8));
    assert!(rt;
        matches!(
            convert_primitive(&leaf, 7, beside_text(&[]), None),
            Err(Refusal::LeafType(7))
        )
    );
}

#[test]
fn types_under_hints(rt: HostRuntime) {
    for &(physical, logical, hint, own) in HINTED_LOGICAL.iter() {
        let leaf = leaf(physical, 12, Some(logical), None);
        let hints = [hint_of(hint, 1)];
        assert!(rt;
            is(
                convert_primitive(&leaf, 3, beside_text(&hints), Some(0)),
                Some(own),
            )
        );
    }
    for &(physical, converted, hint, own) in HINTED_CONVERTED.iter() {
        let leaf = leaf(physical, 12, None, converted);
        let hints = [hint_of(hint, 1)];
        assert!(rt;
            is(
                convert_primitive(&leaf, 3, beside_text(&hints), Some(0)),
                Some(own),
            )
        );
    }
}

#[test]
fn dictionaries_and_zones(rt: HostRuntime) {
    for &(physical, logical, types, sizes, own) in DICTIONARIES.iter() {
        let leaf = leaf(physical, 0, Some(logical), None);
        let hints = hints_of(types, sizes);
        assert!(rt;
            is(
                convert_primitive(&leaf, 3, beside_text(&hints), Some(0)),
                Some(own),
            )
        );
    }
    // a nested dictionary goes by its own row, and a row past the last is no hint
    let hints = hints_of([DICT, DICT, VIEW], [3, 2, 1]);
    let leaf = leaf(BYTES, 0, Some(L::String), None);
    assert!(rt;
        is(
            convert_primitive(&leaf, 3, beside_text(&hints), Some(1)),
            Some(A::Dictionary(1)),
        )
    );
    assert!(rt;
        is(
            convert_primitive(&leaf, 3, beside_text(&hints), Some(3)),
            Some(A::Utf8),
        )
    );
    // zones are compared as they are spelled
    assert!(rt; same_type(MICRO_UTC, MICRO_TEXT, &TEXT));
    assert!(rt; !same_type(MICRO_UTC, MICRO_CET, &TEXT));
    assert!(rt; !same_type(MICRO_UTC, MICRO, &TEXT));
    assert!(rt; !same_type(MICRO_UTC, MICRO_TEXT, &TEXT[..8]));
}

fn accepts_first(rows: &[HintRow], count: usize) -> bool {
    count <= rows.len() && check_hints(beside_text(&rows[..count]))
}

fn accepts_place(name: TextPlace, zone: Option<Zone>) -> bool {
    let data_type = A::Timestamp(TimeUnit::Second, zone);
    check_hints(beside_text(&[HintRow {
        name,
        data_type,
        nullable: true,
        metadata: 0,
        size: 1,
    }]))
}

// A list of lists, down to one row with nothing below.
fn chain(rows: &mut [HintRow]) {
    let n = rows.len();
    for (i, row) in rows.iter_mut().enumerate() {
        *row = hint_of(if i + 1 < n { A::List } else { A::Null }, n - i);
    }
}

#[test]
fn hint_rows(rt: HostRuntime) {
    for &(types, sizes, count, kept) in SHAPES.iter() {
        assert!(rt; accepts_first(&hints_of(types, sizes), count) == kept);
    }
    let none = TextPlace {
        start: 0,
        length: 0,
    };
    for &(start, length, kept) in NAMES.iter() {
        assert!(rt; accepts_place(TextPlace { start, length }, None) == kept);
    }
    for &(start, length, kept) in ZONES.iter() {
        assert!(rt; accepts_place(none, Some(Zone::Text(TextPlace { start, length }))) == kept);
    }
    assert!(rt; !accepts_place(none, Some(Zone::Utc)));
    let mut deepest = [hint_of(A::Null, 1); 129];
    chain(&mut deepest);
    assert!(rt; check_hints(beside_text(&deepest)));
    let mut too_deep = [hint_of(A::Null, 1); 130];
    chain(&mut too_deep);
    assert!(rt; !check_hints(beside_text(&too_deep)));
    let mut most = [hint_of(A::Null, 1); 4096];
    most[0] = hint_of(A::Struct, 4096);
    assert!(rt; check_hints(beside_text(&most)));
    let mut many = [hint_of(A::Null, 1); 4097];
    many[0] = hint_of(A::Struct, 4097);
    assert!(rt; !check_hints(beside_text(&many)));
}
