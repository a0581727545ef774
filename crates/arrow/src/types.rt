// Arrow types.
ghost use Rattle.std.specs.Prelude.{◌≡◌};
ghost use Rattle.arrow.specs.Table.{unit_of};

use schema::{PlaceOf, TimeUnit as ParquetTimeUnit};

#[derive(Clone, Copy, PartialEq, Eq, Debug)]
pub enum TimeUnit {
    Second,
    Millisecond,
    Microsecond,
    Nanosecond,
}

impl From<ParquetTimeUnit> for TimeUnit {
    ghost from_gives = { λ unit r. r ≡ unit_of unit };

    fn from(unit: ParquetTimeUnit) -> TimeUnit {
        match unit {
            ParquetTimeUnit::Millis => TimeUnit::Millisecond,
            ParquetTimeUnit::Micros => TimeUnit::Microsecond,
            ParquetTimeUnit::Nanos => TimeUnit::Nanosecond,
        }
    }
}

#[derive(Clone, Copy, PartialEq, Eq, Debug)]
pub enum IntervalUnit {
    YearMonth,
    DayTime,
    MonthDayNano,
}

// Where bytes lie in the hint text.
pub type TextPlace = PlaceOf<usize>;

// A timestamp's zone. A hint's is a place of the hint text.
#[derive(Clone, Copy, PartialEq, Eq, Debug)]
pub enum Zone {
    Utc,
    Text(TextPlace),
}

// By `==` two zones in the hint text are the same only at the same place: `same_type` compares them as they are spelled.
#[derive(Clone, Copy, PartialEq, Eq, Debug)]
pub enum ArrowType {
    Null,
    Boolean,
    Int8,
    Int16,
    Int32,
    Int64,
    UInt8,
    UInt16,
    UInt32,
    UInt64,
    Float16,
    Float32,
    Float64,
    Utf8,
    LargeUtf8,
    Utf8View,
    Binary,
    LargeBinary,
    BinaryView,
    FixedSizeBinary(i32),
    Date32,
    Date64,
    Time32(TimeUnit),
    Time64(TimeUnit),
    Timestamp(TimeUnit, Option<Zone>),
    Duration(TimeUnit),
    Interval(IntervalUnit),
    // precision and scale
    Decimal32(u8, i8),
    Decimal64(u8, i8),
    Decimal128(u8, i8),
    Decimal256(u8, i8),
    List,
    LargeList,
    ListView,
    LargeListView,
    FixedSizeList(i32),
    Struct,
    // whether the keys are sorted
    Map(bool),
    // in a result, the number of the hint row that has the dictionary; in a hint row the number plays no part
    Dictionary(usize),
}
