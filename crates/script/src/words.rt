// The words of a line, and what each kind of word stands for.
ghost use Rattle.std.specs.Prelude.{◌≡◌, ℕ, cond, List, [], ◌∷◌, ◌++◌, Some, None, codes, MatchOption, Option, is_none, Ok, Err, IsUtf8};
ghost use Rattle.std.specs.Int.{w8, w32};
ghost use Rattle.std.specs.Option.{option_map, unwrap_or};
ghost use Rattle.std.specs.Iterator.{at_most};
ghost use Rattle.script.specs.Cuts.{Lacks, Next, Parts, most_words};
ghost use Rattle.script.specs.declared.words.Clock.TheVariants.{Utc, Local};
ghost use Rattle.script.specs.Spelling.{NumberSpelled, OptionalSpelled, repetition_word, annotation_word, physical_word, converted_word, unit_word, sign_word, clock_word, PayloadSpelled, SpelledInParts, LogicalSpelled, Read};

use schema::{Annotation, ConvertedType, LogicalType, PhysicalType, Repetition, TimeUnit};
use std::str::{FromStr, from_utf8};

// What stands before the first such byte and what stands after it, if there is one.
fn cut(text: &[u8], byte: u8) -> Option<(&[u8], &[u8])>
    ensures cases { MatchOption result (Lacks byte text.now) (λ p. Lacks byte p.0.now × (text.now ≡ p.0.now ++ (byte ∷ p.1.now))) }
{
    let at = text.iter().position(|b| *b == byte)?;
    Some((&text[..at], &text[at + 1..]))
}

// A line that is read word by word. One space stands between two words.
#[derive(Drop)]
pub struct Words<'a> {
    // none once the last word is read
    rest: Option<&'a [u8]>,
}

impl<'a> Words<'a> {
    pub fn new(line: &'a [u8]) -> Words<'a> {
        Words { rest: Some(line) }
    }

    // The next word, if it is text.
    pub fn word(&mut self) -> Option<&'a str> {
        from_utf8(self.next()?).ok()
    }

    // Whether the last word has been read.
    pub fn is_done(&self) -> bool
        ensures done { result ≡ is_none self.now.rest }
    {
        self.rest.is_none()
    }

    // What the next word stands for.
    pub fn read<T: FromWord>(&mut self) -> Option<T> {
        T::from_word(self.word()?)
    }

    // The rest of the line, which is a name: it may hold spaces, and may be empty.
    pub fn name(self) -> &'a [u8]
        ensures name { result.now ≡ unwrap_or (option_map (λ x. x.now) self.entry.rest) [] }
    {
        self.rest.unwrap_or(&[])
    }
}

impl<'a> Iterator for Words<'a> {
    type Item = &'a [u8];

    ghost next_gives = { λ s r t. MatchOption r (s.rest ≡ None) (λ w. Next (option_map (λ x. x.now) s.rest) w.now (option_map (λ x. x.now) t.rest)) };

    ghost remaining = { λ s. at_most (most_words (option_map (λ x. x.now) s.rest)) };

    fn next(&mut self) -> Option<&'a [u8]> {
        let text = self.rest?;
        match cut(text, b' ') {
            Some((word, rest)) => {
                self.rest = Some(rest);
                Some(word)
            }
            None => {
                self.rest = None;
                Some(text)
            }
        }
    }
}

// The number that a word spells, if it spells one.
pub fn number<T: FromStr>(word: &[u8]) -> Option<T>
where
    T::Err: Drop,
    ensures spelled { MatchOption result (IsUtf8 word.now → (e : T.Err) × T.from_str_gives word.now (Err e)) (λ n. IsUtf8 word.now × T.from_str_gives word.now (Ok n)) }
{
    from_utf8(word).ok()?.parse::<T>().ok()
}

// What one word can stand for.
pub trait FromWord {
    // that a word stands for a value
    ghost spells: { List ℕ → Self → Type 0 };

    fn from_word(word: &str) -> Option<Self>
    where
        Self: Sized,
        ensures read { Read (spells word.now) result };
}

// What a word stands for, where one word stands for what is absent.
fn optional<T: FromWord>(word: &str, absent: &str) -> Option<Option<T>>
    ensures read { MatchOption result ((x : Option T) → OptionalSpelled absent.now T.FromWord.spells word.now x → ⊥) (λ x. OptionalSpelled absent.now T.FromWord.spells word.now x) }
{
    if word == absent {
        return Some(None);
    }
    Some(Some(T::from_word(word)?))
}

// `-` stands for what is absent.
impl<T: FromWord> FromWord for Option<T> {
    ghost spells = { λ w x. OptionalSpelled (codes "-") T.FromWord.spells w x };

    fn from_word(word: &str) -> Option<Option<T>> {
        optional(word, "-")
    }
}

// What the format may leave out, which the word `none` stands for.
#[derive(Clone, Copy)]
pub struct OrNone<T>(pub Option<T>);

impl<T: FromWord> FromWord for OrNone<T> {
    ghost spells = { λ w x. OptionalSpelled (codes "none") T.FromWord.spells w x.0 };

    fn from_word(word: &str) -> Option<OrNone<T>> {
        Some(OrNone(optional(word, "none")?))
    }
}

// i8 and i32 differ in their width alone. An impl for both at once would need a trait that names the width, which is longer
// than the second impl.
impl FromWord for i8 {
    ghost spells = { λ w x. NumberSpelled w8 w x };

    fn from_word(word: &str) -> Option<i8> {
        word.parse::<i8>().ok()
    }
}

impl FromWord for i32 {
    ghost spells = { λ w x. NumberSpelled w32 w x };

    fn from_word(word: &str) -> Option<i32> {
        word.parse::<i32>().ok()
    }
}

impl FromWord for Repetition {
    ghost spells = { λ w x. w ≡ repetition_word x };

    fn from_word(word: &str) -> Option<Repetition> {
        match word {
            "required" => Some(Repetition::Required),
            "optional" => Some(Repetition::Optional),
            "repeated" => Some(Repetition::Repeated),
            _ => None,
        }
    }
}

impl FromWord for Annotation {
    ghost spells = { λ w x. w ≡ annotation_word (Some x) };

    fn from_word(word: &str) -> Option<Annotation> {
        match word {
            "list" => Some(Annotation::List),
            "map" => Some(Annotation::Map),
            "map_key_value" => Some(Annotation::MapKeyValue),
            _ => None,
        }
    }
}

impl FromWord for PhysicalType {
    ghost spells = { λ w x. w ≡ physical_word x };

    fn from_word(word: &str) -> Option<PhysicalType> {
        match word {
            "boolean" => Some(PhysicalType::Boolean),
            "int32" => Some(PhysicalType::Int32),
            "int64" => Some(PhysicalType::Int64),
            "int96" => Some(PhysicalType::Int96),
            "float" => Some(PhysicalType::Float),
            "double" => Some(PhysicalType::Double),
            "byte_array" => Some(PhysicalType::ByteArray),
            "fixed_len_byte_array" => Some(PhysicalType::FixedLenByteArray),
            _ => None,
        }
    }
}

impl FromWord for ConvertedType {
    ghost spells = { λ w x. w ≡ converted_word x };

    fn from_word(word: &str) -> Option<ConvertedType> {
        match word {
            "utf8" => Some(ConvertedType::Utf8),
            "map" => Some(ConvertedType::Map),
            "map_key_value" => Some(ConvertedType::MapKeyValue),
            "list" => Some(ConvertedType::List),
            "enum" => Some(ConvertedType::Enum),
            "decimal" => Some(ConvertedType::Decimal),
            "date" => Some(ConvertedType::Date),
            "time_millis" => Some(ConvertedType::TimeMillis),
            "time_micros" => Some(ConvertedType::TimeMicros),
            "timestamp_millis" => Some(ConvertedType::TimestampMillis),
            "timestamp_micros" => Some(ConvertedType::TimestampMicros),
            "uint_8" => Some(ConvertedType::UInt8),
            "uint_16" => Some(ConvertedType::UInt16),
            "uint_32" => Some(ConvertedType::UInt32),
            "uint_64" => Some(ConvertedType::UInt64),
            "int_8" => Some(ConvertedType::Int8),
            "int_16" => Some(ConvertedType::Int16),
            "int_32" => Some(ConvertedType::Int32),
            "int_64" => Some(ConvertedType::Int64),
            "json" => Some(ConvertedType::Json),
            "bson" => Some(ConvertedType::Bson),
            "interval" => Some(ConvertedType::Interval),
            _ => None,
        }
    }
}

impl FromWord for TimeUnit {
    ghost spells = { λ w x. w ≡ unit_word x };

    fn from_word(word: &str) -> Option<TimeUnit> {
        match word {
            "millis" => Some(TimeUnit::Millis),
            "micros" => Some(TimeUnit::Micros),
            "nanos" => Some(TimeUnit::Nanos),
            _ => None,
        }
    }
}

// Whether an integer has a sign.
#[derive(Clone, Copy)]
enum Sign {
    Signed,
    Unsigned,
}

impl FromWord for Sign {
    ghost spells = { λ w x. w ≡ sign_word x };

    fn from_word(word: &str) -> Option<Sign> {
        match word {
            "signed" => Some(Sign::Signed),
            "unsigned" => Some(Sign::Unsigned),
            _ => None,
        }
    }
}

// The clock that a time is told by.
#[derive(Clone, Copy)]
enum Clock {
    Utc,
    Local,
}

impl FromWord for Clock {
    ghost spells = { λ w x. w ≡ clock_word x };

    fn from_word(word: &str) -> Option<Clock> {
        match word {
            "utc" => Some(Clock::Utc),
            "local" => Some(Clock::Local),
            _ => None,
        }
    }
}

// The parts of `kind(first,second)`.
#[derive(Clone, Copy)]
struct WordParts<'a> {
    kind: &'a str,
    first: &'a str,
    second: &'a str,
}

impl<'a> WordParts<'a> {
    fn parse(word: &'a str) -> Option<WordParts<'a>>
        ensures parts { MatchOption result ((kind first second : List ℕ) → Parts word.now kind first second → ⊥) (λ p. Parts word.now p.kind.now p.first.now p.second.now) }
    {
        let (kind, rest) = word.split_once('(')?;
        let (first, second) = rest.strip_suffix(')')?.split_once(',')?;
        Some(WordParts {
            kind,
            first,
            second,
        })
    }

    // What the first and the second part stand for.
    fn both<A: FromWord + Drop, B: FromWord>(self) -> Option<(A, B)>
        ensures both { MatchOption result ((a : A) (b : B) → A.FromWord.spells self.entry.first.now a → B.FromWord.spells self.entry.second.now b → ⊥) (λ p. A.FromWord.spells self.entry.first.now p.0 × B.FromWord.spells self.entry.second.now p.1) }
    {
        let a = A::from_word(self.first)?;
        let b = B::from_word(self.second)?;
        Some((a, b))
    }

    #[tactic(auto, using(crate::proofs::Payloads::no_decimal))]
    fn decimal(self) -> Option<LogicalType>
        ensures read { Read (PayloadSpelled (codes "decimal") self.entry.first.now self.entry.second.now) result }
    {
        let (scale, precision) = self.both::<i32, i32>()?;
        Some(LogicalType::Decimal { scale, precision })
    }

    #[tactic(auto, using(crate::proofs::Payloads::no_integer))]
    fn integer(self) -> Option<LogicalType>
        ensures read { Read (PayloadSpelled (codes "integer") self.entry.first.now self.entry.second.now) result }
    {
        let (bit_width, sign) = self.both::<i8, Sign>()?;
        Some(LogicalType::Integer {
            bit_width,
            is_signed: matches!(sign, Sign::Signed),
        })
    }

    // Whether a time is adjusted to UTC, and its unit.
    fn clock_and_unit(self) -> Option<(bool, TimeUnit)>
        ensures read { MatchOption result ((clock : Clock) (unit : TimeUnit) → self.entry.first.now ≡ clock_word clock → self.entry.second.now ≡ unit_word unit → ⊥) (λ p. (self.entry.first.now ≡ clock_word (cond p.0 Utc Local)) × (self.entry.second.now ≡ unit_word p.1)) }
    {
        let (clock, unit) = self.both::<Clock, TimeUnit>()?;
        Some((matches!(clock, Clock::Utc), unit))
    }

    #[tactic(auto, using(crate::proofs::Payloads::no_time, crate::proofs::Payloads::no_timestamp))]
    fn payload(self) -> Option<LogicalType>
        ensures read { Read (PayloadSpelled self.entry.kind.now self.entry.first.now self.entry.second.now) result }
    {
        match self.kind {
            "decimal" => self.decimal(),
            "integer" => self.integer(),
            "time" => {
                let (is_adjusted_to_utc, unit) = self.clock_and_unit()?;
                Some(LogicalType::Time {
                    is_adjusted_to_utc,
                    unit,
                })
            }
            "timestamp" => {
                let (is_adjusted_to_utc, unit) = self.clock_and_unit()?;
                Some(LogicalType::Timestamp {
                    is_adjusted_to_utc,
                    unit,
                })
            }
            _ => None,
        }
    }
}

// A logical type that has numbers or words of its own.
#[tactic(auto, using(crate::proofs::Payloads::of_parts))]
fn logical_of_parts(word: &str) -> Option<LogicalType>
    ensures read { Read (SpelledInParts word.now) result }
{
    WordParts::parse(word)?.payload()
}

impl FromWord for LogicalType {
    ghost spells = { λ w x. LogicalSpelled w x };

    #[tactic(auto, using(crate::proofs::Payloads::spelled))]
    fn from_word(word: &str) -> Option<LogicalType> {
        match word {
            "unknown" => Some(LogicalType::Unknown),
            "string" => Some(LogicalType::String),
            "enum" => Some(LogicalType::Enum),
            "json" => Some(LogicalType::Json),
            "bson" => Some(LogicalType::Bson),
            "uuid" => Some(LogicalType::Uuid),
            "float16" => Some(LogicalType::Float16),
            "date" => Some(LogicalType::Date),
            _ => logical_of_parts(word),
        }
    }
}
