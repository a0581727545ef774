// When two Arrow types mean the same.
ghost use Rattle.std.specs.Prelude.{◌≡◌, Decides};
ghost use Rattle.arrow.specs.Same.{spelled, same_zone, zone_of, same, meaning, bared};

use crate::types::{ArrowType, Zone};

// How a zone is spelled.
fn spelling<'a>(zone: Zone, text: &'a [u8]) -> &'a [u8]
    ensures { result.now ≡ spelled text.now zone }
{
    match zone {
        Zone::Utc => b"UTC",
        Zone::Text(place) => place.bytes_in(text),
    }
}

fn same_zone(a: Option<Zone>, b: Option<Zone>, text: &[u8]) -> bool
    ensures { result ≡ same_zone text.now a b }
{
    a.map(|zone| spelling(zone, text)) == b.map(|zone| spelling(zone, text))
}

// A type's zone.
pub(crate) fn zone_of(data_type: ArrowType) -> Option<Zone>
    ensures zone { result ≡ zone_of data_type }
{
    match data_type {
        ArrowType::Timestamp(_, zone) => zone,
        _ => None,
    }
}

// A type, its zone aside.
fn bared(data_type: ArrowType) -> ArrowType
    ensures { result ≡ bared data_type }
{
    match data_type {
        ArrowType::Timestamp(unit, _) => ArrowType::Timestamp(unit, None),
        _ => data_type,
    }
}

// Whether two types mean the same: zones are compared as they are spelled, wherever they lie in the hint text. Types
// that hold others are compared by themselves alone, and dictionaries by the numbers of their rows.
pub fn same_type(a: ArrowType, b: ArrowType, text: &[u8]) -> bool
    ensures test { result ≡ same text.now a b }
    ensures means { Decides result (meaning text.now a ≡ meaning text.now b) }
{
    bared(a) == bared(b) && same_zone(zone_of(a), zone_of(b), text)
}
