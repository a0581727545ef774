// Which decimals a leaf may hold.
ghost use Rattle.std.specs.Prelude.{◌≡◌, ◌+◌, ◌^◌, ◌<◌, ◌≤◌};
ghost use Rattle.schema.specs.Decimals.{greatest, holds, in_bytes, fits, decimal_of, keeps_decimal_rule, keeps_leaf_rules};

use crate::basic::{ConvertedType, LogicalType, PhysicalType};
use crate::element::Leaf;

// For n = 1 to 32, the most digits of which a signed number of n bytes holds every value.
pub const MAX_PRECISION: [u8; 32] = [
    2, 4, 6, 9, 11, 14, 16, 18, 21, 23, 26, 28, 31, 33, 35, 38, 40, 43, 45, 47, 50, 52, 55, 57, 59,
    62, 64, 67, 69, 71, 74, 76,
];

fn max_precision(n: usize) -> u8
    requires { (0 < n) × (n ≤ 32) }
    ensures held { 10 ^ result ≤ greatest n }
    ensures most { greatest n < 10 ^ (result + 1) }
{
    MAX_PRECISION[n - 1]
}

fn held_by(n: usize, digits: u8) -> bool
    requires { (0 < n) × (n ≤ 32) }
    ensures { result ≡ holds n digits }
{
    digits <= max_precision(n)
}

// Whether so many bytes hold so many digits; lengths outside 1 to 32 hold none.
fn held_in(length: i32, digits: u8) -> bool
    ensures { result ≡ in_bytes length digits }
{
    match usize::try_from(length) {
        Ok(n @ 1..=32) => held_by(n, digits),
        _ => false,
    }
}

// Whether a leaf of this physical type and length may be a decimal of this scale and precision.
fn fits_decimal(physical: PhysicalType, length: i32, scale: i32, precision: i32) -> bool
    ensures { result ≡ fits physical length scale precision }
{
    match u8::try_from(precision) {
        Ok(digits @ 1..=76) if (0..=precision).contains(&scale) => match physical {
            PhysicalType::Int32 => digits <= 9,
            PhysicalType::Int64 => digits <= 18,
            PhysicalType::ByteArray => true,
            PhysicalType::FixedLenByteArray => held_in(length, digits),
            _ => false,
        },
        _ => false,
    }
}

impl Leaf {
    // Scale and precision, where the leaf is a decimal: by its logical type, or by its converted type if it has no
    // logical type.
    pub fn decimal(&self) -> Option<(i32, i32)>
        ensures decimal { result ≡ decimal_of self.now }
    {
        match (self.logical, self.converted) {
            (Some(LogicalType::Decimal { scale, precision }), _) => Some((scale, precision)),
            (None, Some(ConvertedType::Decimal)) => Some((self.scale, self.precision)),
            _ => None,
        }
    }

    // Whether the leaf, where it is a decimal, keeps the decimal rule.
    pub fn keeps_decimal_rule(&self) -> bool
        ensures rule { result ≡ keeps_decimal_rule self.now }
    {
        self.decimal().is_none_or(|(scale, precision)| {
            fits_decimal(self.physical, self.type_length, scale, precision)
        })
    }

    // Whether a schema may hold the leaf: its fixed length is not below 0, and it keeps the decimal rule.
    pub fn keeps_rules(&self) -> bool
        ensures rules { result ≡ keeps_leaf_rules self.now }
    {
        match self.physical {
            PhysicalType::FixedLenByteArray if self.type_length < 0 => false,
            _ => self.keeps_decimal_rule(),
        }
    }
}
