// One value of a command sheet by itself, in decimal or in base 16, without leading zeros and below 2^64. Each function
// returns a definition of text's specs/Text.antt or of specs/. Document 01, "Command sheet"; document 02, A.6.
#![tactic(auto)]

ghost use Rattle.std.specs.Prelude.{ℕ, ◌≡◌, ◌≤◌};
ghost use Rattle.std.proofs.Common.{arith};
ghost use Rattle.text.specs.Text.{leads_well, value_of};
ghost use Rattle.digits.specs.Digits.{digit_in, digit_after, number_in};

use base_16::read_base_16;

pub mod base_16;

// A base in which values are written, with a test of its own for a digit.
trait Base {
    const BASE: u64;

    ghost BASE: { ℕ };

    // The digit that a byte is in the base, if it is one.
    fn digit(b: u8) -> Option<u64>
        ensures { result ≡ digit_in BASE b };

    ghost some: { 1 ≤ BASE };
}

struct Decimal;

impl Base for Decimal {
    const BASE: u64 = 10;

    ghost BASE = { 10 };

    ghost some = { Prim.omega arith };

    fn digit(b: u8) -> Option<u64> {
        match b {
            b'0'..=b'9' => Some(u64::from(b - b'0')),
            _ => None,
        }
    }
}

// The number v with one more digit, where the byte is one and the number stays below 2^64.
fn next_digit<B: Base>(v: u64, b: u8) -> Option<u64>
    ensures { result ≡ digit_after B.BASE v b }
{
    let digit = B::digit(b)?;
    v.checked_mul(B::BASE)?.checked_add(digit)
}

// Not empty, and a 0 in front only where it stands alone.
fn leads_well(s: &[u8]) -> bool
    ensures { result ≡ leads_well s.now }
{
    match s {
        [] => false,
        [_] => true,
        [first, ..] => *first != b'0',
    }
}

// The digits of a value.
#[tactic(auto, using(crate::proofs::DigitByDigit::number_leads, crate::proofs::DigitByDigit::number_leads_not))]
fn read_digits<B: Base>(s: &[u8]) -> Option<u64>
    ensures { result ≡ number_in B.BASE s.now }
{
    if !leads_well(s) {
        return None;
    }
    let mut v = 0;
    for &b in s {
        v = next_digit::<B>(v, b)?;
    }
    Some(v)
}

// A value in decimal.
#[tactic(auto, using(crate::proofs::DigitByDigit::number_one))]
pub fn read_decimal(s: &[u8]) -> Option<u64>
    ensures { result ≡ number_in 10 s.now }
{
    // Most values of a sheet have one digit.
    if let [b] = s {
        return next_digit::<Decimal>(0, *b);
    }
    read_digits::<Decimal>(s)
}

// One value.
#[tactic(auto, using(crate::proofs::DigitByDigit::value_by_base))]
pub fn read_value(s: &[u8]) -> Option<u64>
    ensures { result ≡ value_of s.now }
{
    read_decimal(s).or_else(|| read_base_16(s))
}
