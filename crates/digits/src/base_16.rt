// A value in base 16: 0x and lower-case digits. Document 02, A.6.
ghost use Rattle.std.specs.Prelude.{◌≡◌};
ghost use Rattle.std.proofs.Common.{arith};
ghost use Rattle.digits.specs.Digits.{base16_in};

use crate::{Base, read_digits};

struct Base16;

impl Base for Base16 {
    const BASE: u64 = 16;

    ghost BASE = { 16 };

    ghost some = { Prim.omega arith };

    fn digit(b: u8) -> Option<u64> {
        match b {
            b'0'..=b'9' => Some(u64::from(b - b'0')),
            b'a'..=b'f' => Some(u64::from(b - b'a') + 10),
            _ => None,
        }
    }
}

// A value in base 16, as what is none in decimal may be.
pub fn read_base_16(s: &[u8]) -> Option<u64>
    ensures { result ≡ base16_in s.now }
{
    match s {
        [b'0', b'x', digits @ ..] => read_digits::<Base16>(digits),
        _ => None,
    }
}
