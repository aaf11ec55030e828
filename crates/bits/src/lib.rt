// Fields of bits in a number: a shift and a mask take one out, and a shift and an `|` put two together. What they
// mean is plain arithmetic: division, remainder and sum by powers of 2.
#![tactic(auto)]

ghost use Rattle.std.specs.Prelude.{◌≡◌, ◌+◌, ◌*◌, ◌/◌, ◌%◌, ◌^◌, ◌<◌};

// Bits low to low + width - 1 of x.
#[tactic(auto, using(crate::proofs::Masks::and_ones))]
pub fn field(x: u64, low: u64, width: u64) -> u64
    requires { (low < 64) × (width < 64) }
    ensures { result ≡ x / 2 ^ low % 2 ^ width }
{
    (x >> low) & ((1u64 << width) - 1)
}

// The number with high above the k bits of low.
#[tactic(auto, using(crate::proofs::Masks::or_shifted_low))]
pub fn join(high: u64, low: u64, k: u64) -> u64
    requires { (k < 64) × (low < 2 ^ k) × (high * 2 ^ k < 2 ^ 64) }
    ensures { result ≡ high * 2 ^ k + low }
{
    (high << k) | low
}
