// Ops 11 and 12: the departure time of a Delay_Req in its correctionField, and back out of it. A field stays the 64-bit
// pattern that it is given as, since a sum of patterns modulo 2^64 is the pattern of the sum. Each op makes its own
// checks, and is the model's (specs/Departure.antt). Document 02, A.7; sheet 000, 6.13.7.3.2.
#![tactic(auto)]

ghost use Rattle.std.specs.Prelude.{◌≡◌, ◌^◌, ◌<◌, true, pos, ◌+ℤ◌};
ghost use Rattle.model.specs.Departure.{signed, fits64, departure as departure_spec, four_words, seconds_since};
ghost use Rattle.model.specs.Ranges.{valid};
ghost use Rattle.model.specs.Bounds.{ClockRange};
ghost use Rattle.model.specs.Execute.{execute};
ghost use Rattle.change.specs.Changes.{Gives};

use bits::field;
use change::{Change, Refusal, change_to, ensure};
use model::{Clock, Command, Engine, NS_PER_SECOND, SECONDS_LIMIT, Words};
use words::time_words;

// The sign bit of a field.
const SIGN: u64 = 0x8000_0000_0000_0000;

// The 2^-16 ns in a nanosecond.
const UNITS: u64 = 0x1_0000;

// The low four bits of the shown seconds and the shown ns, in 2^-16 ns.
fn departure(k: Clock) -> u64
    requires { ClockRange k }
    ensures { result ≡ departure_spec k }
{
    (k.seconds % 16 * NS_PER_SECOND + k.nanoseconds) * UNITS
}

// Whether a field stays within 64 signed bits with so much added; a negative one does.
fn stays_signed(field: u64, added: u64) -> bool
    requires { added < 2 ^ 50 }
    ensures { result ≡ fits64 (signed field +ℤ pos added) }
{
    SIGN <= field || field + added < SIGN
}

// A pattern as four words, lowest first.
fn four_words(p: u64) -> Words
    ensures { result ≡ four_words p }
{
    Words {
        w1: field(p, 0, 16),
        w2: field(p, 16, 16),
        w3: field(p, 32, 16),
        w4: field(p, 48, 16),
        w5: 0,
    }
}

// Op 11 on a valid record.
pub fn depart(e: Engine, c: Command) -> Result<Change, Refusal>
    requires e_value { valid e ≡ true }
    requires op_value { c.op ≡ 11 }
    ensures { Gives e c (execute e c) result }
{
    ensure(fields::depart_fields(c), Refusal::Fields)?;
    let added = departure(e.clock);
    ensure(stays_signed(c.a, added), Refusal::FieldFull)?;
    let words = four_words(c.a.wrapping_add(added));
    Ok(change_to(words, e, false))
}

// From the software second a on to the field's: its seconds without the low four bits of a, and 16 more where that is
// negative.
fn seconds_since(a: u64, seconds: u64) -> u64
    requires { seconds < 2 ^ 48 }
    ensures { result ≡ seconds_since a seconds }
{
    let low = a % 16;
    if seconds < low {
        seconds + 16 - low
    } else {
        seconds - low
    }
}

// Op 12 on a valid record.
pub fn recover(e: Engine, c: Command) -> Result<Change, Refusal>
    requires e_value { valid e ≡ true }
    requires op_value { c.op ≡ 12 }
    ensures { Gives e c (execute e c) result }
{
    ensure(fields::recover_fields(c), Refusal::Fields)?;
    ensure(c.b < SIGN, Refusal::NoDeparture)?;
    let ns = c.b / UNITS;
    let seconds = c.a + seconds_since(c.a, ns / NS_PER_SECOND);
    ensure(seconds < SECONDS_LIMIT, Refusal::NoDeparture)?;
    let time = time_words(seconds, ns % NS_PER_SECOND, 0);
    Ok(change_to(time, e, false))
}
