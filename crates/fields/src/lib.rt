// The field lists: number 6. One function for each op's list, and one choice among them. Each returns a definition
// of the model's specs/Fields.antt. Document 01, "Command sheet": unlisted fields must be 0; op 9, document
// 02, A.1; op 10, A.5; ops 11 and 12, A.7.
#![tactic(auto)]

ghost use Rattle.std.specs.Prelude.{◌^◌, ◌≡◌, ltb};
ghost use Rattle.model.specs.Tests.{every};
ghost use Rattle.model.specs.Fields.{zero_from_f, zero_from_d, zero_from_b, is_generator, tick_fields, load_fields};
ghost use Rattle.model.specs.Fields.{command_fields, arm_fields, stop_fields, mask_fields, no_fields};
ghost use Rattle.model.specs.Fields.{ticks_fields, run_fields, preview_fields, depart_fields, recover_fields};
ghost use Rattle.model.specs.Fields.{fields_ok};

use model::{Command, ENABLED_MASK, LONG_LIMIT, NS_PER_SECOND, SECONDS_LIMIT, WORD_LIMIT};
use op::Op;

fn zero_from_f(c: Command) -> bool
    ensures { result ≡ every (zero_from_f c) }
{
    c.f == 0 && c.g == 0 && c.h == 0
}

fn zero_from_d(c: Command) -> bool
    ensures { result ≡ every (zero_from_d c) }
{
    c.d == 0 && c.e == 0 && zero_from_f(c)
}

fn zero_from_b(c: Command) -> bool
    ensures { result ≡ every (zero_from_b c) }
{
    c.b == 0 && c.c == 0 && zero_from_d(c)
}

fn is_generator(n: u64) -> bool
    ensures { result ≡ is_generator n }
{
    n == 1 || n == 2
}

// Op 0: the codes of inputs 1 to 3.
pub fn tick_fields(c: Command) -> bool
    ensures { result ≡ every (tick_fields c) }
{
    c.a <= 16 && c.b <= 16 && c.c <= 16 && zero_from_d(c)
}

// Op 1: five words.
fn load_fields(c: Command) -> bool
    ensures { result ≡ every (load_fields c) }
{
    c.a < WORD_LIMIT
        && c.b < WORD_LIMIT
        && c.c < WORD_LIMIT
        && c.d < WORD_LIMIT
        && c.e < WORD_LIMIT
        && zero_from_f(c)
}

// Op 2: write selector 0 to 2, or 16; read selector 0 to 3, or 8.
fn command_fields(c: Command) -> bool
    ensures { result ≡ every (command_fields c) }
{
    (c.a <= 2 || c.a == 16) && (c.b <= 3 || c.b == 8) && c.c == 0 && zero_from_d(c)
}

// Op 3: generator, start, W + N/D, count, mark.
fn arm_fields(c: Command) -> bool
    ensures { result ≡ every (arm_fields c) }
{
    is_generator(c.a)
        && c.b < SECONDS_LIMIT
        && c.c < NS_PER_SECOND
        && 256 <= c.d
        && c.d <= 999_999_999
        && c.e < LONG_LIMIT
        && 1 <= c.f
        && c.f < LONG_LIMIT
        && 1 <= c.g
        && c.g < LONG_LIMIT
        && c.h <= 1
}

// Op 4: the generator.
fn stop_fields(c: Command) -> bool
    ensures { result ≡ every (stop_fields c) }
{
    is_generator(c.a) && zero_from_b(c)
}

// Op 6: the mask.
fn mask_fields(c: Command) -> bool
    ensures { result ≡ every (mask_fields c) }
{
    interrupts::only_bits(ENABLED_MASK, c.a) && zero_from_b(c)
}

// Ops 5, 7 and 8.
fn no_fields(c: Command) -> bool
    ensures { result ≡ every (no_fields c) }
{
    c.a == 0 && zero_from_b(c)
}

// A number of ticks.
fn ticks_fields(c: Command, most: u64) -> bool
    ensures { result ≡ every (ticks_fields most c) }
{
    1 <= c.a && c.a <= most && zero_from_b(c)
}

// Op 9: the ticks.
pub fn run_fields(c: Command) -> bool
    ensures { result ≡ every (run_fields c) }
{
    ticks_fields(c, 1_000_000)
}

// Op 10: the ticks.
pub fn preview_fields(c: Command) -> bool
    ensures { result ≡ every (preview_fields c) }
{
    ticks_fields(c, 1_000)
}

// A correctionField has 64 bits, as every number of a command here.
fn is_field(n: u64) -> bool
    ensures { result ≡ ltb n (2 ^ 64) }
{
    true
}

// Op 11: the field.
pub fn depart_fields(c: Command) -> bool
    ensures { result ≡ every (depart_fields c) }
{
    is_field(c.a) && zero_from_b(c)
}

// Op 12: software seconds, and the field.
pub fn recover_fields(c: Command) -> bool
    ensures { result ≡ every (recover_fields c) }
{
    c.a < SECONDS_LIMIT && is_field(c.b) && c.c == 0 && zero_from_d(c)
}

// The list of the command's op.
#[tactic(auto, unfolding(model::specs::Fields::fields_ok, model::specs::Fields::field_tests))]
pub fn fields_ok(c: Command) -> bool
    ensures { result ≡ fields_ok c }
{
    match Op::try_from(c.op) {
        Ok(Op::Tick) => tick_fields(c),
        Ok(Op::LoadWords) => load_fields(c),
        Ok(Op::Command) => command_fields(c),
        Ok(Op::Arm) => arm_fields(c),
        Ok(Op::Stop) => stop_fields(c),
        Ok(Op::ReadInterrupts) => no_fields(c),
        Ok(Op::SetMask) => mask_fields(c),
        Ok(Op::ReadStatus) => no_fields(c),
        Ok(Op::ShowWords) => no_fields(c),
        Ok(Op::Run) => run_fields(c),
        Ok(Op::Preview) => preview_fields(c),
        Ok(Op::Depart) => depart_fields(c),
        Ok(Op::Recover) => recover_fields(c),
        Err(_) => no_fields(c),
    }
}
