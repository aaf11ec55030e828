// The checks of ops 0 to 8 on a valid record, from number 6 on; later ops make their own: a function for each that is
// more than a comparison, and the ordered list, where the first that fails is the refusal. Each returns what the
// model's table says of its number. Document 01, "Where each command is checked".
#![tactic(auto)]

ghost use Rattle.std.specs.Prelude.{◌≡◌, true, false, ◌≤◌, eqb};
ghost use Rattle.model.specs.Record.{fifo};
ghost use Rattle.model.specs.Ranges.{valid};
ghost use Rattle.model.specs.Checks.{reads_fifo, writes as writes_spec, passes, answer_of};
ghost use Rattle.change.specs.Refusals.{answer_in};
ghost use Rattle.checks.specs.Listed.{Listed};

use change::{Refusal, ensure};
use model::{Command, Engine};

// Op 2 with a read of a timestamp FIFO.
fn reads_fifo(c: Command) -> bool
    ensures { result ≡ reads_fifo c }
{
    c.op == 2 && 1 <= c.b && c.b <= 3
}

// Op 2 with a write of this selector.
fn writes(c: Command, selector: u64) -> bool
    ensures { result ≡ writes_spec selector c }
{
    c.op == 2 && c.a == selector
}

// How many timestamps a FIFO holds, by number. Each is looked at where it stands, so that none is copied.
fn count_at(e: Engine, n: u64) -> u64
    ensures { result ≡ (fifo e n).count }
{
    match n {
        1 => e.fifo1.count,
        2 => e.fifo2.count,
        _ => e.fifo3.count,
    }
}

// 7: a FIFO that is read is not empty.
#[tactic(auto, unfolding(model::specs::Checks::checks))]
fn timestamp_waits(e: Engine, c: Command) -> bool
    ensures { result ≡ passes e c 7 }
{
    !reads_fifo(c) || !fifo::is_empty(count_at(e, c.b))
}

// 8: a TIME that is written has an NS below a second, and nothing above it.
#[tactic(auto, using(crate::proofs::Table::words_within), unfolding(model::specs::Checks::checks))]
fn time_ok(e: Engine, c: Command) -> bool
    requires { Listed 2 e c }
    ensures { result ≡ passes e c 8 }
{
    !writes(c, 0)
        || words::nanoseconds_in(e.words) <= 999_999_999 && words::above_nanoseconds(e.words) == 0
}

// 9: an amount that is written has an NS, and a PERIOD its zero byte.
#[tactic(auto, unfolding(model::specs::Checks::checks))]
fn amount_ok(e: Engine, c: Command) -> bool
    requires { Listed 2 e c }
    ensures { result ≡ passes e c 9 }
{
    !writes(c, 1) && !writes(c, 2)
        || 1 <= words::whole_in(e.words) && (writes(c, 2) || words::below_frac(e.words) == 0)
}

// 10: an adjustment has cycles.
#[tactic(auto, using(crate::proofs::Table::words_within), unfolding(model::specs::Checks::checks))]
fn count_ok(e: Engine, c: Command) -> bool
    requires { Listed 2 e c }
    ensures { result ≡ passes e c 10 }
{
    !writes(c, 2) || 1 <= words::count_in(e.words)
}

// 11: none waits.
#[tactic(auto, unfolding(model::specs::Checks::checks))]
fn waiting_free(e: Engine, c: Command) -> bool
    requires { Listed 2 e c }
    ensures { result ≡ passes e c 11 }
{
    !writes(c, 2) || e.steering.waiting.cycles == 0
}

// 15: the tick, or the first of a run, ends within the last second.
#[tactic(auto, unfolding(model::specs::Checks::checks))]
fn time_left(e: Engine, c: Command) -> bool
    requires e_value { valid e ≡ true }
    requires op_value { eqb c.op 10 ≡ false }
    ensures { result ≡ passes e c 15 }
{
    !(c.op == 0 || c.op == 9) || clock::has_time_left(e.clock, e.steering)
}

// Op 2: numbers 7 to 11.
#[tactic(auto, using(crate::proofs::Table::command_answer))]
fn check_command(e: Engine, c: Command) -> Result<(), Refusal>
    requires { Listed 2 e c }
    ensures { answer_in result ≡ answer_of e c }
{
    ensure(timestamp_waits(e, c), Refusal::NoTimestamp)?;
    ensure(time_ok(e, c), Refusal::Time)?;
    ensure(amount_ok(e, c), Refusal::Amount)?;
    ensure(count_ok(e, c), Refusal::NoCycles)?;
    ensure(waiting_free(e, c), Refusal::Waiting)
}

// Op 3: the interval's N is below D, the generator does not run, and the start is not before the time shown.
#[tactic(auto, using(crate::proofs::Table::arming))]
fn check_arm(e: Engine, c: Command) -> Result<(), Refusal>
    requires { Listed 3 e c }
    ensures { answer_in result ≡ answer_of e c }
{
    ensure(c.e < c.f, Refusal::Interval)?;
    ensure(record::generator_at(e, c.a).left == 0, Refusal::Running)?;
    ensure(clock::is_not_past(e.clock, c.b, c.c), Refusal::Past)
}

// The table, from the top. Numbers 7 to 14 speak of ops 2 and 3, so they are asked of no other.
#[tactic(auto, using(crate::proofs::Table::answers))]
pub fn check(e: Engine, c: Command) -> Result<(), Refusal>
    requires e_value { valid e ≡ true }
    requires op_bound { c.op ≤ 8 }
    ensures { answer_in result ≡ answer_of e c }
{
    ensure(fields::fields_ok(c), Refusal::Fields)?;
    match c.op {
        2 => check_command(e, c),
        3 => check_arm(e, c),
        _ => ensure(time_left(e, c), Refusal::TimeOver),
    }
}
