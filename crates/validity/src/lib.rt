// The record's check: number 4. One function for each part of the record, and the whole. Each returns a definition
// of the model's specs/Ranges.antt. The clock comes first: a pending instant is compared with it place by place.
// Document 01, "Where each command is checked", below the table.
#![tactic(auto)]

ghost use Rattle.std.specs.Prelude.{◌≡◌};
ghost use Rattle.model.specs.Tests.{every};
ghost use Rattle.model.specs.Clock.{shown};
ghost use Rattle.model.specs.Bounds.{ClockRange};
ghost use Rattle.model.specs.Ranges.{clock_ok, amount_ok, adjustment_ok, steering_ok};
ghost use Rattle.model.specs.Ranges.{running_tests, generator_ok, interrupts_ok, words_ok, valid};

use fifo_places::fifos_ok;
use model::{
    Adjustment, Clock, ENABLED_MASK, Engine, Generator, Interrupts, LATCHED_MASK, LONG_LIMIT,
    NS_PER_SECOND, SECONDS_LIMIT, STEP_UNIT, Steering, WORD_LIMIT, Words,
};

#[tactic(auto, unfolding(model::specs::Ranges::clock_ok))]
fn clock_ok(k: Clock) -> bool
    ensures { result ≡ clock_ok k }
{
    k.seconds < SECONDS_LIMIT
        && k.nanoseconds < NS_PER_SECOND
        && k.fraction < 256
        && k.remainder < STEP_UNIT
}

// PERIOD or the PER_ADJ of an adjustment: 40 bits, with NS not 0.
fn amount_ok(x: u64) -> bool
    ensures { result ≡ amount_ok x }
{
    0x1_0000_0000 <= x && x < 0x100_0000_0000
}

// None and zero, or with cycles left.
#[tactic(auto, unfolding(model::specs::Ranges::adjustment_ok))]
fn adjustment_ok(j: Adjustment) -> bool
    ensures { result ≡ adjustment_ok j }
{
    if j.cycles == 0 {
        j.amount == 0
    } else {
        amount_ok(j.amount) && j.cycles < 0x100_0000
    }
}

// PERIOD, the running adjustment and the one that waits, of which there is none while none runs.
#[tactic(auto, unfolding(model::specs::Ranges::steering_ok))]
fn steering_ok(s: Steering) -> bool
    ensures { result ≡ steering_ok s }
{
    amount_ok(s.period)
        && adjustment_ok(s.adjustment)
        && adjustment_ok(s.waiting)
        && (s.waiting.cycles == 0 || s.adjustment.cycles != 0)
}

// Op 3's limits, and the pending instant.
fn running_ok(g: Generator) -> bool
    ensures { result ≡ every (running_tests g) }
{
    g.pending.seconds < SECONDS_LIMIT
        && g.pending.nanoseconds < NS_PER_SECOND
        && g.pending.remainder < g.denominator
        && 256 <= g.whole
        && g.whole <= 999_999_999
        && g.numerator < g.denominator
        && g.denominator < LONG_LIMIT
        && g.left < LONG_LIMIT
        && g.direction <= 1
        && g.mark <= 1
}

// Idle and zero, or running with a pending instant that is not before the time shown.
#[tactic(auto, unfolding(model::specs::Ranges::generator_ok))]
fn generator_ok(g: Generator, k: Clock) -> bool
    requires { ClockRange k }
    ensures { result ≡ generator_ok g (shown k) }
{
    if g.left == 0 {
        g == Generator::default()
    } else {
        running_ok(g) && !generator::is_before(g, k)
    }
}

#[tactic(auto, unfolding(model::specs::Ranges::interrupts_ok))]
fn interrupts_ok(i: Interrupts) -> bool
    ensures { result ≡ interrupts_ok i }
{
    interrupts::only_bits(LATCHED_MASK, i.latched) && interrupts::only_bits(ENABLED_MASK, i.enabled)
}

#[tactic(auto, unfolding(model::specs::Ranges::words_ok))]
fn words_ok(w: Words) -> bool
    ensures { result ≡ words_ok w }
{
    w.w1 < WORD_LIMIT
        && w.w2 < WORD_LIMIT
        && w.w3 < WORD_LIMIT
        && w.w4 < WORD_LIMIT
        && w.w5 < WORD_LIMIT
}

// The parts behind the clock are joined by `&`, as the counts in `fifos_ok`: with `&&` alone an idle tick took 84
// instructions, for 75 so.
#[tactic(auto, using(model::proofs::Laws::InRange::clock_in), unfolding(model::specs::Ranges::valid))]
pub fn is_valid(e: Engine) -> bool
    ensures { result ≡ valid e }
{
    clock_ok(e.clock)
        && (steering_ok(e.steering)
            & fifos_ok(e.fifo1, e.fifo2, e.fifo3)
            & generator_ok(e.generator1, e.clock)
            & generator_ok(e.generator2, e.clock)
            & interrupts_ok(e.interrupts)
            & words_ok(e.words))
}
