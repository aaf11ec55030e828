// Ticks by formula: what so many cycles bring, and the clock and the steering after them. Each function returns a
// definition of the model's specs/Elapse.antt or of specs/Seconds.antt. At most a million cycles bring less than a
// second, so that every number fits into 64 bits and the second carries at most once. Document 02, A.1 and A.4.
#![tactic(auto)]

ghost use Rattle.std.specs.Prelude.{◌≡◌, true, ◌+◌, ◌*◌, ◌/◌, ◌<◌, ◌≤◌, ◌^◌, ltb};
ghost use Rattle.model.specs.Clock.{end_of_time, clock_at_exact};
ghost use Rattle.model.specs.Ranges.{steering_ok};
ghost use Rattle.model.specs.Bounds.{ClockRange};
ghost use Rattle.model.specs.Elapse.{amount_of, spent_by, steering_by, ends_within};
ghost use Rattle.elapse.specs.Seconds.{second, in_second};

use model::{Adjustment, Clock, STEP_UNIT, Steering};

// A nanosecond and a second, in 2^-32 ns.
pub const NANOSECOND: u64 = 0x1_0000_0000;

pub const SECOND: u64 = 0x3B9A_CA00_0000_0000;

pub const LAST_SECOND: u64 = 0xFFFF_FFFF_FFFF;

// What n cycles bring, in three phases: the running adjustment's amount, that of the one that waits, then PERIOD.
#[tactic(auto, using(crate::proofs::Numbers::amount_low), unfolding(model::specs::Elapse::amount_of))]
pub fn amount_of(s: Steering, n: u64) -> u64
    requires { (steering_ok s ≡ true) × (n ≤ 1000000) }
    ensures { result ≡ amount_of s n }
{
    let first = n.min(s.adjustment.cycles);
    let rest = n - first;
    let second = rest.min(s.waiting.cycles);
    first * s.adjustment.amount + second * s.waiting.amount + (rest - second) * s.period
}

// What of the exact time lies in the second shown.
pub fn in_second(k: Clock) -> u64
    requires { ClockRange k }
    ensures { result ≡ in_second k }
{
    k.nanoseconds * NANOSECOND + k.fraction * STEP_UNIT + k.remainder
}

// The clock so much after the start of a second, which may reach into the next one.
#[tactic(auto, using(crate::proofs::Numbers::clock_parts))]
pub fn clock_at(seconds: u64, after: u64) -> Clock
    requires { (seconds < 2 ^ 48) × (after < 2 * second) }
    ensures { result ≡ clock_at_exact (seconds * second + after) }
{
    let carry = u64::from(SECOND <= after);
    let rest = after - carry * SECOND;
    Clock {
        seconds: seconds + carry,
        nanoseconds: rest / NANOSECOND,
        fraction: rest / STEP_UNIT % 256,
        remainder: rest % STEP_UNIT,
    }
}

// The time so much after the start of a second, which may reach into the next one, is before the end of time.
pub fn is_in_time(seconds: u64, after: u64) -> bool
    requires { (seconds < 2 ^ 48) × (after < 2 * second) }
    ensures { result ≡ ltb ((seconds * second + after) / 2 ^ 24) end_of_time }
{
    seconds != LAST_SECOND || after < SECOND
}

// An adjustment after n cycles of its own.
#[tactic(auto, unfolding(model::specs::Elapse::spent_by))]
fn spend_by(j: Adjustment, n: u64) -> Adjustment
    ensures { result ≡ spent_by j n }
{
    if j.cycles <= n {
        return Adjustment::default();
    }
    Adjustment {
        cycles: j.cycles - n,
        ..j
    }
}

// The steering after n cycles: those that the running adjustment leaves over are the waiting one's. Where none runs it
// stays.
#[tactic(auto, unfolding(model::specs::Elapse::steering_by))]
pub fn steer_by(s: Steering, n: u64) -> Steering
    requires { steering_ok s ≡ true }
    ensures { result ≡ steering_by s n }
{
    if s.adjustment.cycles == 0 {
        return s;
    }
    if s.adjustment.cycles <= n {
        return Steering {
            adjustment: spend_by(s.waiting, n - s.adjustment.cycles),
            waiting: Adjustment::default(),
            ..s
        };
    }
    Steering {
        adjustment: spend_by(s.adjustment, n),
        ..s
    }
}

// The running adjustment's last cycle is among the n: TAC.
#[tactic(auto, unfolding(model::specs::Elapse::ends_within))]
pub fn ends_within(j: Adjustment, n: u64) -> bool
    ensures { result ≡ ends_within j n }
{
    1 <= j.cycles && j.cycles <= n
}
