// The clock and its steering: the amount of a cycle, the step, the tick with its carries, what a cycle makes of the
// steering, and the two tests on the time shown. Each function returns a definition of the model's specs/Clock.antt,
// which adds on totals; the carries here are shown to be the same. Document 01, "The clock".
#![tactic(auto)]

ghost use Rattle.std.specs.Prelude.{◌≡◌, true, ◌+◌, ◌*◌, ◌<◌, ◌≤◌, ◌^◌, leb, ltb};
ghost use Rattle.model.specs.Units.{ns_per_second};
ghost use Rattle.model.specs.Clock.{shown, end_of_time, cycle_amount, step_by, ticked, clock_set};
ghost use Rattle.model.specs.Clock.{no_adjustment, adjusted_by, steering_after};
ghost use Rattle.model.specs.Ranges.{steering_ok};
ghost use Rattle.model.specs.Bounds.{ClockRange};
ghost use Rattle.clock.specs.Cycle.{steered_of, Cycle};

use model::{Adjustment, Clock, NS_PER_SECOND, STEP_UNIT, Steering};

// PER_ADJ while an adjustment has cycles left, else PERIOD.
#[tactic(auto, unfolding(model::specs::Clock::cycle_amount))]
pub fn cycle_amount(s: Steering) -> u64
    ensures { result ≡ cycle_amount s }
{
    if s.adjustment.cycles == 0 {
        s.period
    } else {
        s.adjustment.amount
    }
}

// What a tick adds to the time shown, in 1/256 ns.
#[tactic(auto, unfolding(model::specs::Clock::step_by))]
pub fn step_by(k: Clock, amount: u64) -> u64
    requires { (k.remainder < 2 ^ 24) × (amount < 2 ^ 40) }
    ensures { result ≡ step_by k amount }
{
    (k.remainder + amount) / STEP_UNIT
}

// One reference cycle: the time shown gains the step, and the remainder keeps what is below it.
pub fn tick_clock(k: Clock, amount: u64, step: u64) -> Clock
    requires { Cycle k amount step }
    ensures { result ≡ ticked k amount }
{
    let fraction = k.fraction + step;
    let nanoseconds = k.nanoseconds + fraction / 256;
    let carry = u64::from(NS_PER_SECOND <= nanoseconds);
    Clock {
        seconds: k.seconds + carry,
        nanoseconds: nanoseconds - carry * NS_PER_SECOND,
        fraction: fraction % 256,
        remainder: (k.remainder + amount) % STEP_UNIT,
    }
}

// The clock that a TIME write sets.
pub fn set_clock(seconds: u64, nanoseconds: u64) -> Clock
    ensures { result ≡ clock_set seconds nanoseconds }
{
    Clock {
        seconds,
        nanoseconds,
        ..Clock::default()
    }
}

pub fn no_adjustment() -> Adjustment
    ensures { result ≡ no_adjustment }
{
    Adjustment::default()
}

// The steering with one adjustment more: it runs at once where none runs, and waits behind one that does.
#[tactic(auto, unfolding(model::specs::Clock::adjusted_by))]
pub fn adjust(s: Steering, j: Adjustment) -> Steering
    ensures { result ≡ adjusted_by s j }
{
    if s.adjustment.cycles == 0 {
        Steering { adjustment: j, ..s }
    } else {
        Steering { waiting: j, ..s }
    }
}

// The steering after a tick: the adjustment loses a cycle, and with its last the one that waits becomes the running
// one.
#[tactic(auto, unfolding(model::specs::Clock::steering_after, model::specs::Clock::last_cycle))]
fn steering_after(s: Steering) -> Steering
    ensures { result ≡ steering_after s }
{
    if s.adjustment.cycles == 1 {
        return Steering {
            adjustment: s.waiting,
            waiting: no_adjustment(),
            ..s
        };
    }
    Steering {
        adjustment: Adjustment {
            cycles: s.adjustment.cycles.saturating_sub(1),
            ..s.adjustment
        },
        ..s
    }
}

// What a cycle makes of the steering: its amount, the steering after it (PERIOD stays), and whether it was an
// adjustment's last, which sets TAC.
#[derive(Clone, Copy)]
pub struct Steered {
    pub amount: u64,
    pub steering: Steering,
    pub last: bool,
}

#[tactic(auto, unfolding(model::specs::Clock::last_cycle))]
pub fn steer(s: Steering) -> Steered
    ensures { result ≡ steered_of s }
{
    Steered {
        amount: cycle_amount(s),
        steering: steering_after(s),
        last: s.adjustment.cycles == 1,
    }
}

// A tick of this step ends within the last second: in an earlier second always, in the last one by what it shows.
fn ends_in_time(k: Clock, step: u64) -> bool
    requires { (ClockRange k) × (step ≤ 65536) }
    ensures { result ≡ ltb (shown k + step) end_of_time }
{
    k.seconds < 0xFFFF_FFFF_FFFF || k.nanoseconds * 256 + k.fraction + step < 256_000_000_000
}

// The next tick by this steering ends within the last second.
pub fn has_time_left(k: Clock, s: Steering) -> bool
    requires { (ClockRange k) × (steering_ok s ≡ true) }
    ensures { result ≡ ltb (shown k + step_by k (cycle_amount s)) end_of_time }
{
    ends_in_time(k, step_by(k, cycle_amount(s)))
}

// A start is not before the time shown: seconds first, then nanoseconds, where the clock shows no fraction. Whole
// seconds in the nanoseconds are carried, so that it is right for every two numbers.
pub fn is_not_past(k: Clock, seconds: u64, nanoseconds: u64) -> bool
    requires { ClockRange k }
    ensures { result ≡ leb (shown k) ((seconds * ns_per_second + nanoseconds) * 256) }
{
    if k.seconds < seconds {
        return true;
    }
    let second = seconds + nanoseconds / NS_PER_SECOND;
    let rest = nanoseconds % NS_PER_SECOND;
    k.seconds < second
        || k.seconds == second && (k.nanoseconds < rest || k.nanoseconds == rest && k.fraction == 0)
}
