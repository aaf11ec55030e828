// The cycle in which an edge or the end of time falls, by formula. Each function returns a definition of
// specs/Reach.antt. A stretch brings less than a second, so that every number fits into 64 bits. Document 02, A.1 and
// A.4.
#![tactic(auto)]

ghost use Rattle.std.specs.Prelude.{◌≡◌, true, ◌+◌, ◌*◌, ◌<◌, ◌≤◌, ◌^◌};
ghost use Rattle.model.specs.Clock.{shown};
ghost use Rattle.model.specs.Bounds.{ClockRange};
ghost use Rattle.model.specs.Elapse.{amount_of};
ghost use Rattle.model.specs.Ranges.{steering_ok, generator_ok};
ghost use Rattle.elapse.specs.Seconds.{second};
ghost use Rattle.reach.specs.Reach.{cycles_to, edge_time, edge_tick, ticks_in_time};
ghost use Rattle.reach.specs.Asked.{Near, InTime};

use elapse::{LAST_SECOND, NANOSECOND, SECOND};
use model::{Clock, Generator, STEP_UNIT, Steering};

// The first cycle at whose end they have brought a need.
#[tactic(auto, unfolding(crate::specs::Reach::cycles_to))]
fn cycles_to(s: Steering, need: u64) -> u64
    requires { (steering_ok s ≡ true) × (0 < need) }
    ensures { result ≡ cycles_to s need }
{
    let first = s.adjustment.cycles * s.adjustment.amount;
    if need <= first {
        return (need - 1) / s.adjustment.amount + 1;
    }
    let rest = need - first;
    let second = s.waiting.cycles * s.waiting.amount;
    if rest <= second {
        return s.adjustment.cycles + (rest - 1) / s.waiting.amount + 1;
    }
    s.adjustment.cycles + s.waiting.cycles + (rest - second - 1) / s.period + 1
}

// The first time shown above the pending instant, counted from the start of the second shown.
#[tactic(auto, using(crate::proofs::Sizes::edge_from_second))]
fn edge_after(g: Generator, k: Clock) -> u64
    requires { Near g k }
    ensures { result + k.seconds * second ≡ edge_time g * 2 ^ 24 }
{
    let whole = (g.pending.seconds - k.seconds) * SECOND + g.pending.nanoseconds * NANOSECOND;
    whole + (g.pending.remainder * 256 / g.denominator + 1) * STEP_UNIT
}

// Ticks ahead that bring less than a second: the clock and the steering before them, what of the exact time lies in
// the second shown (here), and what they bring.
#[derive(Clone, Copy)]
pub struct Span {
    pub clock: Clock,
    pub steering: Steering,
    pub here: u64,
    pub amount: u64,
    pub ghost in_time: { InTime clock here steering amount },
}

impl Span {
    // So many ticks from a clock and a steering.
    pub fn new(clock: Clock, steering: Steering, ticks: u64) -> Self
        requires clock_range { ClockRange clock }
        requires steering_range { steering_ok steering ≡ true }
        requires few { ticks ≤ 1000000 }
        ensures clock_value { result.clock ≡ clock }
        ensures steering_value { result.steering ≡ steering }
        ensures amount_value { result.amount ≡ amount_of steering ticks }
    {
        Span {
            clock,
            steering,
            here: elapse::in_second(clock),
            amount: elapse::amount_of(steering, ticks),
        }
    }

    // The tick of a generator's edge, where it has one among these.
    pub fn edge_tick(self, g: Generator) -> Option<u64>
        requires { generator_ok g (shown self.clock) ≡ true }
        ensures { result ≡ edge_tick g self.clock self.steering self.amount }
    {
        if g.left == 0 || self.clock.seconds + 1 < g.pending.seconds {
            return None;
        }
        let edge = edge_after(g, self.clock);
        if self.here + self.amount < edge {
            return None;
        }
        Some(cycles_to(self.steering, edge - self.here))
    }

    // Of n ticks that bring this, those before the end of time.
    pub fn ticks_in_time(self, n: u64) -> u64
        ensures { result ≡ ticks_in_time self.clock self.steering n self.amount }
    {
        if self.clock.seconds == LAST_SECOND && SECOND <= self.here + self.amount {
            cycles_to(self.steering, SECOND - self.here) - 1
        } else {
            n
        }
    }
}
