// An event generator in a tick: whether its pending instant is due, the eighth that it falls in, and the generator
// after the edge. Instants keep their remainder over the denominator, so nothing is rounded. Each function returns a
// definition of the model's specs/Generator.antt or of specs/Advance.antt. Document 01, "Stamps and generators";
// document 02, A.3.
#![tactic(auto)]

ghost use Rattle.std.specs.Prelude.{◌≡◌, ◌<◌, ◌^◌};
ghost use Rattle.model.specs.Clock.{shown};
ghost use Rattle.model.specs.Edges.{edge_code};
ghost use Rattle.model.specs.Generator.{idle_generator, is_before, eighth_of, next_instant, following};
ghost use Rattle.generator.specs.Advance.{Comparable, Running, Due, Ticking, topmost, advance_of};

use model::{Clock, Generator, Instant, NS_PER_SECOND, SECONDS_LIMIT};

// An edge that a tick places: its code, the generator after it, and whether EC and SC are set.
#[derive(Clone, Copy)]
pub struct Edge {
    pub code: u64,
    pub generator: Generator,
    pub event: bool,
    pub sequence: bool,
}

pub fn idle_generator() -> Generator
    ensures { result ≡ idle_generator }
{
    Generator::default()
}

// The pending instant is below the time shown: seconds first, then nanoseconds, then remainder / D against fraction
// / 256, multiplied out.
pub fn is_before(g: Generator, k: Clock) -> bool
    requires { Comparable g k }
    ensures { result ≡ is_before g (shown k) }
{
    if g.pending.seconds != k.seconds {
        return g.pending.seconds < k.seconds;
    }
    if g.pending.nanoseconds != k.nanoseconds {
        return g.pending.nanoseconds < k.nanoseconds;
    }
    g.pending.remainder * 256 < k.fraction * g.denominator
}

// The eighth, by 8 × (E - A) ("ahead") and S ("length") in one unit: it is tested at 7, then 6, and so on, and the
// first whose start, p × S / 8 after A, is not after E is taken. Eighth 0 starts at A, so the search ends. Document 02,
// A.3.
fn from_the_top(ahead: u64, length: u64) -> u64
    requires { length < 2 ^ 48 }
    ensures { result ≡ topmost ahead length }
{
    for p in (1..8).rev() {
        if p * length <= ahead {
            return p;
        }
    }
    0
}

// The eighth of the pending instant, with E - A and S in 1/(256 D) ns. E - A is below the step, so it is small, and E
// is in the second shown or in the next.
fn eighth(g: Generator, k: Clock, step: u64) -> u64
    requires { Due g k step }
    ensures { result ≡ eighth_of g (shown k) step }
{
    let length = step * g.denominator;
    let later = if g.pending.seconds == k.seconds {
        0
    } else {
        NS_PER_SECOND
    };
    let whole = later + g.pending.nanoseconds - k.nanoseconds;
    let ahead = (whole * 256 * g.denominator + g.pending.remainder * 256)
        - k.fraction * g.denominator;
    from_the_top(8 * ahead, length)
}

// The code of an edge, by its direction.
fn edge_code(direction: u64, eighth: u64) -> u64
    requires { eighth < 8 }
    ensures { result ≡ edge_code direction eighth }
{
    if direction == 0 {
        eighth + 9
    } else {
        eighth + 1
    }
}

// The ideal instant after the pending one: the interval's parts are added, each with its carry.
fn next_instant(g: Generator) -> Instant
    requires { Running g }
    ensures { result ≡ next_instant g }
{
    let part = g.pending.remainder + g.numerator;
    let nanoseconds = g.pending.nanoseconds + g.whole + part / g.denominator;
    Instant {
        seconds: g.pending.seconds + nanoseconds / NS_PER_SECOND,
        nanoseconds: nanoseconds % NS_PER_SECOND,
        remainder: part % g.denominator,
    }
}

// The generator after an edge: idle where it was the last, or where the next instant is past the last second.
#[tactic(auto, unfolding(model::specs::Generator::following))]
fn follow(g: Generator) -> Generator
    requires { Running g }
    ensures { result ≡ following g }
{
    if g.left == 1 {
        return idle_generator();
    }
    let next = next_instant(g);
    if SECONDS_LIMIT <= next.seconds {
        return idle_generator();
    }
    Generator {
        pending: next,
        left: g.left - 1,
        direction: 1 - g.direction,
        ..g
    }
}

// The edge of a generator, if it places one, in the tick of a step that takes the clock from k to next.
// As a call it would take an idle tick in the engine's loop from 302 instructions to 504.
#[inline(always)]
pub fn advance(g: Generator, k: Clock, next: Clock, step: u64) -> Option<Edge>
    requires { Ticking g k next step }
    ensures { result ≡ advance_of g (shown k) step }
{
    if g.left == 0 || !is_before(g, next) {
        return None;
    }
    Some(Edge {
        code: edge_code(g.direction, eighth(g, k, step)),
        generator: follow(g),
        event: g.mark == 1,
        sequence: g.left == 1,
    })
}
