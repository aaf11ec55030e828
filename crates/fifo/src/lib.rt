// Timestamp FIFOs: an input edge is stamped and stored behind the others, and a read takes the oldest out and shifts
// the rest down. Entries are an array by value of timestamps. Each function returns a definition of the model's
// specs/Fifo.antt. Document 01, "Stamps and generators"; document 02, A.2.
#![tactic(auto)]

ghost use Rattle.std.specs.Prelude.{◌≡◌, ◌+◌, ◌*◌, ◌<◌, ◌≤◌, min, eqb};
ghost use Rattle.model.specs.Units.{ns_per_second};
ghost use Rattle.model.specs.Clock.{shown};
ghost use Rattle.model.specs.Edges.{code_rising};
ghost use Rattle.model.specs.Fifo.{empty_fifo, entry, last_nanosecond, timestamp_at, timestamp_of};
ghost use Rattle.model.specs.Fifo.{captured, popped};
ghost use Rattle.fifo.specs.Capture.{EighthOf, OffsetOf, Stamping, NearestOf, Carrying, Capturing};
ghost use Rattle.fifo.specs.Capture.{pushed, arrival_of};

use model::{Clock, Fifo, NS_PER_SECOND, Timestamp};

// Half a nanosecond, in eighths of 1/256 ns.
const HALF: u64 = 1024;

const LAST_SECOND: u64 = 0xFFFF_FFFF_FFFF;

// What becomes of an input's code in a tick: without an edge nothing, else the edge is stored, perhaps as the first in
// its FIFO (NE), or dropped (OF).
#[derive(Clone, Copy)]
pub enum Arrival {
    NoEdge,
    Stored { first: bool },
    Overflow,
}

impl Arrival {
    ghost use Rattle.fifo.specs.Capture.{is_stored};

    pub fn is_stored(self) -> bool
        ensures { result ≡ is_stored self }
    {
        matches!(self, Arrival::Stored { .. })
    }
}

pub fn empty_fifo() -> Fifo
    ensures { result ≡ empty_fifo }
{
    Fifo::default()
}

// A FIFO of this count holds nothing. The count alone is handed over, since a FIFO would be copied.
pub fn is_empty(count: u64) -> bool
    ensures { result ≡ eqb count 0 }
{
    count == 0
}

pub fn oldest(f: Fifo) -> Timestamp
    ensures { result ≡ entry f 0 }
{
    f.entries[0]
}

// The eighth of an edge, by its code.
fn eighth(code: u64) -> u64
    requires { (0 < code) × (code ≤ 16) }
    ensures { EighthOf code result }
{
    (code - 1) % 8
}

// The direction of an edge, by its code: 1 rising, 0 falling.
fn rising(code: u64) -> u64
    requires { (0 < code) × (code ≤ 16) }
    ensures { result ≡ code_rising code }
{
    (code - 1) / 8
}

// p × S, in eighths of 1/256 ns.
fn offset(step: u64, code: u64) -> u64
    requires { (step ≤ 65536) × (0 < code) × (code ≤ 16) }
    ensures { OffsetOf step code result }
{
    eighth(code) * step
}

// A + p × S / 8 to the nearest nanosecond, counted from the start of A's second: half of one is added and the rest
// dropped. Document 02, A.2.
fn nearest(k: Clock, step: u64, code: u64) -> u64
    requires { Stamping k step code }
    ensures { NearestOf k step code result }
{
    k.nanoseconds + (8 * k.fraction + offset(step, code) + HALF) / 2048
}

// Nanoseconds counted from the start of a second, with their carry into the next. The last second has none: a carry
// there can only be one nanosecond too many, which is taken off.
fn carried(seconds: u64, nanoseconds: u64, rising: u64) -> Timestamp
    requires { Carrying seconds nanoseconds }
    ensures { result ≡ timestamp_at (min last_nanosecond (seconds * ns_per_second + nanoseconds)) rising }
{
    let carry = nanoseconds / NS_PER_SECOND;
    if LAST_SECOND <= seconds {
        return Timestamp {
            seconds,
            nanoseconds: nanoseconds - carry,
            rising,
        };
    }
    Timestamp {
        seconds: seconds + carry,
        nanoseconds: nanoseconds - carry * NS_PER_SECOND,
        rising,
    }
}

// The timestamp of an edge.
#[tactic(auto, unfolding(model::specs::Fifo::timestamp_of, model::specs::Fifo::timestamp_ns))]
fn timestamp(k: Clock, step: u64, code: u64) -> Timestamp
    requires { Stamping k step code }
    ensures { result ≡ timestamp_of (shown k) step code }
{
    carried(k.seconds, nearest(k, step, code), rising(code))
}

// The timestamp in the first unused place.
fn push(mut f: Fifo, t: Timestamp) -> Fifo
    requires { f.count < 8 }
    ensures { result ≡ pushed f t }
{
    let at = f.count as usize;
    f.entries[at] = t;
    f.count += 1;
    f
}

// An input's code at a FIFO: no edge, one too many, or one that is stored.
#[tactic(auto, unfolding(crate::specs::Capture::arrival_of))]
pub fn arrive(f: Fifo, code: u64) -> Arrival
    ensures { result ≡ arrival_of f code }
{
    if code == 0 {
        Arrival::NoEdge
    } else if 8 <= f.count {
        Arrival::Overflow
    } else {
        Arrival::Stored {
            first: f.count == 0,
        }
    }
}

// The FIFO after an input's code in a tick of a step from the clock k.
#[tactic(auto, unfolding(crate::specs::Capture::arrival_of, model::specs::Fifo::captured))]
pub fn capture(f: Fifo, k: Clock, step: u64, code: u64) -> Fifo
    requires { Capturing k step code }
    ensures { result ≡ captured f (shown k) step code }
{
    if arrive(f, code).is_stored() {
        push(f, timestamp(k, step, code))
    } else {
        f
    }
}

// The oldest is taken out: each other moves one place down, and the last place is free.
#[tactic(auto, unfolding(model::specs::Fifo::popped))]
pub fn pop(mut f: Fifo) -> Fifo
    requires { 0 < f.count }
    ensures { result ≡ popped f }
{
    f.entries.copy_within(1.., 0);
    f.entries[7] = Timestamp::default();
    f.count -= 1;
    f
}
