// The plain types of the time engine: the engine record, a command and an outcome, and the limits that the code
// names. They are declared here and nothing runs here; what they mean stands in specs/, to be read in the order of
// specs/Lib.antt. Every number is a u64, so that the ranges of check 4 say something.
#![tactic(auto)]

// Seconds are below 2^48.
pub const SECONDS_LIMIT: u64 = 0x1_0000_0000_0000;

// The nanoseconds in a second.
pub const NS_PER_SECOND: u64 = 1_000_000_000;

// The 2^-32 ns in 1/256 ns: an amount over it makes a step.
pub const STEP_UNIT: u64 = 0x100_0000;

// Words are below 2^16; N, D and counts of edges below 2^32.
pub const WORD_LIMIT: u64 = 0x1_0000;

pub const LONG_LIMIT: u64 = 0x1_0000_0000;

// The bits that can be latched, and those that can be enabled.
pub const LATCHED_MASK: u64 = 0x3F37;

pub const ENABLED_MASK: u64 = 0x3F7F;

// The time shown (48-bit seconds, nanoseconds, 1/256 ns) and the hidden remainder in 2^-32 ns.
#[repr(C)]
#[derive(Clone, Copy, Default)]
pub struct Clock {
    pub seconds: u64,
    pub nanoseconds: u64,
    pub fraction: u64,
    pub remainder: u64,
}

// PER_ADJ in 2^-32 ns and the cycles that are left of it; none is all zeros.
#[repr(C)]
#[derive(Clone, Copy, Default)]
pub struct Adjustment {
    pub amount: u64,
    pub cycles: u64,
}

// PERIOD in 2^-32 ns, the running adjustment, and the one that waits behind it (document 02, A.4).
#[repr(C)]
#[derive(Clone, Copy)]
pub struct Steering {
    pub period: u64,
    pub adjustment: Adjustment,
    pub waiting: Adjustment,
}

// The timestamp of an input edge; rising is 1 or 0.
#[repr(C)]
#[derive(Clone, Copy, Default)]
pub struct Timestamp {
    pub seconds: u64,
    pub nanoseconds: u64,
    pub rising: u64,
}

// The timestamp FIFO of one timestamper: oldest first, unused places zero.
#[repr(C)]
#[derive(Clone, Copy, Default)]
pub struct Fifo {
    pub entries: [Timestamp; 8],
    pub count: u64,
}

// An instant: seconds, nanoseconds, and remainder / D of a nanosecond, D being its generator's denominator.
#[repr(C)]
#[derive(Clone, Copy, PartialEq, Eq, Default)]
pub struct Instant {
    pub seconds: u64,
    pub nanoseconds: u64,
    pub remainder: u64,
}

// An event generator: the pending instant, the interval W + N/D ns, the edges left, the direction of the next edge
// (0 rising, 1 falling) and the mark; idle is all zeros.
#[repr(C)]
#[derive(Clone, Copy, PartialEq, Eq, Default)]
pub struct Generator {
    pub pending: Instant,
    pub whole: u64,
    pub numerator: u64,
    pub denominator: u64,
    pub left: u64,
    pub direction: u64,
    pub mark: u64,
}

// PTP_IR and PTP_IE: the latched bits and the interrupt mask.
#[repr(C)]
#[derive(Clone, Copy, Default)]
pub struct Interrupts {
    pub latched: u64,
    pub enabled: u64,
}

// Five numbers: the words TEIO1 to TEIO5, and the values v1 to v5 of an outcome.
#[repr(C)]
#[derive(Clone, Copy, PartialEq, Eq, Default)]
pub struct Words {
    pub w1: u64,
    pub w2: u64,
    pub w3: u64,
    pub w4: u64,
    pub w5: u64,
}

// The engine record.
#[repr(C)]
#[derive(Clone, Copy)]
pub struct Engine {
    pub clock: Clock,
    pub steering: Steering,
    pub fifo1: Fifo,
    pub fifo2: Fifo,
    pub fifo3: Fifo,
    pub generator1: Generator,
    pub generator2: Generator,
    pub interrupts: Interrupts,
    pub words: Words,
}

// One line of a command sheet.
#[repr(C)]
#[derive(Clone, Copy, Default)]
pub struct Command {
    pub op: u64,
    pub a: u64,
    pub b: u64,
    pub c: u64,
    pub d: u64,
    pub e: u64,
    pub f: u64,
    pub g: u64,
    pub h: u64,
}

// What a command gives: 0 or the number of the first failed check, the five values, the next record.
#[derive(Clone, Copy)]
pub struct Outcome {
    pub answer: u64,
    pub values: Words,
    pub engine: Engine,
}
