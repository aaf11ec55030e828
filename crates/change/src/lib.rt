// What a command gives: a refusal, or what it changes of the record, every part but the timestamp FIFOs. These are most
// of the record and seldom move, so a caller that runs many commands keeps the record in one variable, moves a FIFO
// there only where one moves, and copies nothing. Document 01, "Command sheet".
#![tactic(auto)]

ghost use Rattle.std.specs.Prelude.{◌≡◌};
ghost use Rattle.change.specs.Changes.{change_to, applied};

use model::{Clock, Engine, Generator, Interrupts, Steering, Words};
pub use refusal::{Refusal, ensure};

pub mod refusal;

// What an accepted command returns and changes. `moves` tells that a FIFO moves: a tick stores a timestamp, or a read
// takes the oldest out.
#[derive(Clone, Copy)]
pub struct Change {
    pub values: Words,
    pub clock: Clock,
    pub steering: Steering,
    pub generator1: Generator,
    pub generator2: Generator,
    pub interrupts: Interrupts,
    pub words: Words,
    pub moves: bool,
}

// The change to this record.
pub fn change_to(values: Words, e: Engine, moves: bool) -> Change
    ensures { result ≡ change_to values e moves }
{
    Change {
        values,
        clock: e.clock,
        steering: e.steering,
        generator1: e.generator1,
        generator2: e.generator2,
        interrupts: e.interrupts,
        words: e.words,
        moves,
    }
}

// The record with the parts of a change, and with its own FIFOs.
pub fn apply(e: Engine, m: Change) -> Engine
    ensures { result ≡ applied e m }
{
    Engine {
        clock: m.clock,
        steering: m.steering,
        generator1: m.generator1,
        generator2: m.generator2,
        interrupts: m.interrupts,
        words: m.words,
        ..e
    }
}
