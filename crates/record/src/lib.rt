// The engine record: its generators by number, and the record with a part replaced. Every change of the record but a
// tick's goes through these, so that a new part is a local edit. Each function returns a definition of the model's
// specs/Record.antt.
#![tactic(auto)]

ghost use Rattle.std.specs.Prelude.{◌≡◌};
ghost use Rattle.model.specs.Record.{with_clock, with_steering, with_generators, with_interrupts, with_words};
ghost use Rattle.model.specs.Record.{generator, with_generator};

use model::{Clock, Engine, Generator, Interrupts, Steering, Words};

pub fn with_clock(e: Engine, k: Clock) -> Engine
    ensures { result ≡ with_clock e k }
{
    Engine { clock: k, ..e }
}

pub fn with_steering(e: Engine, s: Steering) -> Engine
    ensures { result ≡ with_steering e s }
{
    Engine { steering: s, ..e }
}

pub fn with_interrupts(e: Engine, i: Interrupts) -> Engine
    ensures { result ≡ with_interrupts e i }
{
    Engine { interrupts: i, ..e }
}

pub fn with_words(e: Engine, w: Words) -> Engine
    ensures { result ≡ with_words e w }
{
    Engine { words: w, ..e }
}

pub fn with_generators(e: Engine, x: Generator, y: Generator) -> Engine
    ensures { result ≡ with_generators e x y }
{
    Engine {
        generator1: x,
        generator2: y,
        ..e
    }
}

// Generator 1 or 2, by number.
pub fn generator_at(e: Engine, n: u64) -> Generator
    ensures { result ≡ generator e n }
{
    if n == 1 { e.generator1 } else { e.generator2 }
}

pub fn with_generator(e: Engine, n: u64, g: Generator) -> Engine
    ensures { result ≡ with_generator e n g }
{
    if n == 1 {
        Engine { generator1: g, ..e }
    } else {
        Engine { generator2: g, ..e }
    }
}
