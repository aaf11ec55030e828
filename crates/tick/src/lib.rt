// Op 0, one reference cycle: the clock, the adjustment, the three timestampers and the two event generators move at
// once, each worked out from the record before the tick, and the events are latched. Document 01, "The clock" and
// "Stamps and generators".
#![tactic(auto)]

ghost use Rattle.std.specs.Prelude.{◌≡◌, true};
ghost use Rattle.model.specs.Clock.{shown};
ghost use Rattle.model.specs.Tick.{tick_engine, tick_values};
ghost use Rattle.model.specs.Ranges.{valid};
ghost use Rattle.model.specs.Execute.{execute};
ghost use Rattle.change.specs.Changes.{change_to, timestamps_stored, Gives};
ghost use Rattle.fifo.specs.Capture.{is_first, is_dropped};
ghost use Rattle.generator.specs.Advance.{Ticking};
ghost use Rattle.interrupts.specs.Position.{latch_two};
ghost use Rattle.tick.specs.Ticks.{Ticks, output_of, outputs_of, inputs_of, stores_any};

use change::{Change, Refusal};
use fifo::Arrival;
use generator::Edge;
use interrupts::{Source, latch, latch_two};
use model::{Clock, Command, Engine, Generator, Interrupts, Words};

// What a tick makes of a generator: its code, where 0 is none, the generator after it, and the latched bits.
#[derive(Clone, Copy)]
struct Output {
    code: u64,
    generator: Generator,
    latched: u64,
}

// Events are latched each where it arises, so that a part to which nothing happens costs no more than the look at it.
#[tactic(auto, unfolding(interrupts::specs::Position::latch_one, interrupts::specs::Position::latch_two))]
fn latch_edge(edge: Option<Edge>, g: Generator, latched: u64, ec: Source, sc: Source) -> Output
    ensures { result ≡ output_of edge g latched ec sc }
{
    match edge {
        Some(edge) => Output {
            code: edge.code,
            generator: edge.generator,
            latched: latch_two(latched, ec, edge.event, sc, edge.sequence),
        },
        None => Output {
            code: 0,
            generator: g,
            latched,
        },
    }
}

// What a tick makes of the two generators: their codes as values, the generators after it, and the latched bits.
#[derive(Clone, Copy)]
pub struct Outputs {
    pub values: Words,
    pub generator1: Generator,
    pub generator2: Generator,
    pub latched: u64,
}

// Two generators in a tick of a step that takes the clock from k to next. Events are latched in the order of the table
// of bit positions. A run calls it too, and neither is to pay for a call.
#[tactic(auto, unfolding(crate::specs::Ticks::outputs_of))]
#[inline(always)]
pub fn advance_outputs(
    generator1: Generator,
    generator2: Generator,
    k: Clock,
    next: Clock,
    step: u64,
    latched: u64,
) -> Outputs
    requires first { Ticking generator1 k next step }
    requires second { Ticking generator2 k next step }
    ensures { result ≡ outputs_of generator1 generator2 (shown k) step latched }
{
    let edge1 = generator::advance(generator1, k, next, step);
    let one = latch_edge(edge1, generator1, latched, Source::P1Ec, Source::P1Sc);
    let edge2 = generator::advance(generator2, k, next, step);
    let two = latch_edge(edge2, generator2, one.latched, Source::P2Ec, Source::P2Sc);
    Outputs {
        values: Words {
            w1: one.code,
            w2: two.code,
            ..Words::default()
        },
        generator1: one.generator,
        generator2: two.generator,
        latched: two.latched,
    }
}

// NE of a timestamper is latched with the first edge in its FIFO, OF with one that is dropped.
#[tactic(auto, unfolding(interrupts::specs::Position::latch_one, interrupts::specs::Position::latch_two))]
fn latch_arrival(latched: u64, arrival: Arrival, ne: Source, of: Source) -> u64
    ensures { result ≡ latch_two ne (is_first arrival) of (is_dropped arrival) latched }
{
    match arrival {
        Arrival::NoEdge => latched,
        Arrival::Stored { first } => latch(latched, ne, first),
        Arrival::Overflow => latch(latched, of, true),
    }
}

// What a tick makes of the three inputs: whether an edge is stored, and the latched bits.
#[derive(Clone, Copy)]
struct Inputs {
    stored: bool,
    latched: u64,
}

#[tactic(auto, unfolding(crate::specs::Ticks::inputs_of))]
fn arrive_inputs(e: Engine, c: Command, latched: u64) -> Inputs
    ensures { result ≡ inputs_of e c latched }
{
    // As in most ticks. Without this each FIFO's arrival is worked out, a third more instructions for such a tick.
    if c.a == 0 && c.b == 0 && c.c == 0 {
        return Inputs {
            stored: false,
            latched,
        };
    }
    let one = fifo::arrive(e.fifo1, c.a);
    let ts1 = latch_arrival(latched, one, Source::Ts1Ne, Source::Ts1Of);
    let two = fifo::arrive(e.fifo2, c.b);
    let ts2 = latch_arrival(ts1, two, Source::Ts2Ne, Source::Ts2Of);
    let three = fifo::arrive(e.fifo3, c.c);
    let ts3 = latch_arrival(ts2, three, Source::Ts3Ne, Source::Ts3Of);
    Inputs {
        stored: one.is_stored() || two.is_stored() || three.is_stored(),
        latched: ts3,
    }
}

// An accepted tick, from the record before it: steering, then outputs, then inputs.
fn cycle(e: Engine, c: Command) -> Change
    requires { Ticks e c }
    ensures { result ≡ change_to (tick_values e) (tick_engine e c) (stores_any e c) }
{
    let steered = clock::steer(e.steering);
    let step = clock::step_by(e.clock, steered.amount);
    let next = clock::tick_clock(e.clock, steered.amount, step);
    let tac = latch(e.interrupts.latched, Source::Tac, steered.last);
    let outputs = advance_outputs(e.generator1, e.generator2, e.clock, next, step, tac);
    let inputs = arrive_inputs(e, c, outputs.latched);
    Change {
        values: outputs.values,
        clock: next,
        steering: steered.steering,
        generator1: outputs.generator1,
        generator2: outputs.generator2,
        interrupts: Interrupts {
            latched: inputs.latched,
            ..e.interrupts
        },
        words: e.words,
        moves: inputs.stored,
    }
}

// Op 0 on a valid record: numbers 6 and 15, then the tick.
pub fn tick(e: Engine, c: Command) -> Result<Change, Refusal>
    requires e_value { valid e ≡ true }
    requires op_value { c.op ≡ 0 }
    ensures { Gives e c (execute e c) result }
{
    if !fields::tick_fields(c) {
        return Err(Refusal::Fields);
    }
    if !clock::has_time_left(e.clock, e.steering) {
        return Err(Refusal::TimeOver);
    }
    Ok(cycle(e, c))
}

// The timestamps of a tick's inputs, stored in the record before it: all worked out first, since one by one in their
// places each would be copied once more.
pub fn store_timestamps(mut e: Engine, c: Command) -> Engine
    requires { Ticks e c }
    ensures { result ≡ timestamps_stored e c }
{
    let steered = clock::steer(e.steering);
    let step = clock::step_by(e.clock, steered.amount);
    let fifo1 = fifo::capture(e.fifo1, e.clock, step, c.a);
    let fifo2 = fifo::capture(e.fifo2, e.clock, step, c.b);
    let fifo3 = fifo::capture(e.fifo3, e.clock, step, c.c);
    e.fifo1 = fifo1;
    e.fifo2 = fifo2;
    e.fifo3 = fifo3;
    e
}
