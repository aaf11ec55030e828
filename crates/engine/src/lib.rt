// The time engine: power-on; what a command changes of a valid record, for callers that keep it in place; and one
// command on a valid record or on any, by value. They are the model's power_on and execute, for every record and every
// command. Document 01, "Command sheet" and "Where each command is checked".
#![tactic(auto)]

ghost use Rattle.std.specs.Prelude.{◌≡◌, true, false, ◌<◌, eqb, Ok};
ghost use Rattle.model.specs.Record.{power_on};
ghost use Rattle.model.specs.Outcome.{refused as refused_spec};
ghost use Rattle.model.specs.Ops.{performed};
ghost use Rattle.model.specs.Ranges.{valid};
ghost use Rattle.model.specs.Execute.{execute as execute_spec};
ghost use Rattle.change.specs.Refusals.{number_of};
ghost use Rattle.change.specs.Changes.{fifos_moved, moves_fifo, Gives};
ghost use Rattle.engine.specs.Stepped.{Performing, Stepped};

use change::{Change, Refusal, apply};
use model::{Adjustment, Clock, Command, Engine, Interrupts, Outcome, Steering, Words};
use op::Op;

// Time 0, PERIOD 8 ns, both masks and all words 0, everything else empty.
#[tactic(auto, unfolding(model::specs::Record::power_on))]
pub fn power_on() -> Engine
    ensures { result ≡ power_on }
{
    let empty = fifo::empty_fifo();
    let idle = generator::idle_generator();
    Engine {
        clock: Clock::default(),
        steering: Steering {
            period: 0x800000000,
            adjustment: Adjustment::default(),
            waiting: Adjustment::default(),
        },
        fifo1: empty,
        fifo2: empty,
        fifo3: empty,
        generator1: idle,
        generator2: idle,
        interrupts: Interrupts::default(),
        words: words::no_words(),
    }
}

// An accepted command of ops 1 to 8, by its op.
fn perform(e: Engine, c: Command, op: Op) -> Change
    requires { Performing e c op }
    ensures { Gives e c (performed e c) (Ok result) }
{
    match op {
        Op::LoadWords => ops::load_words(e, c),
        Op::Command => ops::command(e, c),
        Op::Arm => ops::arm(e, c),
        Op::Stop => ops::stop(e, c),
        Op::ReadInterrupts => ops::read_interrupts(e),
        Op::SetMask => ops::set_mask(e, c),
        Op::ReadStatus => ops::read_status(e),
        _ => ops::show_words(e),
    }
}

// A command that is no tick, on a valid record: a refusal changes nothing. The ops above 8 make their own checks, as a
// tick does.
pub fn other(e: Engine, c: Command) -> Result<Change, Refusal>
    requires e_value { valid e ≡ true }
    requires op_value { eqb c.op 0 ≡ false }
    ensures { Gives e c (execute_spec e c) result }
{
    match Op::try_from(c.op)? {
        Op::Run => run::run(e, c),
        Op::Preview => preview::preview(e, c),
        Op::Depart => departure::depart(e, c),
        Op::Recover => departure::recover(e, c),
        op => {
            checks::check(e, c)?;
            Ok(perform(e, c, op))
        }
    }
}

// What a command changes of a valid record, or why it is refused.
pub fn change_by(e: Engine, c: Command) -> Result<Change, Refusal>
    requires { valid e ≡ true }
    ensures { Gives e c (execute_spec e c) result }
{
    if c.op == 0 {
        tick::tick(e, c)
    } else {
        other(e, c)
    }
}

// The record with its FIFOs moved, where a change says that one moves.
pub fn move_fifos(e: Engine, c: Command) -> Engine
    requires { moves_fifo e c ≡ true }
    ensures { result ≡ fifos_moved e c }
{
    if c.op == 0 {
        tick::store_timestamps(e, c)
    } else {
        ops::take_timestamp(e, c.b)
    }
}

// The record with a command's change made: its FIFOs moved where one moves, then the parts of the change. A refusal
// leaves it as it was.
pub fn settle(mut e: Engine, c: Command, change: Result<Change, Refusal>) -> Engine
    requires { Gives e c (execute_spec e c) change }
    ensures { result ≡ (execute_spec e c).engine }
{
    let Ok(m) = change else {
        return e;
    };
    if m.moves {
        e = move_fifos(e, c);
    }
    apply(e, m)
}

// A refusal: its number, five zeros, the same record.
fn refused(e: Engine, refusal: Refusal) -> Outcome
    ensures { result ≡ refused_spec e (number_of refusal) }
{
    Outcome {
        answer: refusal.number(),
        values: Words::default(),
        engine: e,
    }
}

// One command on a valid record, which stays valid: for callers that run many, and check the record once.
pub fn step(e: Engine, c: Command) -> Outcome
    requires { valid e ≡ true }
    ensures { Stepped e c result }
{
    let change = change_by(e, c);
    match change {
        Ok(m) => Outcome {
            answer: 0,
            values: m.values,
            engine: settle(e, c, change),
        },
        Err(refusal) => refused(e, refusal),
    }
}

// One command on any record.
pub fn execute(e: Engine, c: Command) -> Outcome
    ensures { result ≡ execute_spec e c }
{
    if validity::is_valid(e) {
        step(e, c)
    } else {
        refused(e, Refusal::Record)
    }
}
