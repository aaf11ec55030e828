// Op 9, a run of ticks without inputs, in a few divisions however long it is: the stretch without an edge by formula,
// then one tick where an edge falls. The result is the model's run, which goes tick by tick. Document 02, A.1.
#![tactic(auto)]

ghost use Rattle.std.specs.Prelude.{◌≡◌, true, ◌≤◌};
ghost use Rattle.model.specs.RunLine.{one_tick, run as run_spec};
ghost use Rattle.model.specs.Elapse.{amount_of};
ghost use Rattle.model.specs.Ranges.{valid};
ghost use Rattle.model.specs.Execute.{execute};
ghost use Rattle.change.specs.Changes.{Gives};
ghost use Rattle.run.specs.Runs.{earliest, quietly, ran_to, Starting, Ending};

use change::{Change, Refusal, change_to};
use interrupts::{Source, latch};
use model::{Command, Engine, Interrupts, WORD_LIMIT, Words};
use reach::Span;

// The earlier of two ticks, where there is one.
fn earlier(a: Option<u64>, b: Option<u64>) -> Option<u64>
    ensures { result ≡ earliest a b }
{
    match (a, b) {
        (Some(a), Some(b)) => Some(a.min(b)),
        _ => a.or(b),
    }
}

// n ticks without an edge.
fn pass(e: Engine, n: u64, span: Span) -> Change
    requires starting { Starting e n }
    requires clock_value { span.clock ≡ e.clock }
    requires amount_value { span.amount ≡ amount_of e.steering n }
    ensures { result ≡ ran_to (quietly n e) }
{
    let ended = elapse::ends_within(e.steering.adjustment, n);
    let values = Words {
        w3: n % WORD_LIMIT,
        w4: n / WORD_LIMIT,
        ..Words::default()
    };
    Change {
        clock: elapse::clock_at(e.clock.seconds, span.here + span.amount),
        steering: elapse::steer_by(e.steering, n),
        interrupts: Interrupts {
            latched: latch(e.interrupts.latched, Source::Tac, ended),
            ..e.interrupts
        },
        ..change_to(values, e, false)
    }
}

// n ticks and one more, in which an edge falls.
fn meet(e: Engine, n: u64) -> Change
    requires { Ending e n }
    ensures { result ≡ ran_to (one_tick (quietly n e)) }
{
    let before = pass(e, n, Span::new(e.clock, e.steering, n));
    let steered = clock::steer(before.steering);
    let step = clock::step_by(before.clock, steered.amount);
    let next = clock::tick_clock(before.clock, steered.amount, step);
    let tac = latch(before.interrupts.latched, Source::Tac, steered.last);
    let outputs = tick::advance_outputs(e.generator1, e.generator2, before.clock, next, step, tac);
    let done = n + 1;
    Change {
        values: Words {
            w3: done % WORD_LIMIT,
            w4: done / WORD_LIMIT,
            ..outputs.values
        },
        clock: next,
        steering: steered.steering,
        generator1: outputs.generator1,
        generator2: outputs.generator2,
        interrupts: Interrupts {
            latched: outputs.latched,
            ..e.interrupts
        },
        ..before
    }
}

// At most n ticks: those before the end of time, up to the first edge.
fn run_within(e: Engine, n: u64) -> Change
    requires { (valid e ≡ true) × (n ≤ 1000000) }
    ensures { result ≡ ran_to (run_spec n e) }
{
    let all = Span::new(e.clock, e.steering, n);
    let few = all.ticks_in_time(n);
    let within = if few < n {
        Span::new(e.clock, e.steering, few)
    } else {
        all
    };
    let edge1 = within.edge_tick(e.generator1);
    let edge2 = within.edge_tick(e.generator2);
    match earlier(edge1, edge2) {
        Some(first) => meet(e, first - 1),
        None => pass(e, few, within),
    }
}

// Op 9 on a valid record: numbers 6 and 15, then the run.
pub fn run(e: Engine, c: Command) -> Result<Change, Refusal>
    requires e_value { valid e ≡ true }
    requires op_value { c.op ≡ 9 }
    ensures { Gives e c (execute e c) result }
{
    if !fields::run_fields(c) {
        return Err(Refusal::Fields);
    }
    if !clock::has_time_left(e.clock, e.steering) {
        return Err(Refusal::TimeOver);
    }
    Ok(run_within(e, c.a))
}
