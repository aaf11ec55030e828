// What the benchmark of reference/ links beside the static library: so many ticks with no sheet around them, on a
// record that stays in place, with check 4 before each or without.
#![tactic(auto)]

ghost use Rattle.std.specs.Prelude.{◌≡◌, true};
ghost use Rattle.model.specs.Ranges.{valid};
ghost use Rattle.model.specs.Run.{engine_after};
ghost use Rattle.tick_bench.specs.Ticks.{Still, Gave, beforehand, tick_of, TicksTo, ticks, start_of, seen};

use model::{Command, Engine};
use tick_lines::command_of;

// The record after a command that is no tick and moves no FIFO.
fn give(e: Engine, c: Command) -> Engine
    requires { Still e c }
    ensures { Gave e c result }
{
    match engine::other(e, c) {
        Ok(m) => change::apply(e, m),
        Err(_) => e,
    }
}

// The record with the commands given, each written as a line of a sheet.
fn prepared(cycles: u64, edges: u64) -> Engine
    ensures { result ≡ engine_after (beforehand cycles edges) }
{
    let loaded = give(
        engine::power_on(),
        command_of([1, 0, cycles, 0, 0, 1920, 0, 0, 0]),
    );
    let steered = give(loaded, command_of([2, 2, 8, 0, 0, 0, 0, 0, 0]));
    let one = give(steered, command_of([3, 1, 0, 3, 256, 1, 3, edges, 1]));
    give(one, command_of([3, 2, 0, 5, 300, 6, 7, edges, 1]))
}

// The record after ticks, and the bits of every answer and code told on the way, so that none is left out.
#[derive(Clone, Copy)]
struct Run {
    engine: Engine,
    told: u64,
}

// One tick more.
#[inline]
fn turn(run: Run, c: Command) -> Run
    requires valid { valid run.engine ≡ true }
    requires op { c.op ≡ 0 }
    ensures { TicksTo run c 1 result }
{
    match tick::tick(run.engine, c) {
        Ok(m) => Run {
            engine: engine::settle(run.engine, c, Ok(m)),
            told: run.told | m.values.w1 | m.values.w2,
        },
        Err(refusal) => Run {
            told: run.told | refusal.number(),
            ..run
        },
    }
}

// So many ticks more with a code on each input. A record that fails its check, which none does, would end them.
fn ticked(mut run: Run, code: u64, n: u64, checked: bool) -> Run
    requires { valid run.engine ≡ true }
    ensures { TicksTo run (tick_of code) n result }
{
    let c = command_of([0, code, code, code, 0, 0, 0, 0, 0]);
    for _ in 0..n {
        if checked && !validity::is_valid(run.engine) {
            return run;
        }
        run = turn(run, c);
    }
    run
}

// After these commands and so many ticks with an edge on each input, n ticks with a code on each, the record checked
// before each of these where `checked` is 1: the nanoseconds shown at the end with the bits of all that was told.
pub fn tick_bench_ticks(
    n: u64,
    cycles: u64,
    edges: u64,
    stamps: u64,
    code: u64,
    checked: u64,
) -> u64
    ensures { result ≡ seen (ticks (tick_of code) n (ticks (tick_of 16) stamps (start_of cycles edges))) }
{
    let start = Run {
        engine: prepared(cycles, edges),
        told: 0,
    };
    let end = ticked(ticked(start, 16, stamps, false), code, n, checked == 1);
    end.engine.clock.nanoseconds | end.told
}
