// The engine over a record that the firmware lends: what include/lendaru_panel.h declares, and lendaru_panel_c exports.
// An archive of its own, since a second caller of the engine in liblendaru.a would keep the compiler from putting the
// tick into the sheet's loop.
#![tactic(auto)]

ghost use Rattle.std.specs.Prelude.{◌≡◌};
ghost use Rattle.model.specs.Record.{power_on, record_version};
ghost use Rattle.model.specs.Execute.{execute as execute_spec};
ghost use Rattle.change.specs.Changes.{Gives};
ghost use Rattle.lendaru_panel.specs.Lent.{reply_of, Lent};

use change::{Change, Refusal};
use model::{Command, Engine, Words};

const RECORD_VERSION: u64 = 2;

// What the caller is told: the answer and the five values.
#[repr(C)]
#[derive(Clone, Copy)]
pub struct Reply {
    pub answer: u64,
    pub values: Words,
}

// The version of the record's layout.
pub fn lendaru_record_version() -> u64
    ensures { result ≡ record_version }
{
    RECORD_VERSION
}

// The record at power-on, by value.
pub fn lendaru_power_on() -> Engine
    ensures { result ≡ power_on }
{
    engine::power_on()
}

// What a command changes of any record, or why it is refused.
fn change_of(e: Engine, c: Command) -> Result<Change, Refusal>
    ensures { Gives e c (execute_spec e c) result }
{
    if validity::is_valid(e) {
        engine::change_by(e, c)
    } else {
        Err(Refusal::Record)
    }
}

// What the caller is told of a change or a refusal. C has no Result: a number, 0 where it is accepted.
pub fn reply_of(change: Result<Change, Refusal>) -> Reply
    ensures { result ≡ reply_of change }
{
    match change {
        Ok(m) => Reply {
            answer: 0,
            values: m.values,
        },
        Err(refusal) => Reply {
            answer: refusal.number(),
            values: Words::default(),
        },
    }
}

// One command on a lent record. A FIFO moves in few commands, so the record is stored without them but for those.
pub fn lendaru_execute(e: &mut Engine, c: Command) -> Reply
    ensures { Lent e.old c e.new result }
{
    match change_of(*e, c) {
        Ok(m) => {
            if m.moves {
                *e = engine::move_fifos(*e, c);
            }
            *e = change::apply(*e, m);
            reply_of(Ok(m))
        }
        Err(refusal) => reply_of(Err(refusal)),
    }
}
