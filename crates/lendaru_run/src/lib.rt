// A run of ticks on a record that the firmware lends: what include/lendaru_panel.h declares beside the commands, and
// lendaru_run_c exports. An archive of its own, since a second caller of check 4 and of the run in liblendaru_panel.a
// would make a function of each, to which the record is copied. Document 02, A.1.
#![tactic(auto)]

ghost use Rattle.std.specs.Prelude.{◌≡◌};
ghost use Rattle.model.specs.RunLine.{run_line};
ghost use Rattle.model.specs.Execute.{execute as execute_spec};
ghost use Rattle.change.specs.Changes.{Gives};
ghost use Rattle.lendaru_panel.specs.Lent.{Lent};

use change::{Change, Refusal};
use lendaru_panel::Reply;
use model::{Command, Engine};

// The run line of at most a ticks.
fn run_line(a: u64) -> Command
    ensures { result ≡ run_line a }
{
    Command {
        op: 9,
        a,
        ..Command::default()
    }
}

// What a run changes of any record, or why it is refused.
fn run_of(e: Engine, a: u64) -> Result<Change, Refusal>
    ensures { Gives e (run_line a) (execute_spec e (run_line a)) result }
{
    if validity::is_valid(e) {
        run::run(e, run_line(a))
    } else {
        Err(Refusal::Record)
    }
}

// A run of at most a ticks on a lent record, which it finds advanced. No FIFO moves, so there is one store.
#[tactic(auto, using(crate::proofs::Applied::run_applied))]
pub fn lendaru_run(e: &mut Engine, a: u64) -> Reply
    ensures { Lent e.old (run_line a) e.new result }
{
    let change = run_of(*e, a);
    if let Ok(m) = change {
        *e = change::apply(*e, m);
    }
    lendaru_panel::reply_of(change)
}
