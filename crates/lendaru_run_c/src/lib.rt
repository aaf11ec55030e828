// The static library that runs ticks on a record that the firmware lends: the function of `lendaru_run` under the name
// that include/lendaru_panel.h gives it in C, with its clause again. `tools/archives` makes liblendaru_run.a of it; C
// may link that beside liblendaru_panel.a.
#![tactic(auto)]

ghost use Rattle.model.specs.RunLine.{run_line};
ghost use Rattle.lendaru_panel.specs.Lent.{Lent};

use lendaru_panel::Reply;
use model::Engine;

// A run of at most a ticks on a lent record, which it finds advanced.
#[unsafe(no_mangle)]
pub extern "C" fn lendaru_run(e: &mut Engine, a: u64) -> Reply
    ensures { Lent e.old (run_line a) e.new result }
{
    lendaru_run::lendaru_run(e, a)
}
