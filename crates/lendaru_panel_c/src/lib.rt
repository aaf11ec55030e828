// The static library over a record that the firmware lends: the functions of `lendaru_panel` under the names that
// include/lendaru_panel.h gives them in C, each with its clauses again. `tools/archives` makes liblendaru_panel.a of
// it.
#![tactic(auto)]

ghost use Rattle.std.specs.Prelude.{◌≡◌};
ghost use Rattle.model.specs.Record.{power_on, record_version};
ghost use Rattle.lendaru_panel.specs.Lent.{Lent};

use lendaru_panel::Reply;
use model::{Command, Engine};

// The version of the record's layout.
#[unsafe(no_mangle)]
pub extern "C" fn lendaru_record_version() -> u64
    ensures { result ≡ record_version }
{
    lendaru_panel::lendaru_record_version()
}

// The record at power-on, by value.
#[unsafe(no_mangle)]
pub extern "C" fn lendaru_power_on() -> Engine
    ensures { result ≡ power_on }
{
    lendaru_panel::lendaru_power_on()
}

// One command on a lent record.
#[unsafe(no_mangle)]
pub extern "C" fn lendaru_execute(e: &mut Engine, c: Command) -> Reply
    ensures { Lent e.old c e.new result }
{
    lendaru_panel::lendaru_execute(e, c)
}
