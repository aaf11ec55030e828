// Op 10, a preview: where the clock would end after an adjust write from the present words and so many ticks, by
// formula on clock and steering alone, and what would refuse one of them first. The result is the model's preview,
// which goes tick by tick on a copy of the record. Document 02, A.5.
#![tactic(auto)]

ghost use Rattle.std.specs.Prelude.{◌≡◌, true};
ghost use Rattle.model.specs.Ranges.{valid};
ghost use Rattle.model.specs.Execute.{execute};
ghost use Rattle.change.specs.Refusals.{answer_in};
ghost use Rattle.change.specs.Changes.{Gives};
ghost use Rattle.preview.specs.Previews.{refusal_before, Previewing};

use change::{Change, Refusal, change_to, ensure};
use model::{Command, Engine};

// The checks above 15: the fields, then those of the adjust write.
#[tactic(auto, using(crate::proofs::Checked::words_within), unfolding(crate::specs::Previews::refusal_before))]
fn check(e: Engine, c: Command) -> Result<(), Refusal>
    requires { valid e ≡ true }
    ensures { answer_in result ≡ refusal_before e c }
{
    ensure(fields::preview_fields(c), Refusal::Fields)?;
    ensure(1 <= words::whole_in(e.words), Refusal::Amount)?;
    ensure(1 <= words::count_in(e.words), Refusal::NoCycles)?;
    ensure(e.steering.waiting.cycles == 0, Refusal::Waiting)
}

// The ticks behind an accepted write, by formula.
fn show(e: Engine, c: Command) -> Result<Change, Refusal>
    requires { Previewing e c }
    ensures { Gives e c (execute e c) result }
{
    let steering = clock::adjust(e.steering, words::adjustment_in(e.words));
    let after = elapse::in_second(e.clock) + elapse::amount_of(steering, c.a);
    ensure(
        elapse::is_in_time(e.clock.seconds, after),
        Refusal::TimeOver,
    )?;
    let k = elapse::clock_at(e.clock.seconds, after);
    let time = words::time_words(k.seconds, k.nanoseconds, 0);
    Ok(change_to(time, e, false))
}

// Op 10 on a valid record.
pub fn preview(e: Engine, c: Command) -> Result<Change, Refusal>
    requires e_value { valid e ≡ true }
    requires op_value { c.op ≡ 10 }
    ensures { Gives e c (execute e c) result }
{
    check(e, c)?;
    show(e, c)
}
