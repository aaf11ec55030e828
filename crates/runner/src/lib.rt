// Running a command sheet: its bytes in, the text of its results out, in a lent buffer. The text is the
// definition `results` of the sheet (text's specs/Results.antt). The record is valid at power-on and every step keeps
// it valid, so it is never checked again. Document 01, "Command sheet".
#![tactic(auto)]

ghost use Rattle.std.specs.Prelude.{◌+◌, ◌≤◌, ◌≡◌, length};
ghost use Rattle.text.specs.Forms.{sheet_accepted};
ghost use Rattle.text.specs.Sheet.{sheet_verdict};
ghost use Rattle.text.specs.Results.{command_results};
ghost use Rattle.numerals.specs.Written.{HasRoom, AppendsText};
ghost use Rattle.runner.specs.Ran.{Ran};

use lines::next_line;
use model::Words;
use numerals::TextWriter;
use result_lines::put_result;
use writing::put_bytes;

// The first line of the results, its line end included.
const HEAD: [u8; 27] = *b"line,answer,v1,v2,v3,v4,v5\n";

// A line for each command of an accepted sheet, run from power-on.
fn put_results(s: &[u8], writer: &mut TextWriter<'_>)
    requires s_value { sheet_verdict s.now ≡ sheet_accepted }
    requires room { HasRoom writer.old (command_results s.now) }
    ensures { AppendsText writer.old writer.new (command_results s.now) }
{
    let mut e = engine::power_on();
    let mut line = 2;
    let mut rest = &s[19..];
    loop {
        let next = next_line(rest);
        let Some(command) = next.line else {
            return;
        };
        // A refusal is the change that changes nothing: with one path for both a line copies less of the record.
        let (answer, change) = match engine::change_by(e, command) {
            Ok(change) => (0, change),
            Err(refusal) => (
                refusal.number(),
                change::change_to(Words::default(), e, false),
            ),
        };
        if change.moves {
            e = engine::move_fifos(e, command);
        }
        e = change::apply(e, change);
        put_result(writer, line, answer, change.values);
        rest = &rest[next.end + 1..];
        line += 1;
    }
}

// The whole sheet. The results stand at the front of the buffer, and their length is returned; a buffer of fewer than
// 138,309 bytes is left as it was, and 0 is returned.
#[tactic(auto, using(crate::proofs::Whole::ran_short))]
pub fn run_sheet(s: &[u8], out: &mut [u8]) -> usize
    ensures { Ran s.now out.old out.new result }
{
    if out.len() < 138309 {
        return 0;
    }
    let mut writer = TextWriter { out, end: 0 };
    put_bytes(&mut writer, &HEAD);
    match sheet::check_sheet(s) {
        Ok(()) => put_results(s, &mut writer),
        Err(refusal) => put_result(
            &mut writer,
            refusal.line(),
            refusal.number(),
            Words::default(),
        ),
    }
    writer.end
}
