// One line of results through a writer: sheet line, answer and five values, with a short way where all but the line
// are 0. The text is the definition `result_line` of text's specs/Results.antt. Document 01, "Command sheet".
#![tactic(auto)]

ghost use Rattle.text.specs.Results.{result_line};
ghost use Rattle.numerals.specs.Written.{HasRoom, AppendsText};

use model::Words;
use numerals::TextWriter;
use writing::{put_bytes, put_row};

// What stands behind the line number where answer and values are 0, as in most results.
const NO_VALUES: [u8; 13] = *b",0,0,0,0,0,0\n";

// The line of one result.
pub fn put_result(writer: &mut TextWriter<'_>, line: u64, answer: u64, v: Words)
    requires { HasRoom writer.old (result_line line answer v) }
    ensures { AppendsText writer.old writer.new (result_line line answer v) }
{
    if answer == 0 && v == Words::default() {
        writer.put_number(line);
        put_bytes(writer, &NO_VALUES);
    } else {
        put_row(writer, &[line, answer, v.w1, v.w2, v.w3, v.w4, v.w5]);
    }
}
