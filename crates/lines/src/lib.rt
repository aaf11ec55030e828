// Reading the value line at the front of a command sheet's bytes, with short ways for the lines that are most, those of
// ticks. Each function returns a definition of text's specs/Sheet.antt or of specs/. Document 01, "Command sheet".
#![tactic(auto)]

ghost use Rattle.std.specs.Prelude.{◌≡◌, IfSome};
ghost use Rattle.text.specs.Sheet.{line_of};
ghost use Rattle.lines.specs.Reading.{line_part, ReadFrom, EndOf};

use digits::read_value;
use model::Command;
use tick_lines::{begun_in, command_of, is_tick, ticks_in};
use values::{run_length, take_values};

// The value line at the front: the caller's bytes up to the next line end, which is looked for behind 17 bytes, since
// no value line has fewer. A shorter line is handed on with a line end in it, and is none either way.
fn line_in(s: &[u8]) -> &[u8]
    ensures { result.now ≡ line_part s.now }
{
    if s.len() < 17 {
        return s;
    }
    let end = 17 + run_length(&s[17..], b'\n');
    &s[..end]
}

// One value line, without its line end: eight values up to a comma each, and the ninth up to the end.
fn read_line(s: &[u8]) -> Option<Command>
    ensures { result ≡ line_of s.now }
{
    let mut numbers = [0; 9];
    let Ok(at) = take_values(s, &mut numbers[..8]) else {
        return None;
    };
    numbers[8] = read_value(&s[at..])?;
    Some(command_of(numbers))
}

// What stands at the front: what the value line there reads as, and where the part that was read ends, which is at its
// line end where it is a line.
#[derive(Clone, Copy)]
pub struct Next {
    pub line: Option<Command>,
    pub end: usize,
}

// The line of an op that has nothing but a number of ticks, of up to seven digits.
fn ticks_line(s: &[u8]) -> Option<Next>
    ensures { IfSome result (ReadFrom s.now) }
{
    let begun = begun_in(s)?;
    let (ticks, end) = ticks_in(&s[begun.from..])?;
    Some(Next {
        line: Some(command_of([begun.op, ticks, 0, 0, 0, 0, 0, 0, 0])),
        end: begun.from + end,
    })
}

// The value line at the front, without a line end none. A number of ticks is read at once. It is kept out of the loops
// over lines, in which the short way below belongs.
#[inline(never)]
fn read(s: &[u8]) -> Next
    ensures { ReadFrom s.now result }
{
    if let Some(next) = ticks_line(s) {
        return next;
    }
    let part = line_in(s);
    let end = part.len();
    if s.len() <= end {
        return Next { line: None, end };
    }
    Next {
        line: read_line(part),
        end,
    }
}

// The value line at the front, with a short way for a tick.
#[inline]
pub fn next_line(s: &[u8]) -> Next
    ensures { ReadFrom s.now result }
{
    if is_tick(s) {
        return Next {
            line: Some(command_of([0; 9])),
            end: 17,
        };
    }
    read(s)
}

// Where the value line at the front ends, at its line end, if there is one.
pub fn line_end(s: &[u8]) -> Option<usize>
    ensures { EndOf s.now result }
{
    let next = next_line(s);
    next.line?;
    Some(next.end)
}
