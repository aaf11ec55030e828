// Value lines that are known by their bytes: a tick without inputs, as most lines are, and an op that has only a number
// of ticks. Each function returns a definition of text's specs/Sheet.antt or of specs/. Document 01, "Command sheet";
// document 02, A.1 and A.5.
#![tactic(auto)]

ghost use Rattle.std.specs.Prelude.{◌≡◌, IfSome};
ghost use Rattle.text.specs.Text.{starts_with};
ghost use Rattle.text.specs.Sheet.{command_of};
ghost use Rattle.tick_lines.specs.AtOnce.{tick_line, begun_in, TicksIn};

use model::Command;
use values::eight_at;

// "0,0,0,0," as a number, the first byte lowest.
const FOUR_ZEROS: u64 = 0x2C30_2C30_2C30_2C30;

// What stands behind a number of ticks, ",0,0,0,0,0,0,0" and the line end, as two numbers: its first eight bytes and
// its last eight, which share one.
const ZEROS_BEHIND: u64 = 0x302C_302C_302C_302C;

const ZEROS_TO_END: u64 = 0x0A30_2C30_2C30_2C30;

// Nine numbers as a command.
pub fn command_of(n: [u64; 9]) -> Command
    ensures { result ≡ command_of n }
{
    Command {
        op: n[0],
        a: n[1],
        b: n[2],
        c: n[3],
        d: n[4],
        e: n[5],
        f: n[6],
        g: n[7],
        h: n[8],
    }
}

// A tick without inputs stands at the front, as in most lines: "0,0,0,0," twice, a last 0 and the line end.
pub fn is_tick(s: &[u8]) -> bool
    ensures { result ≡ starts_with tick_line s.now }
{
    if s.len() < 18
        || eight_at(s, 0) != FOUR_ZEROS
        || eight_at(s, 8) != FOUR_ZEROS
        || s[16] != b'0'
    {
        return false;
    }
    s[17] == b'\n'
}

// How a value line begins that has nothing but a number of ticks: the op, 9 or 10, and where the number begins.
#[derive(Clone, Copy)]
pub struct Begun {
    pub op: u64,
    pub from: usize,
}

pub fn begun_in(s: &[u8]) -> Option<Begun>
    ensures { result ≡ begun_in s.now }
{
    // fewer bytes than every value line has
    if s.len() < 18 {
        return None;
    }
    match s {
        [b'9', b',', ..] => Some(Begun { op: 9, from: 2 }),
        [b'1', b'0', b',', ..] => Some(Begun { op: 10, from: 3 }),
        _ => None,
    }
}

// The number of ticks of such a line, up to seven digits, the first not 0, with zeros behind it; and where its line end
// stands.
pub fn ticks_in(s: &[u8]) -> Option<(u64, usize)>
    ensures { IfSome result (λ found. TicksIn s.now found.0 found.1) }
{
    let mut v = 0;
    let mut digits = 0;
    for &b in s {
        if digits == 7 || b < b'0' || b'9' < b {
            break;
        }
        v = v * 10 + u64::from(b - b'0');
        digits += 1;
    }
    // no digit at all, or a 0 in front, or something else behind the digits
    if s.len() - digits < 15
        || s[0] <= b'0'
        || eight_at(s, digits) != ZEROS_BEHIND
        || eight_at(s, digits + 7) != ZEROS_TO_END
    {
        return None;
    }
    Some((v, digits + 14))
}
