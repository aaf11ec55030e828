// The values of a line of a command sheet: one at the front of a text, up to its comma, with short ways for one digit
// and two; those at the front of a line; and some bytes as a number. Each function returns a definition of specs/.
// Document 01, "Command sheet"; document 02, A.6.
#![tactic(auto)]

ghost use Rattle.std.specs.Prelude.{◌≡◌, ◌==◌, position, ◌+◌, ◌^◌, ◌<◌, ◌≤◌, length};
ghost use Rattle.values.specs.Bytes.{pair_at, four_at, eight_at};
ghost use Rattle.values.specs.Taking.{RunTo, TakenFrom};
ghost use Rattle.values.specs.Fronts.{FrontOf};

use bits::join;
use digits::read_value;

// The index of the next separator.
fn separator_in(s: &[u8], separator: u8) -> Option<usize>
    ensures { result ≡ position (λ b. b == separator) s.now }
{
    s.iter().position(|&b| b == separator)
}

// How many bytes stand before the next separator.
pub fn run_length(s: &[u8], separator: u8) -> usize
    ensures { RunTo separator s.now result }
{
    separator_in(s, separator).unwrap_or(s.len())
}

// A value, if there is one, and where it ends: at the next comma, or where none follows, at the end of the text.
#[derive(Clone, Copy)]
pub struct Taken {
    pub value: Option<u64>,
    pub end: usize,
}

// The value at the front, which has to have a comma behind it. One digit or two are taken at once, as most values are.
pub fn take_value(s: &[u8]) -> Taken
    ensures { TakenFrom s.now result }
{
    if let [digit @ b'0'..=b'9', b',', ..] = s {
        return Taken {
            value: Some(u64::from(*digit - b'0')),
            end: 1,
        };
    }
    if let [tens @ b'1'..=b'9', units @ b'0'..=b'9', b',', ..] = s {
        return Taken {
            value: Some(u64::from(*tens - b'0') * 10 + u64::from(*units - b'0')),
            end: 2,
        };
    }
    let end = run_length(s, b',');
    if end == s.len() {
        return Taken { value: None, end };
    }
    Taken {
        value: read_value(&s[..end]),
        end,
    }
}

// As many values as there are places lent for their numbers, each up to its comma: where the rest of the line begins,
// or what is no value. What has to stand behind them is another matter: a sheet's last value has no comma, and may be
// of another form.
pub fn take_values(s: &[u8], numbers: &mut [u64]) -> Result<usize, usize>
    ensures { FrontOf s.now numbers.old numbers.new result }
{
    let mut at = 0;
    for number in numbers.iter_mut() {
        let next = take_value(&s[at..]);
        let Some(value) = next.value else {
            return Err(at);
        };
        *number = value;
        at += next.end + 1;
    }
    Ok(at)
}

// The bytes from an index on as a number, the first lowest: two, four or eight of them, which are read and compared at
// once.
pub fn pair_at(s: &[u8], at: usize) -> u64
    requires { at + 2 ≤ length s.now }
    ensures { (result ≡ pair_at s.now at) × (result < 2 ^ 16) }
{
    join(u64::from(s[at + 1]), u64::from(s[at]), 8)
}

fn four_at(s: &[u8], at: usize) -> u64
    requires { at + 4 ≤ length s.now }
    ensures { (result ≡ four_at s.now at) × (result < 2 ^ 32) }
{
    join(pair_at(s, at + 2), pair_at(s, at), 16)
}

pub fn eight_at(s: &[u8], at: usize) -> u64
    requires { at + 8 ≤ length s.now }
    ensures { result ≡ eight_at s.now at }
{
    join(four_at(s, at + 4), four_at(s, at), 32)
}
