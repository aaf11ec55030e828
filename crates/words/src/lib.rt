// The five words: shifts and masks join and split 16-bit words into seconds, NS, FRAC and COUNT. Each function
// returns a definition of the model's specs/Words.antt. Document 01, "The five words"; sheet 000, Tables 7-3 and
// 7-4.
#![tactic(auto)]

ghost use Rattle.std.specs.Prelude.{◌≡◌, ◌≤◌};
ghost use Rattle.model.specs.Bounds.{WordsRange};
ghost use Rattle.model.specs.Words.{seconds_in, nanoseconds_in, above_nanoseconds, time_words, no_words};
ghost use Rattle.model.specs.Words.{whole_in, frac_in, amount_in, below_frac, count_in};
ghost use Rattle.model.specs.OtherOps.{adjustment_in};

use bits::{field, join};
use model::{Adjustment, Words};

// Write 0, TIME: sec 15:0 | 31:16 | 47:32 | NS 15:0 | NS 29:16.
#[tactic(auto, unfolding(model::specs::Words::seconds_in))]
pub fn seconds_in(w: Words) -> u64
    requires { WordsRange w }
    ensures { result ≡ seconds_in w }
{
    join(join(w.w3, w.w2, 16), w.w1, 16)
}

#[tactic(auto, unfolding(model::specs::Words::nanoseconds_in))]
pub fn nanoseconds_in(w: Words) -> u64
    requires { WordsRange w }
    ensures { result ≡ nanoseconds_in w }
{
    join(field(w.w5, 0, 14), w.w4, 16)
}

// Word 5, bits 15:14.
#[tactic(auto, unfolding(model::specs::Words::above_nanoseconds))]
pub fn above_nanoseconds(w: Words) -> u64
    ensures { result ≡ above_nanoseconds w }
{
    w.w5 >> 14
}

// Writes 1 and 2: - | .. | FRAC 7:0, .. | FRAC 23:8 | NS 7:0, FRAC 31:24.
#[tactic(auto, unfolding(model::specs::Words::whole_in))]
pub fn whole_in(w: Words) -> u64
    ensures { result ≡ whole_in w }
{
    w.w5 >> 8
}

#[tactic(auto, unfolding(model::specs::Words::frac_in))]
fn frac_in(w: Words) -> u64
    requires { WordsRange w }
    ensures { result ≡ frac_in w }
{
    join(join(field(w.w5, 0, 8), w.w4, 16), w.w3 >> 8, 8)
}

// NS above FRAC.
#[tactic(auto, unfolding(model::specs::Words::amount_in, model::specs::Words::whole_in, model::specs::Words::frac_in))]
pub fn amount_in(w: Words) -> u64
    requires { WordsRange w }
    ensures { result ≡ amount_in w }
{
    join(whole_in(w), frac_in(w), 32)
}

// The low byte of word 3.
#[tactic(auto, unfolding(model::specs::Words::below_frac))]
pub fn below_frac(w: Words) -> u64
    ensures { result ≡ below_frac w }
{
    field(w.w3, 0, 8)
}

// Write 2: - | COUNT 15:0 | .., COUNT 23:16 | ..
#[tactic(auto, unfolding(model::specs::Words::count_in))]
pub fn count_in(w: Words) -> u64
    requires { WordsRange w }
    ensures { result ≡ count_in w }
{
    join(field(w.w3, 0, 8), w.w2, 16)
}

// Write 2: the adjustment.
pub fn adjustment_in(w: Words) -> Adjustment
    requires { WordsRange w }
    ensures { result ≡ adjustment_in w }
{
    Adjustment {
        amount: amount_in(w),
        cycles: count_in(w),
    }
}

// Reads: sec 15:0 | 31:16 | 47:32 | NS 15:0 | EDGE, 0, NS 29:16.
#[tactic(auto, unfolding(model::specs::Words::time_words))]
pub fn time_words(seconds: u64, nanoseconds: u64, edge: u64) -> Words
    requires { edge ≤ 1 }
    ensures { result ≡ time_words seconds nanoseconds edge }
{
    Words {
        w1: field(seconds, 0, 16),
        w2: field(seconds, 16, 16),
        w3: field(seconds, 32, 16),
        w4: field(nanoseconds, 0, 16),
        w5: join(edge, field(nanoseconds, 16, 14), 15),
    }
}

pub fn no_words() -> Words
    ensures { result ≡ no_words }
{
    Words::default()
}
