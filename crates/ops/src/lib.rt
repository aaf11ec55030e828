// Ops 1 to 8 on a record that has passed their checks: each function is one op, or the write or the read of op 2, and
// returns the change to the record that a definition of the model's specs/Execute.antt gives. Document 01, "Command
// sheet" and "The five words"; the adjustment that waits, document 02, A.4.
#![tactic(auto)]

ghost use Rattle.std.specs.Prelude.{◌≡◌, false, ◌<◌, ◌^◌, Ok};
ghost use Rattle.model.specs.Words.{no_words};
ghost use Rattle.model.specs.Fifo.{is_empty, entry};
ghost use Rattle.model.specs.Generator.{idle_generator};
ghost use Rattle.model.specs.Record.{with_words, with_generator, fifo};
ghost use Rattle.model.specs.OtherOps.{just_first, loaded_words, armed_by, mask_set, status_of, interrupts_read};
ghost use Rattle.model.specs.OtherOps.{commanded};
ghost use Rattle.model.specs.OtherOps.{time_written, period_written, adjust_written, written};
ghost use Rattle.model.specs.Bounds.{WordsRange};
ghost use Rattle.change.specs.Changes.{change_to, oldest_taken, Gives};
ghost use Rattle.ops.specs.Reading.{Commands, Readable, words_read};

use change::{Change, change_to};
use model::{Clock, Command, Engine, Generator, Instant, Interrupts, Steering, Timestamp, Words};

fn just_first(v: u64) -> Words
    ensures { result ≡ just_first v }
{
    Words {
        w1: v,
        ..Words::default()
    }
}

// A command that returns no values, and the record after it, whose FIFOs stay.
fn silent(e: Engine) -> Change
    ensures { result ≡ change_to no_words e false }
{
    change_to(words::no_words(), e, false)
}

// Op 1, load words.
pub fn load_words(e: Engine, c: Command) -> Change
    ensures { result ≡ change_to no_words (with_words e (loaded_words c)) false }
{
    let words = Words {
        w1: c.a,
        w2: c.b,
        w3: c.c,
        w4: c.d,
        w5: c.e,
    };
    silent(record::with_words(e, words))
}

// Op 2, write 0: TIME clears fraction and remainder and stops both generators.
fn write_time(e: Engine) -> Engine
    requires { WordsRange e.words }
    ensures { result ≡ time_written e }
{
    let k = clock::set_clock(words::seconds_in(e.words), words::nanoseconds_in(e.words));
    let idle = generator::idle_generator();
    record::with_generators(record::with_clock(e, k), idle, idle)
}

// Op 2, write 1: PERIOD. The remainder stays.
fn write_period(e: Engine) -> Engine
    requires { WordsRange e.words }
    ensures { result ≡ period_written e }
{
    let steering = Steering {
        period: words::amount_in(e.words),
        ..e.steering
    };
    record::with_steering(e, steering)
}

// Op 2, write 2: the adjustment.
fn write_adjustment(e: Engine) -> Engine
    requires { WordsRange e.words }
    ensures { result ≡ adjust_written e }
{
    let steering = clock::adjust(e.steering, words::adjustment_in(e.words));
    record::with_steering(e, steering)
}

// Op 2, the write by its selector; 16 writes nothing.
#[tactic(auto, unfolding(model::specs::OtherOps::written))]
fn write(e: Engine, selector: u64) -> Engine
    requires { WordsRange e.words }
    ensures { result ≡ written e selector }
{
    match selector {
        0 => write_time(e),
        1 => write_period(e),
        2 => write_adjustment(e),
        _ => e,
    }
}

// Op 2, the oldest timestamp of a FIFO. Each is looked at where it stands, so that none is copied.
fn oldest_at(e: Engine, n: u64) -> Timestamp
    ensures { result ≡ entry (fifo e n) 0 }
{
    match n {
        1 => fifo::oldest(e.fifo1),
        2 => fifo::oldest(e.fifo2),
        _ => fifo::oldest(e.fifo3),
    }
}

// Op 2, what a read returns: the time shown after the write, or the oldest timestamp.
fn read_words(e: Engine, now: Clock, selector: u64) -> Words
    requires { Readable e selector }
    ensures { result ≡ words_read e now selector }
{
    if selector == 0 {
        return words::time_words(now.seconds, now.nanoseconds, 0);
    }
    let t = oldest_at(e, selector);
    words::time_words(t.seconds, t.nanoseconds, t.rising)
}

// Op 2: the write goes before the read. The words that are read are returned and kept, and a FIFO that is read moves.
pub fn command(e: Engine, c: Command) -> Change
    requires { Commands e c }
    ensures { Gives e c (commanded e c.a c.b) (Ok result) }
{
    let now = write(e, c.a);
    if c.b == 8 {
        return silent(now);
    }
    let words = read_words(e, now.clock, c.b);
    change_to(words, record::with_words(now, words), c.b != 0)
}

// Op 2, the record without the oldest timestamp of a FIFO. In place, since `..e` copies a lent record.
pub fn take_timestamp(mut e: Engine, n: u64) -> Engine
    requires { is_empty (fifo e n) ≡ false }
    ensures { result ≡ oldest_taken e n }
{
    match n {
        1 => e.fifo1 = fifo::pop(e.fifo1),
        2 => e.fifo2 = fifo::pop(e.fifo2),
        _ => e.fifo3 = fifo::pop(e.fifo3),
    }
    e
}

// Op 3, arm.
pub fn arm(e: Engine, c: Command) -> Change
    ensures { result ≡ change_to no_words (with_generator e c.a (armed_by c)) false }
{
    let g = Generator {
        pending: Instant {
            seconds: c.b,
            nanoseconds: c.c,
            remainder: 0,
        },
        whole: c.d,
        numerator: c.e,
        denominator: c.f,
        left: c.g,
        direction: 0,
        mark: c.h,
    };
    silent(record::with_generator(e, c.a, g))
}

// Op 4, stop.
pub fn stop(e: Engine, c: Command) -> Change
    ensures { result ≡ change_to no_words (with_generator e c.a idle_generator) false }
{
    silent(record::with_generator(e, c.a, generator::idle_generator()))
}

// Op 5, read interrupts: the bits are returned, then all cleared.
#[tactic(auto, unfolding(model::specs::OtherOps::interrupts_read))]
pub fn read_interrupts(e: Engine) -> Change
    requires { e.interrupts.latched < 2 ^ 16 }
    ensures { result ≡ change_to (interrupts_read e).values (interrupts_read e).engine false }
{
    let word = interrupts::interrupt_word(e.interrupts.latched, e.interrupts.enabled);
    let interrupts = Interrupts {
        latched: 0,
        ..e.interrupts
    };
    change_to(
        just_first(word),
        record::with_interrupts(e, interrupts),
        false,
    )
}

// Op 6, set the enable mask.
pub fn set_mask(e: Engine, c: Command) -> Change
    ensures { result ≡ change_to no_words (mask_set e c.a) false }
{
    let interrupts = Interrupts {
        enabled: c.a,
        ..e.interrupts
    };
    silent(record::with_interrupts(e, interrupts))
}

// Op 7, read status.
#[tactic(auto, unfolding(model::specs::OtherOps::status_of))]
pub fn read_status(e: Engine) -> Change
    ensures { result ≡ change_to (just_first (status_of e)) e false }
{
    let word = interrupts::status_word(
        fifo::is_empty(e.fifo1.count),
        fifo::is_empty(e.fifo2.count),
        fifo::is_empty(e.fifo3.count),
    );
    change_to(just_first(word), e, false)
}

// Op 8, show the words.
pub fn show_words(e: Engine) -> Change
    ensures { result ≡ change_to e.words e false }
{
    change_to(e.words, e, false)
}
