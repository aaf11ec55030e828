// Interrupt words: one constant table of bit positions by source, which setting and reading share, and the masks.
// Each function returns a definition of the model's specs/Interrupts.antt; its `latch` goes through the whole table,
// and here a source or two at a time (specs/Position.antt; proofs/Table.antt says that it is the same). Document 01,
// "Interrupt words"; sheet 000, 7.2.18 to 7.2.20.
#![tactic(auto)]

ghost use Rattle.std.specs.Prelude.{◌≡◌, ◌<◌, ◌^◌};
ghost use Rattle.model.specs.Interrupts.{positions, has_bit, with_bit, any_both};
ghost use Rattle.model.specs.Interrupts.{interrupt_word, status_word, only_bits};
ghost use Rattle.interrupts.specs.Position.{position_of, PositionOf, latch_one, latch_two};

// What sets a bit: TAC, EC and SC of each generator (P1, P2), NE and OF of each timestamper (TS1 to TS3).
#[derive(Clone, Copy)]
pub enum Source {
    Tac,
    P1Ec,
    P1Sc,
    P2Ec,
    P2Sc,
    Ts1Ne,
    Ts1Of,
    Ts2Ne,
    Ts2Of,
    Ts3Ne,
    Ts3Of,
}

// The bit position of each source, in the order of `Source`.
const POSITION: [u64; 11] = [0, 1, 2, 4, 5, 8, 9, 10, 11, 12, 13];

fn position(source: Source) -> u64
    ensures { PositionOf source result }
{
    POSITION[source as usize]
}

fn set(word: u64, source: Source) -> u64
    ensures { result ≡ with_bit (position_of source) word }
{
    word | (1u64 << position(source))
}

fn is_set(word: u64, position: u64) -> bool
    requires { position < 64 }
    ensures { result ≡ has_bit position word }
{
    (word >> position) & 1 == 1
}

// The word with the bit of a source set where its event came.
#[tactic(auto, unfolding(crate::specs::Position::latch_one))]
pub fn latch(word: u64, source: Source, came: bool) -> u64
    ensures { result ≡ latch_one source came word }
{
    if came { set(word, source) } else { word }
}

// The same for two sources.
#[tactic(auto, unfolding(crate::specs::Position::latch_two))]
pub fn latch_two(word: u64, one: Source, one_came: bool, two: Source, two_came: bool) -> u64
    ensures { result ≡ latch_two one one_came two two_came word }
{
    latch(latch(word, one, one_came), two, two_came)
}

// Some source is set in both words.
fn any_both(latched: u64, enabled: u64) -> bool
    ensures { result ≡ any_both positions latched enabled }
{
    POSITION.iter().any(|&position| is_set(latched, position) && is_set(enabled, position))
}

// What a read of the latched bits returns: the bits, and bit 14 where one of them is enabled.
#[tactic(auto, unfolding(model::specs::Interrupts::interrupt_word))]
pub fn interrupt_word(latched: u64, enabled: u64) -> u64
    requires { latched < 2 ^ 16 }
    ensures { result ≡ interrupt_word latched enabled }
{
    // With no bit enabled, as in most records, there is nothing to look for.
    if enabled == 0 {
        return latched;
    }
    if any_both(latched, enabled) {
        latched + 0x4000
    } else {
        latched
    }
}

// The real-time status bits 9, 8, 7: timestamp FIFOs 3, 2, 1 not empty.
pub fn status_word(empty1: bool, empty2: bool, empty3: bool) -> u64
    ensures { result ≡ status_word empty1 empty2 empty3 }
{
    u64::from(!empty3) << 9 | u64::from(!empty2) << 8 | u64::from(!empty1) << 7
}

// A 16-bit word has only bits of the mask.
pub fn only_bits(mask: u64, word: u64) -> bool
    requires { mask < 2 ^ 16 }
    ensures { result ≡ only_bits mask word }
{
    word | mask == mask
}
