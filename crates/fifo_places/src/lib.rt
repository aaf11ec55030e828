// The check of the three timestamp FIFOs, a part of number 4. They are looked at together, place by place, in one row
// of tests of which the compiler can make straight code with no copy. Each function returns a definition of the
// model's specs/Ranges.antt or of specs/. Document 01, "Where each command is checked", below the table.
// An iterator over the places of each FIFO proves too, but it needs them in memory: an idle tick with check 4 took 536
// instructions, or 621 by reference, for the 368 of constant indices.
#![tactic(auto)]

ghost use Rattle.std.specs.Prelude.{◌≡◌, ◌&&◌, cond, ◌<◌, eqb};
ghost use Rattle.model.specs.Tests.{every_below};
ghost use Rattle.model.specs.Ranges.{timestamp_ok, timestamp_zero, place_ok, fifo_ok};
ghost use Rattle.fifo_places.specs.Fifos.{of_three, in_range};

use model::{Fifo, NS_PER_SECOND, SECONDS_LIMIT, Timestamp};

// Every bit that a timestamp has set: 0 just for the zero timestamp.
#[tactic(auto, using(crate::proofs::Merged::or_zero))]
fn bits_of(t: Timestamp) -> u64
    ensures { eqb result 0 ≡ timestamp_zero t }
{
    t.seconds | t.nanoseconds | t.rising
}

// What was seen of places of FIFOs: the seconds and the directions of used places, each as one `|`, every bit that
// is set in the other places, and whether a used place has too many nanoseconds. The `|` of numbers is below a power
// of 2 just where all of them are.
#[derive(Clone, Copy, Default)]
struct Seen {
    seconds: u64,
    rising: u64,
    rest: u64,
    late: bool,
}

// One more place, used or not.
fn see(s: Seen, t: Timestamp, used: bool) -> Seen
    ensures { in_range result ≡ (in_range s && cond used (timestamp_ok t) (timestamp_zero t)) }
{
    if used {
        return Seen {
            seconds: s.seconds | t.seconds,
            rising: s.rising | t.rising,
            late: s.late | (NS_PER_SECOND <= t.nanoseconds),
            ..s
        };
    }
    Seen {
        rest: s.rest | bits_of(t),
        ..s
    }
}

// The places of one index: a used one holds a timestamp in range, and any other holds zero.
#[tactic(auto, unfolding(model::specs::Ranges::place_ok))]
fn see_place(s: Seen, fifo1: Fifo, fifo2: Fifo, fifo3: Fifo, place: usize) -> Seen
    requires { place < 8 }
    ensures { in_range result ≡ (in_range s && of_three (λ f. place_ok f place) fifo1 fifo2 fifo3) }
{
    let n = place as u64;
    let one = see(s, fifo1.entries[place], n < fifo1.count);
    let two = see(one, fifo2.entries[place], n < fifo2.count);
    see(two, fifo3.entries[place], n < fifo3.count)
}

#[tactic(auto, unfolding(crate::specs::Fifos::in_range))]
fn all_in_range(s: Seen) -> bool
    ensures { result ≡ in_range s }
{
    !s.late && s.rest == 0 && s.seconds < SECONDS_LIMIT && s.rising <= 1
}

// All places, each by a constant index, so that the compiler may look at them where they stand.
fn places_ok(fifo1: Fifo, fifo2: Fifo, fifo3: Fifo) -> bool
    ensures { result ≡ every_below 8 (λ i. of_three (λ f. place_ok f i) fifo1 fifo2 fifo3) }
{
    let to1 = see_place(Seen::default(), fifo1, fifo2, fifo3, 0);
    let to2 = see_place(to1, fifo1, fifo2, fifo3, 1);
    let to3 = see_place(to2, fifo1, fifo2, fifo3, 2);
    let to4 = see_place(to3, fifo1, fifo2, fifo3, 3);
    let to5 = see_place(to4, fifo1, fifo2, fifo3, 4);
    let to6 = see_place(to5, fifo1, fifo2, fifo3, 5);
    let to7 = see_place(to6, fifo1, fifo2, fifo3, 6);
    let all = see_place(to7, fifo1, fifo2, fifo3, 7);
    all_in_range(all)
}

// Number 4 of the three FIFOs: each count, and each place.
pub fn fifos_ok(fifo1: Fifo, fifo2: Fifo, fifo3: Fifo) -> bool
    ensures { result ≡ of_three fifo_ok fifo1 fifo2 fifo3 }
{
    (fifo1.count <= 8) & (fifo2.count <= 8) & (fifo3.count <= 8) & places_ok(fifo1, fifo2, fifo3)
}
