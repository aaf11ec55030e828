// A tick on records that no sheet reaches: number 4 gets each that is malformed, and between them stand some in order.
use model::{Engine, Generator};
use std::io;

// A tick on a record: its answer and its five values.
fn tick(rt: &impl Print, name: &str, e: Engine) -> io::Result<()> {
    let o = engine::execute(e, tick_lines::command_of([0; 9]));
    let v = o.values;
    println!(rt; "{name}:")?;
    println!(rt; "{},{},{},{},{},{}", o.answer, v.w1, v.w2, v.w3, v.w4, v.w5)
}

// Number 4: numbers of the clock, the steering, the words and the interrupts outside their ranges, after a record that
// has none. A field of a copy is set, in three lines a record, of which an update of the nested parts would take eight.
fn malformed_numbers(rt: &impl Print) -> io::Result<()> {
    let on = engine::power_on();
    tick(rt, "record_of_power_on", on)?;
    let mut e = on;
    e.clock.nanoseconds = 1000000000;
    tick(rt, "record_with_10_to_9_ns", e)?;
    e = on;
    e.clock.remainder = 16777216;
    tick(rt, "record_with_a_remainder_of_2_to_24", e)?;
    e = on;
    e.steering.period = 4294967295;
    tick(rt, "record_with_a_PERIOD_below_1_ns", e)?;
    e = on;
    e.steering.period = 1099511627776;
    tick(rt, "record_with_a_PERIOD_of_41_bits", e)?;
    e = on;
    e.steering.adjustment.amount = 34359738368;
    tick(rt, "record_with_an_idle_adjustment_not_zero", e)?;
    e = on;
    e.words.w3 = 65536;
    tick(rt, "record_with_a_word_of_17_bits", e)?;
    e = on;
    e.interrupts.latched = 8;
    tick(rt, "record_with_bit_3_latched", e)?;
    e = on;
    e.interrupts.enabled = 128;
    tick(rt, "record_with_bit_7_enabled", e)
}

// A generator that is due at 0 s 0 ns.
fn due() -> Generator {
    Generator {
        whole: 256,
        numerator: 1,
        denominator: 3,
        left: 2,
        ..Generator::default()
    }
}

// Number 4: FIFOs and generators, after a record with a generator that is in order.
fn malformed_parts(rt: &impl Print) -> io::Result<()> {
    let mut on = engine::power_on();
    on.fifo1.count = 9;
    tick(rt, "record_with_nine_timestamps", on)?;
    on.fifo1.count = 0;
    on.generator2.mark = 1;
    tick(rt, "record_with_an_idle_generator_not_zero", on)?;
    on.generator2.mark = 0;
    on.generator1 = due();
    tick(rt, "record_with_a_generator_due", on)?;
    let mut e = on;
    e.generator1.numerator = 3;
    tick(rt, "record_with_N_equal_to_D", e)?;
    e = on;
    e.generator1.pending.remainder = 3;
    tick(rt, "record_with_a_pending_remainder_of_D", e)?;
    e = on;
    e.generator1.direction = 2;
    tick(rt, "record_with_direction_2", e)?;
    e = on;
    e.clock.fraction = 1;
    tick(rt, "record_with_a_pending_instant_passed", e)
}

// Number 4: the place of the waiting adjustment, with a record between that is in order.
fn malformed_waits(rt: &impl Print) -> io::Result<()> {
    let mut on = engine::power_on();
    on.steering.waiting.amount = 34359738368;
    tick(rt, "record_with_an_unused_waiting_place_not_zero", on)?;
    on.steering.waiting.cycles = 1;
    tick(rt, "record_with_one_waiting_while_none_runs", on)?;
    on.steering.adjustment.amount = 34359738368;
    on.steering.adjustment.cycles = 1;
    tick(rt, "record_with_one_waiting_behind_another", on)?;
    let mut e = on;
    e.steering.waiting.amount = 4294967295;
    tick(rt, "record_with_a_waiting_amount_below_1_ns", e)?;
    e = on;
    e.steering.waiting.amount = 1099511627776;
    tick(rt, "record_with_a_waiting_amount_of_41_bits", e)?;
    e = on;
    e.steering.waiting.cycles = 16777216;
    tick(rt, "record_with_waiting_cycles_of_2_to_24", e)
}

// All of them. It prints and returns nothing, so that it has nothing to promise.
pub fn malformed(rt: &impl Print) -> io::Result<()> {
    malformed_numbers(rt)?;
    malformed_parts(rt)?;
    malformed_waits(rt)
}
