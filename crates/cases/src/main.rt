// Runs every sheet of data/ through the runner and prints its results under its name, then what `streams::run` does
// with readers and writers of other kinds, of which no contract speaks, then a command on records that no sheet
// reaches. The stored output was not made by this program: WORKED_OUT.md says how it was.
#![tactic(auto)]

mod records;

use std::fs::File;
use std::io;
use std::rt::Files;

// The sheets of data/, in the order of the stored output.
const SHEETS: [&str; 124] = [
    // Values in base 16, beside decimal ones.
    "base16_by_turns.csv",
    "base16_every_value.csv",
    "base16_largest.csv",
    "base16_the_same_in_decimal.csv",
    // Departure times in correctionFields.
    "departure_below_a_nanosecond.csv",
    "departure_between_ticks.csv",
    "departure_every_low_second.csv",
    "departure_fields_first.csv",
    "departure_negative_field.csv",
    "departure_there_and_back.csv",
    // The edges of the rules.
    "edge_W_255_and_256.csv",
    "edge_adjust_one_cycle.csv",
    "edge_frac_half_of_a_256th.csv",
    "edge_frac_one.csv",
    "edge_fresh_one_tick.csv",
    "edge_generator_of_thirds.csv",
    "edge_ninth_timestamp.csv",
    "edge_start_at_the_time_shown.csv",
    "edge_timestamp_in_the_next_second.csv",
    "edge_timestamp_to_the_nearest.csv",
    // The whole example of document 01.
    "example_whole.csv",
    // Values that are not quite in base 16: number 3, and in the first line 2.
    "line_16_17_digits.csv",
    "line_16_2_to_64.csv",
    "line_16_alone.csv",
    "line_16_capital_digit.csv",
    "line_16_capital_x.csv",
    "line_16_in_the_first_line.csv",
    "line_16_leading_zero.csv",
    "line_16_letter_g.csv",
    "line_16_minus.csv",
    "line_16_space.csv",
    "line_16_two_zeros.csv",
    "line_16_x_alone.csv",
    "line_16_zero_before.csv",
    // Value lines of another form, number 3.
    "line_21_digits.csv",
    "line_2_to_64.csv",
    "line_base_16.csv",
    "line_carriage_return.csv",
    "line_comma_at_the_end.csv",
    "line_eight_values.csv",
    "line_empty_line.csv",
    "line_empty_value.csv",
    "line_first_of_two.csv",
    "line_high_byte.csv",
    "line_last_empty.csv",
    "line_leading_zero.csv",
    "line_minus.csv",
    "line_sign.csv",
    "line_space.csv",
    "line_ten_values.csv",
    "line_unended_line.csv",
    "line_zero_byte.csv",
    // The numbers of the table, each with what is just allowed.
    "number_05.csv",
    "number_06_arm.csv",
    "number_06_command.csv",
    "number_06_load.csv",
    "number_06_others.csv",
    "number_06_run.csv",
    "number_06_tick.csv",
    "number_07.csv",
    "number_08.csv",
    "number_09.csv",
    "number_10.csv",
    "number_11.csv",
    "number_12.csv",
    "number_13.csv",
    "number_14.csv",
    "number_15.csv",
    "number_16.csv",
    "number_17.csv",
    "number_order.csv",
    // A preview.
    "preview_at_the_end_of_time.csv",
    "preview_each_number.csv",
    "preview_leaves_everything.csv",
    "preview_of_1_and_1000_ticks.csv",
    "preview_over_a_second.csv",
    "preview_remainder_carries.csv",
    "preview_then_for_real.csv",
    "preview_which_number_first.csv",
    "preview_while_one_runs.csv",
    // Runs that the papers single out.
    "run_TIME_write_stops_both.csv",
    "run_adjustment_across_a_PERIOD_write.csv",
    "run_adjustment_over_a_TIME_write.csv",
    "run_both_generators_three_inputs.csv",
    "run_mask_and_bit_14.csv",
    "run_refusals_change_nothing.csv",
    "run_remainder_over_a_PERIOD_write.csv",
    "run_slowest_and_fastest_PERIOD.csv",
    "run_steering_between_two_edges.csv",
    "run_stop_and_arm_again.csv",
    "run_tick_in_the_last_second.csv",
    "run_trains_meet_the_end.csv",
    "run_words_of_a_read.csv",
    // Run lines.
    "runline_edges_in_an_adjustment.csv",
    "runline_ended_by_both.csv",
    "runline_ended_by_count.csv",
    "runline_ended_by_generator_1.csv",
    "runline_ended_by_generator_2.csv",
    "runline_ended_by_the_end_of_time.csv",
    "runline_largest_PERIOD.csv",
    "runline_marked_edges.csv",
    "runline_over_a_second.csv",
    "runline_over_an_adjustment.csv",
    "runline_remainder_carries.csv",
    "runline_timestamps_stay.csv",
    // The sheet as a whole: numbers 1 and 2, and what is just allowed.
    "sheet_empty.csv",
    "sheet_first_line_alone.csv",
    "sheet_first_line_differs.csv",
    "sheet_first_line_unended.csv",
    "sheet_first_line_with_carriage_return.csv",
    "sheet_largest_value.csv",
    "size_65536_bytes.csv",
    "size_65537_bytes.csv",
    "size_65537_bytes_of_no_sheet.csv",
    // A waiting adjustment.
    "wait_at_the_end_of_time.csv",
    "wait_longest_and_largest.csv",
    "wait_one_cycle_behind_one.csv",
    "wait_over_a_PERIOD_write.csv",
    "wait_over_a_TIME_write.csv",
    "wait_remainder_carries.csv",
    "wait_runline_edges.csv",
    "wait_runline_over_both_ends.csv",
    "wait_third_when_the_first_has_ended.csv",
    "wait_two_in_succession.csv",
];

// One sheet of data/.
fn run(rt: &(impl Files + Print + Eprint), name: &str) -> io::Result<()> {
    println!(rt; "{name}:")?;
    match File::open(rt, name) {
        Ok(mut sheet) => streams::run(rt, &mut sheet, &mut io::writer(rt)),
        Err(e) => eprintln!(rt; "{name}: {e}"),
    }
}

// Prints a file.
fn print_file(rt: &(impl Files + Print), name: &str) -> io::Result<()> {
    let mut file = File::open(rt, name)?;
    io::copy(&mut file, &mut io::writer(rt))?;
    Ok(())
}

// Results in a writer that is not standard output: a file, which is printed behind its name. It stands by itself, since
// within main its buffers would lie on the stack beside those of every other sheet.
#[inline(never)]
fn results_in_a_file(rt: &(impl Files + Print + Eprint)) -> io::Result<()> {
    let mut sheet = File::open(rt, "example_whole.csv")?;
    let mut results = File::create(rt, "results_of_example_whole")?;
    streams::run(rt, &mut sheet, &mut results)?;
    println!(rt; "results_of_example_whole:")?;
    print_file(rt, "results_of_example_whole")
}

// A reader that opens and cannot be read, a folder: no results, not those of an empty sheet.
fn unreadable_sheet(rt: &(impl Files + Print + Eprint)) -> io::Result<()> {
    println!(rt; "a_folder:")?;
    match File::open(rt, ".") {
        Ok(mut folder) => streams::run(rt, &mut folder, &mut io::writer(rt)),
        Err(_) => println!(rt; "not opened"),
    }
}

fn main(rt: HostRuntime) -> io::Result<()> {
    for name in SHEETS {
        run(&rt, name)?;
    }
    results_in_a_file(&rt)?;
    unreadable_sheet(&rt)?;
    records::malformed(&rt)
}
