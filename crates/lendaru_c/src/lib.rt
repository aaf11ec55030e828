// The static library that runs whole sheets: the functions of `lendaru` under the names that include/lendaru.h gives
// them in C, each with its clauses again. A slice is a pointer and a length there. `tools/archives` makes liblendaru.a
// of it.
#![tactic(auto)]

ghost use Rattle.std.specs.Prelude.{◌≡◌};
ghost use Rattle.text.specs.Sheet.{sheet_version};
ghost use Rattle.text.specs.Results.{results_room};
ghost use Rattle.runner.specs.Ran.{Ran};

// The version of the sheet format.
#[unsafe(no_mangle)]
pub extern "C" fn lendaru_sheet_version() -> u64
    ensures { result ≡ sheet_version }
{
    lendaru::lendaru_sheet_version()
}

// How many bytes are enough for the results of every sheet.
#[unsafe(no_mangle)]
pub extern "C" fn lendaru_results_room() -> usize
    ensures { result ≡ results_room }
{
    lendaru::lendaru_results_room()
}

// Runs a whole sheet from power-on.
#[unsafe(no_mangle)]
pub extern "C" fn lendaru_run_sheet(sheet: &[u8], out: &mut [u8]) -> usize
    ensures { Ran sheet.now out.old out.new result }
{
    lendaru::lendaru_run_sheet(sheet, out)
}
