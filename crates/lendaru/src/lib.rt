// A whole sheet in one call: what include/lendaru.h declares. Each function is a function of the layers below under a
// name that C can link, and lendaru_c exports it.
#![tactic(auto)]

ghost use Rattle.std.specs.Prelude.{◌≡◌};
ghost use Rattle.text.specs.Sheet.{sheet_version};
ghost use Rattle.text.specs.Results.{results_room};
ghost use Rattle.runner.specs.Ran.{Ran};

const SHEET_VERSION: u64 = 5;

const RESULTS_ROOM: usize = 138309;

// The version of the sheet format.
pub fn lendaru_sheet_version() -> u64
    ensures { result ≡ sheet_version }
{
    SHEET_VERSION
}

// How many bytes are enough for the results of every sheet.
pub fn lendaru_results_room() -> usize
    ensures { result ≡ results_room }
{
    RESULTS_ROOM
}

// Runs a whole sheet from power-on.
pub fn lendaru_run_sheet(sheet: &[u8], out: &mut [u8]) -> usize
    ensures { Ran sheet.now out.old out.new result }
{
    runner::run_sheet(sheet, out)
}
