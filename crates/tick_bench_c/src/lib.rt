// The ticks of tick_bench under the name that the benchmark links: a static library, which no crate can stand on.
#![tactic(auto)]

ghost use Rattle.std.specs.Prelude.{◌≡◌};
ghost use Rattle.tick_bench.specs.Ticks.{tick_of, ticks, seen, start_of};

#[unsafe(no_mangle)]
pub extern "C" fn tick_bench_ticks(
    n: u64,
    cycles: u64,
    edges: u64,
    stamps: u64,
    code: u64,
    checked: u64,
) -> u64
    ensures { result ≡ seen (ticks (tick_of code) n (ticks (tick_of 16) stamps (start_of cycles edges))) }
{
    tick_bench::tick_bench_ticks(n, cycles, edges, stamps, code, checked)
}
