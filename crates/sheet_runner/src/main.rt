// The sheet runner: a command sheet on standard input, its results on standard output.
#![tactic(auto)]

use std::io;

fn main(rt: HostRuntime) -> io::Result<()> {
    streams::run(&rt, &mut rt.stdin(), &mut rt.stdout())
}
