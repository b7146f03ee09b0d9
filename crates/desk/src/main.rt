// A register at work: request lines from standard input are answered by a desk, and counter calls by the Grants that it keeps.
#![tactic(auto)]

mod calls;
mod lines;
mod program;
mod told;

use options::Options;
use program::answer_lines;
use std::env;

fn main(rt: HostRuntime) -> anyhow::Result<()> {
    let words: Vec<String> = env::args(&rt)?.collect(rt.alloc())?;
    let options = Options::of(&words)?;
    answer_lines(
        rt.alloc(),
        options,
        &mut rt.stdin(),
        rt.stdout(),
        &mut rt.stderr(),
    )?;
    Ok(())
}
