// Founds a register, and answers request lines, one a line of standard input.
#![tactic(auto)]

mod answering;

use answering::answer_lines;
use options::Options;
use std::env;

fn main(rt: HostRuntime) -> anyhow::Result<()> {
    let words: Vec<String> = env::args(&rt)?.collect(rt.alloc())?;
    let options = Options::of(&words)?;
    answer_lines(
        rt.alloc(),
        options,
        &mut rt.stdin(),
        rt.stdout(),
        &mut rt.stderr(),
    )?;
    Ok(())
}
