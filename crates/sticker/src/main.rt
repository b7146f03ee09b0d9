// Checks stickers and chips: a text or a chip's content a line from standard input, an answer a line to standard
// output.
#![tactic(auto)]

mod found;
mod judging;
mod laws;
mod stickers_and_chips;
mod trouble;

use stickers_and_chips::answer_lines;

fn main(rt: HostRuntime) -> anyhow::Result<()> {
    answer_lines(rt.alloc(), &mut rt.stdin(), rt.stdout())?;
    Ok(())
}
