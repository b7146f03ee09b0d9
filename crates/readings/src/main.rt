// Reads request lines, one a line of standard input, and says what each asks for, or what is wrong with its text and where. No register
// is asked, and what it says of a line that is read is not what a register answers.
#![tactic(auto)]

mod found;
mod request_lines;

use request_lines::answer_lines;

fn main(rt: HostRuntime) -> anyhow::Result<()> {
    answer_lines(rt.alloc(), &mut rt.stdin(), rt.stdout())?;
    Ok(())
}
