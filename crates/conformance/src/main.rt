// Compares our readers and writers with examples and with another implementation's encodings.
#![tactic(auto)]

mod case;
mod comparison;
mod difference;
mod judging;
mod laws;
mod mark;
mod running;
mod taking;
#[cfg(test)]
mod tests;

use anyhow::ensure;
use running::compare_all;

fn main(rt: HostRuntime) -> anyhow::Result<()> {
    let (first, _) = compare_all(rt.alloc(), &mut rt.stdin(), rt.stdout())?;
    ensure!(first.is_none(), "not all agree");
    Ok(())
}
