// Runs a script of steps on a board of memory, and prints a row for each.
#![tactic(auto)]

mod events;
mod playing;
mod rows;
mod running;
mod types;

use running::transcript;
use std::io::Read;

// `seal` has the same `main` and `transcript`: only a library that allocates could hold them, and no library here does.
fn main(rt: HostRuntime) -> anyhow::Result<()> {
    let mut input = Vec::new(rt.alloc());
    rt.stdin().read_to_end(&mut input)?;
    let text = transcript(rt.alloc(), input.as_slice())?;
    rt.print(text)?;
    Ok(())
}
