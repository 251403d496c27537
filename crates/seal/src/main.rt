// Seals and opens lines from a list of items on the standard input.
#![tactic(auto)]

mod answering;
mod printing;
mod reading;
mod running;
#[cfg(test)]
mod tests;
mod types;

use running::transcript;
use std::io::Read;

// `bench` has the same `main` and `transcript`: only a library that allocates could hold them, and no library here does.
fn main(rt: HostRuntime) -> anyhow::Result<()> {
    let mut input = Vec::new(rt.alloc());
    rt.stdin().read_to_end(&mut input)?;
    let text = transcript(rt.alloc(), input.as_slice())?;
    rt.print(text)?;
    Ok(())
}
