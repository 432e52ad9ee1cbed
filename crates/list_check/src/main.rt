//! Checks a call list: prints what each line asks for.
#![tactic(auto)]

mod describe;
mod report;

use list_words::LIMIT;
use report::report;
use std::io::{Read, Write};

fn run(rt: &HostRuntime) -> anyhow::Result<()> {
    let mut list = Vec::new(rt.alloc());
    rt.stdin().take(LIMIT as u64).read_to_end(&mut list)?;
    let text = report(rt.alloc(), list.as_slice())?;
    rt.stdout().write_all(text.as_slice())?;
    Ok(())
}

fn main(rt: HostRuntime) -> anyhow::Result<()> {
    run(&rt)
}
