// Judges the groups of test vectors on standard input.
#![tactic(auto)]

use std::io::Read;
use vector_report::report::{LIMIT, report};

fn main(rt: HostRuntime) -> anyhow::Result<()> {
    let mut input = Vec::new(rt.alloc());
    rt.stdin().take(LIMIT as u64).read_to_end(&mut input)?;
    let lines = report(rt.alloc(), &input)?;
    print!(rt; "{lines}")?;
    Ok(())
}
