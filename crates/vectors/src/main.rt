// Runs the vectors in data/ and prints, for each group, how many agree. A difference is printed with its line, and ends the program with status 1.
#![tactic(auto)]

mod messages;
mod parse;

use anyhow::anyhow;
use messages::tag_agrees;
use std::fs;

fn run(rt: &HostRuntime, group: &str, file: &str) -> anyhow::Result<()> {
    let text = fs::read_to_string(rt, file)?;
    let mut agreed: u64 = 0;
    for line in text.as_str().lines() {
        if line.is_empty() || line.starts_with('#') {
            continue;
        }
        if !tag_agrees(rt.alloc(), line)? {
            println!(rt; "{group}: another tag than in: {line}")?;
            return Err(anyhow!("a vector does not agree"));
        }
        agreed = agreed.saturating_add(1);
    }
    println!(rt; "{group}: {agreed} agree")?;
    Ok(())
}

fn all(rt: &HostRuntime) -> anyhow::Result<()> {
    run(rt, "published tags", "smac_published.txt")?;
    run(rt, "independent tags", "smac_independent.txt")
}

fn main(rt: HostRuntime) -> anyhow::Result<()> {
    all(&rt)
}
