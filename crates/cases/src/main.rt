//! `cases` tries changes to a plan, and tells what comes of each.
//!
//! `cases.txt` has the plan first, and then a case to each `~` that begins a line: its label, and pairs of a text to
//! replace and the text that takes its place, parted by `|`. An empty text to replace stands for the whole plan.
//! `<N:body>` is the body N times over, in which `%` is the number of the turn, from 0.

#![tactic(auto)]

mod expansion;
mod trial;

use anyhow::Context;
use std::fs;
use trial::Bench;

fn run(rt: &HostRuntime) -> anyhow::Result<()> {
    // Bytes that are not UTF-8 are told with their place, which `read_to_string` keeps to itself.
    let text = String::from_utf8(fs::read(rt, "cases.txt")?)?;
    let mut parts = text.as_str().split("\n~");
    let plan = parts.next().context("cases.txt has no plan")?;
    let mut bench = Bench::new(rt.alloc())?;
    for case in parts {
        let line = bench.try_case(rt.alloc(), plan, case)?;
        println!(rt; "{line}")?;
    }
    Ok(())
}

fn main(rt: HostRuntime) -> anyhow::Result<()> {
    run(&rt)
}
