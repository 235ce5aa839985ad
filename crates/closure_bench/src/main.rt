//! Closes formulas, to be timed. The words are one of `chain`, `reading` and `formula`, and how often: `chain` closes
//! 249 equalities of 250 levels, `reading` a formula of 22 terms, and `formula` builds that one anew each time. Without
//! words it closes small ones once. It prints how many facts there are.
#![tactic(auto)]

use anyhow::anyhow;
use sp_rules::Root;
use sp_saturate::Facts;
use sp_saturate_tests::{Unbuilt, chain_of_equalities, reading};
use std::alloc::Global;
use std::env;
use std::rt::Env;

/// Closes a formula so often. Answers the facts of the last closure.
fn close(alloc: Global, root: &Root, times: u32) -> Result<u32, Unbuilt> {
    let mut count = 0;
    for _ in 0..times {
        count = Facts::open(alloc, root)?.count();
    }
    Ok(count)
}

/// Builds a formula of 22 terms and closes it, so often.
fn build_and_close(alloc: Global, times: u32) -> Result<u32, Unbuilt> {
    let mut count = 0;
    for _ in 0..times {
        let root = reading(alloc)?;
        count = Facts::open(alloc, &root)?.count();
    }
    Ok(count)
}

/// The facts of the closure of a formula by its name, which is made so often.
fn facts_of(alloc: Global, formula: &str, times: u32) -> Result<u32, Unbuilt> {
    match formula {
        "chain" => close(alloc, &chain_of_equalities(alloc, 250)?, times),
        "reading" => close(alloc, &reading(alloc)?, times),
        _ => build_and_close(alloc, times),
    }
}

/// The facts of two small closures.
fn small(alloc: Global) -> Result<(u32, u32), Unbuilt> {
    let short = close(alloc, &chain_of_equalities(alloc, 25)?, 1)?;
    let ordinary = close(alloc, &reading(alloc)?, 1)?;
    Ok((short, ordinary))
}

/// The words of the command line, without the program's name.
fn words_of(rt: &(impl Env + AllocGlobal)) -> anyhow::Result<Vec<String>> {
    let mut words = Vec::new(rt.alloc());
    for word in env::args(rt)?.skip(1) {
        words.push(word)?;
    }
    Ok(words)
}

fn main(rt: HostRuntime) -> anyhow::Result<()> {
    let alloc = rt.alloc();
    let words = words_of(&rt)?;
    if let [formula, times] = words.as_slice() {
        let times = times.parse::<u32>()?;
        let count = facts_of(alloc, formula.as_str(), times).map_err(|fault| anyhow!("{fault:?}"))?;
        println!(rt; "{count} facts")?;
        return Ok(());
    }
    let (short, ordinary) = small(alloc).map_err(|fault| anyhow!("{fault:?}"))?;
    println!(rt; "{short} facts, {ordinary} facts")?;
    Ok(())
}
