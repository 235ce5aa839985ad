//! Decides formulas, to be timed. The words are one of `reading`, `conjunction`, `parity` and `chain`, how many parameters it
//! has (`reading` has none), and how often it is decided. Without words it decides small ones once. It prints what was found.
#![tactic(auto)]

use anyhow::anyhow;
use either::{Either, Left, Right};
use sp_cert::Cert;
use sp_prover::Branch;
use sp_prover_tests::{chain, conjunction, decided, parity};
use sp_rules::Root;
use sp_saturate_tests::{Unbuilt, reading};
use std::alloc::Global;
use std::env;
use std::rt::Env;

/// How many leaves a certificate has, below at most so many nodes in one another.
fn leaves(cert: &Cert, depth: u8) -> u64 {
    if depth == 0 {
        return 0;
    }
    match cert {
        Cert::Leaf(_) => 1,
        Cert::Steps(_, below) => leaves(below.get(), depth - 1),
        Cert::Split(_, first, second) => {
            let first = leaves(first.get(), depth - 1);
            let second = leaves(second.get(), depth - 1);
            first.saturating_add(second)
        }
    }
}

/// A formula by its name.
fn formula(alloc: Global, name: &str, count: u16) -> Result<Root, Unbuilt> {
    match name {
        "conjunction" => conjunction(alloc, count),
        "parity" => parity(alloc, count),
        "chain" => chain(alloc, count),
        _ => reading(alloc),
    }
}

/// What is found, in words.
fn told(alloc: Global, found: &Either<Cert, Branch>) -> anyhow::Result<String> {
    match found {
        Left(cert) => Ok(format!(in alloc; "{} leaves", leaves(cert, 21))?),
        Right(branch) => {
            let open = branch.values.iter().filter(|value| **value).count();
            Ok(format!(in alloc; "open, {open} of {} atoms TRUE", branch.values.len())?)
        }
    }
}

/// Decides a formula so often. Answers what was found the last time.
fn decide_often(alloc: Global, name: &str, count: u16, times: u32) -> anyhow::Result<String> {
    let root = formula(alloc, name, count).map_err(|fault| anyhow!("{fault:?}"))?;
    let mut last = String::new(alloc);
    for _ in 0..times {
        let found = decided(alloc, &root).map_err(|fault| anyhow!("{fault:?}"))?;
        last = told(alloc, &found)?;
    }
    Ok(last)
}

/// The words of the command line, without the program's name.
fn words_of(rt: &(impl Env + AllocGlobal)) -> anyhow::Result<Vec<String>> {
    let mut words = Vec::new(rt.alloc());
    for word in env::args(rt)?.skip(1) {
        words.push(word)?;
    }
    Ok(words)
}

fn main(rt: HostRuntime) -> anyhow::Result<()> {
    let alloc = rt.alloc();
    let words = words_of(&rt)?;
    if let [name, count, times] = words.as_slice() {
        let count = count.parse::<u16>()?;
        let times = times.parse::<u32>()?;
        let last = decide_often(alloc, name.as_str(), count, times)?;
        println!(rt; "{last}")?;
        return Ok(());
    }
    for name in ["reading", "conjunction", "parity", "chain"] {
        let last = decide_often(alloc, name, 3, 1)?;
        println!(rt; "{name}: {last}")?;
    }
    Ok(())
}
