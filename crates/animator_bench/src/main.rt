//! Runs scripts, to be timed. The words are how many marks a script has, how many swaps behind them, and how often it is
//! run: each mark makes a change for each of 256 x 256 pairs of levels, each swap two changes. Without words it runs a small
//! script once. It prints how many entries the last state has, and which invocation was refused, if one was.
#![tactic(auto)]

use anyhow::anyhow;
use sp_animator_tests::{Ran, Texts, run};
use sp_text::{Memory, TextFault, push_number};
use std::alloc::Global;
use std::env;
use std::rt::Env;

const INTERFACE: &[u8] = b"INTERFACE m MODULES m;
CHAIN l; CATEGORIES c0, c1, c2, c3, c4, c5, c6, c7;
LEVEL a() IS BOTTOM; LEVEL b() IS BOTTOM; LEVEL swap() IS BOTTOM;
LEVEL grid(x, y, n) IS BOTTOM; LEVEL mark(n) IS BOTTOM; SAMPLE s; END_INTERFACE";

const MODULE: &[u8] = b"MODULE m FUNCTIONS
VFUN a() -> INTEGER; INITIALLY 1; VFUN b() -> INTEGER; INITIALLY 2;
OFUN swap(); EFFECTS 'a() = b(); 'b() = a();
VFUN grid(LEVEL x; LEVEL y; INTEGER n) -> INTEGER; HIDDEN; INITIALLY 0;
OFUN mark(INTEGER n); EFFECTS FORALL LEVEL x; LEVEL y: 'grid(x, y, n) = 1; END_FORALL;
END_MODULE";

/// A script of so many marks, and of so many swaps behind them.
fn script(alloc: Global, marks: u32, swaps: u32) -> Result<Vec<u8>, Memory> {
    let mut text = Vec::new(alloc);
    for number in 0..marks {
        text.extend_from_slice(b"mark(")?;
        push_number(alloc, &mut text, number as i64)?;
        text.extend_from_slice(b"); ")?;
    }
    for _ in 0..swaps {
        text.extend_from_slice(b"swap(); ")?;
    }
    Ok(text)
}

/// Runs the script so often. Answers how the last run ended, and how many entries the state then had.
fn run_often(alloc: Global, script: &[u8], times: u32) -> Result<(Ran, u64), TextFault> {
    let texts = Texts {
        interface: INTERFACE,
        module: MODULE,
        instance: b"INSTANCE s END_INSTANCE",
        script,
    };
    let mut last = (Ran::Answers(None), 0);
    for _ in 0..times {
        last = run(alloc, &texts, 0)?;
    }
    Ok(last)
}

/// How a run ended, in words.
fn told(alloc: Global, ended: &Ran, entries: u64) -> anyhow::Result<String> {
    match ended {
        Ran::Answers(_) => Ok(format!(in alloc; "{entries} entries")?),
        Ran::Conflict(at, _, _, _) => Ok(format!(in alloc; "{entries} entries, conflict at {at}")?),
        Ran::StateFull(at) => Ok(format!(in alloc; "{entries} entries, full at {at}")?),
    }
}

/// Runs a script of so many marks and swaps so often, and tells how the last run ended.
fn timed(alloc: Global, marks: u32, swaps: u32, times: u32) -> anyhow::Result<String> {
    let text = script(alloc, marks, swaps).map_err(|fault| anyhow!("{fault:?}"))?;
    let (ended, entries) = run_often(alloc, text.as_slice(), times).map_err(|fault| anyhow!(
        "{fault:?}"
    ))?;
    told(alloc, &ended, entries)
}

/// The words of the command line, without the program's name.
fn words_of(rt: &(impl Env + AllocGlobal)) -> anyhow::Result<Vec<String>> {
    let mut words = Vec::new(rt.alloc());
    for word in env::args(rt)?.skip(1) {
        words.push(word)?;
    }
    Ok(words)
}

fn main(rt: HostRuntime) -> anyhow::Result<()> {
    let alloc = rt.alloc();
    let words = words_of(&rt)?;
    if let [marks, swaps, times] = words.as_slice() {
        let marks = marks.parse::<u32>()?;
        let swaps = swaps.parse::<u32>()?;
        let last = timed(alloc, marks, swaps, times.parse::<u32>()?)?;
        println!(rt; "{last}")?;
        return Ok(());
    }
    let last = timed(alloc, 1, 3, 1)?;
    println!(rt; "{last}")?;
    Ok(())
}
