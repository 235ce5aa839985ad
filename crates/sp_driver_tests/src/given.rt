//! Files in memory, and what a run over them comes to.

use sp_driver::{Status, run};
use sp_outside::{MemoryLibrary, MemorySink};
use sp_text::Memory;
use std::alloc::Global;
use std::process::Abort;

/// Names of files, and their texts.
pub type Files<'a> = [(&'a str, &'a [u8]); 4];

/// How a run ended, and what it wrote.
#[derive(Drop)]
pub struct Outcome {
    status: Status,
    out: MemorySink,
}

impl Outcome {
    pub fn bytes(&self) -> &[u8] {
        self.out.bytes()
    }
}

/// Asserts the status. The assertions stand here alone, since each costs the proof of a test much.
pub fn has_status(rt: &impl Abort, outcome: &Outcome, code: u8) {
    assert_eq!(rt; outcome.status.code(), code);
}

/// Asserts the status, and what was written.
pub fn ends(rt: &impl Abort, outcome: &Outcome, code: u8, printed: &[u8]) {
    has_status(rt, outcome, code);
    assert_eq!(rt; outcome.bytes(), printed);
}

/// The outcome of a run over these files.
///
/// # Errors
/// `Memory` where they can't be held.
pub fn outcome_of(
    alloc: Global,
    words: &[&str],
    texts: Files<'_>,
    failing: Vec<u64>,
    room: usize,
) -> Result<Outcome, Memory> {
    outcome_over(alloc, words, &texts, failing, room)
}

/// The same over any number of files.
///
/// # Errors
/// `Memory` where they can't be held.
pub fn outcome_over(
    alloc: Global,
    words: &[&str],
    texts: &[(&str, &[u8])],
    failing: Vec<u64>,
    room: usize,
) -> Result<Outcome, Memory> {
    let mut library = MemoryLibrary::new(files_of(alloc, texts)?, failing);
    outcome_with(alloc, words, &mut library, room)
}

fn files_of(alloc: Global, texts: &[(&str, &[u8])]) -> Result<Vec<(String, Vec<u8>)>, Memory> {
    let mut files = Vec::new(alloc);
    for (name, text) in texts {
        files.push((String::from_str(alloc, name)?, text.to_vec(alloc)?))?;
    }
    Ok(files)
}

// Each function from here on holds one value that has to be dropped, and lends it to the next.

fn outcome_with(
    alloc: Global,
    words: &[&str],
    library: &mut MemoryLibrary,
    room: usize,
) -> Result<Outcome, Memory> {
    let mut given = Vec::new(alloc);
    for word in words {
        given.push(String::from_str(alloc, word)?)?;
    }
    outcome_from(alloc, &given, library, room)
}

fn outcome_from(
    alloc: Global,
    given: &[String],
    library: &mut MemoryLibrary,
    room: usize,
) -> Result<Outcome, Memory> {
    let mut out = MemorySink::with_capacity(alloc, room)?;
    let status = run(alloc, given, library, &mut out);
    Ok(Outcome { status, out })
}
