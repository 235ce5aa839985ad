//! Files in memory, and what the hierarchy among them comes to.

ghost use Rattle.std.specs.List.{All};
ghost use Rattle.sp_hierarchy.specs.Texts.{IsTextName};

use sp_frame::{LoadStop, Stop, refusal_text};
use sp_hierarchy::{Hierarchy, HierarchyTexts, judge_hierarchy, load_hierarchy};
use sp_outside::MemoryLibrary;
use sp_text::{Memory, push_number, push_text};
use std::alloc::Global;

/// A name of a file, with its text.
pub type File<'a> = (&'a str, &'a [u8]);

// The interfaces `a`, `b` and `c` break nothing; that in `w.iface` has another name, and a module of `x` is broken.
const FILES: [File<'static>; 15] = [
    ("m.special", b"MODULE m END_MODULE"),
    ("k.special", b"MODULE k ASSERTIONS 1; END_MODULE"),
    ("s.inst", b"INSTANCE s END_INSTANCE"),
    (
        "a.iface",
        b"INTERFACE a MODULES m; LATTICE LOW; SAMPLE s; END_INTERFACE",
    ),
    (
        "b.iface",
        b"INTERFACE b MODULES m; LATTICE LOW; SAMPLE s; END_INTERFACE",
    ),
    (
        "c.iface",
        b"INTERFACE c MODULES m; LATTICE LOW; SAMPLE s; END_INTERFACE",
    ),
    (
        "w.iface",
        b"INTERFACE v MODULES m; LATTICE LOW; SAMPLE s; END_INTERFACE",
    ),
    (
        "x.iface",
        b"INTERFACE x MODULES k; LATTICE LOW; SAMPLE s; END_INTERFACE",
    ),
    ("ab.map", b"MAPPING ab FROM a TO b END_MAPPING"),
    ("ac.map", b"MAPPING ac FROM a TO c END_MAPPING"),
    ("bc.map", b"MAPPING bc FROM b TO c END_MAPPING"),
    ("own.map", b"MAPPING ab FROM b TO a END_MAPPING"),
    ("upper.map", b"MAPPING upper FROM b TO a END_MAPPING"),
    ("lower.map", b"MAPPING lower FROM a TO a END_MAPPING"),
    (
        "broken.map",
        b"MAPPING broken FROM a TO b TYPES t IS t; END_MAPPING",
    ),
];

/// Adds a file.
pub fn push_file(
    alloc: Global,
    files: &mut Vec<(String, Vec<u8>)>,
    name: &str,
    text: &[u8],
) -> Result<(), Memory> {
    files.push((String::from_str(alloc, name)?, text.to_vec(alloc)?))?;
    Ok(())
}

fn judged_text(alloc: Global, hierarchy: &Hierarchy) -> Result<Vec<u8>, Memory> {
    let mut line = Vec::new(alloc);
    push_text(alloc, &mut line, b"JUDGED ")?;
    push_number(alloc, &mut line, hierarchy.members.items().len() as i64)?;
    push_text(alloc, &mut line, b" ")?;
    push_number(alloc, &mut line, hierarchy.mappings.items().len() as i64)?;
    push_text(alloc, &mut line, b"\n")?;
    Ok(line)
}

fn judge_texts(alloc: Global, texts: &HierarchyTexts) -> Result<Vec<u8>, Memory>
    requires { All IsTextName texts.now.interfaces }
{
    match judge_hierarchy(alloc, "h.hier", texts) {
        Ok(hierarchy) => judged_text(alloc, &hierarchy),
        Err(Stop::Refused(refusal)) => refusal_text(alloc, &refusal),
        Err(Stop::Memory) => Err(Memory),
    }
}

/// What the hierarchy in the file `h.hier` comes to, where the loads of these numbers fail: `JUDGED`, how many interfaces and how many
/// mappings; or the line of its refusal; or `READ_FAULT`.
///
/// # Errors
/// `Memory`.
pub fn outcome(
    alloc: Global,
    files: Vec<(String, Vec<u8>)>,
    failing: Vec<u64>,
) -> Result<Vec<u8>, Memory> {
    let mut library = MemoryLibrary::new(files, failing);
    match load_hierarchy(alloc, &mut library, "h.hier") {
        Ok(texts) => judge_texts(alloc, &texts),
        Err(LoadStop::Refused(refusal)) => refusal_text(alloc, &refusal),
        Err(LoadStop::ReadFault) => Ok(b"READ_FAULT\n".to_vec(alloc)?),
        Err(LoadStop::Memory) => Err(Memory),
    }
}

fn hierarchy_text(alloc: Global, rows: &[u8]) -> Result<Vec<u8>, Memory> {
    let mut text = Vec::new(alloc);
    push_text(alloc, &mut text, b"HIERARCHY h ")?;
    push_text(alloc, &mut text, rows)?;
    push_text(alloc, &mut text, b" END_HIERARCHY")?;
    Ok(text)
}

/// The same of these rows over the files above.
///
/// # Errors
/// `Memory`.
pub fn outcome_of(alloc: Global, rows: &[u8], failing: Vec<u64>) -> Result<Vec<u8>, Memory> {
    let mut files = Vec::new(alloc);
    push_file(alloc, &mut files, "h.hier", &hierarchy_text(alloc, rows)?)?;
    for (name, text) in &FILES {
        push_file(alloc, &mut files, name, text)?;
    }
    outcome(alloc, files, failing)
}
