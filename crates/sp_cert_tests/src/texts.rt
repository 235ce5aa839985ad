use sp_cert::{read_cert, write_cert};
use sp_text::{Limit, Malformed, Quantity, Rule, Span, TextFault};
use std::alloc::Global;
use std::test::Fail;

const WORKED: &[u8] =
    b"CERT 1\nFORMULA 1\nLEAF 4\nEQ 12 1 K19 13 0\nEQ 11 0 K19 12 0\nEQ 0 11 K2 0 0\nEQ 0 1 K3 11 0\nFORMULA 2\nLEAF 4\nEQ 15 1 K19 16 0\nEQ 14 0 K19 15 0\nEQ 0 14 K2 0 0\nEQ 0 1 K3 14 0\n";

// One tree with each form of node, in format 2.
const SHARED: &[u8] =
    b"CERT 2\nFORMULA 1\nSTEPS 1\nEQ 12 1 K19 13 0\nSPLIT 0\nLEAF 0\nLEAF 1\nLE 0 4294967295 K23 1 2\n";

fn fault_of(alloc: Global, text: &[u8]) -> Option<TextFault> {
    if text.len() > 67108864 {
        return None;
    }
    match read_cert(alloc, text) {
        Ok(_file) => None,
        Err(fault) => Some(fault),
    }
}

fn bad_line(start: u32, end: u32) -> Option<TextFault> {
    Some(TextFault::Malformed(Malformed {
        span: Span { start, end },
        rule: Rule::BadLine,
    }))
}

fn too_deep(start: u32, end: u32) -> Option<TextFault> {
    Some(TextFault::Limit(Limit {
        span: Span { start, end },
        quantity: Quantity::CertificateDepth,
    }))
}

// Where the line of the byte before k begins.
fn line_start(text: &[u8], k: usize) -> u32 {
    let mut start = 0;
    for (place, byte) in text.iter().enumerate() {
        if place < k && *byte == b'\n' {
            start = (place + 1).min(4294967295) as u32;
        }
    }
    start
}

/// So many copies of a line behind a text.
pub fn with_lines(text: &mut Vec<u8>, line: &[u8], count: u32) -> Result<(), Fail> {
    for _copy in 0..count {
        text.extend_from_slice(line)?;
    }
    Ok(())
}

#[test]
fn the_worked_text_is_read(rt: HostRuntime) {
    assert!(rt; WORKED.len() == 169);
    let file = read_cert(rt.alloc(), WORKED);
    assert!(rt; matches!(&file, Ok(file) if file.format == 1 && file.certs.len() == 2));
}

fn is_written_again(alloc: Global, text: &[u8]) -> bool {
    if text.len() > 67108864 {
        return false;
    }
    let Ok(file) = read_cert(alloc, text) else {
        return false;
    };
    let mut out = Vec::new(alloc);
    write_cert(alloc, &file, &mut out).is_ok() && out.as_slice() == text
}

#[test]
fn what_is_read_is_written_again(rt: HostRuntime) {
    for text in &[WORKED, SHARED, b"CERT 2\n"] {
        assert!(rt; is_written_again(rt.alloc(), text));
    }
}

// The fault of the worked text, cut behind so many bytes.
fn cut_fault(cut: usize) -> Option<TextFault> {
    if cut == 7 || cut == 88 || cut == 169 {
        return None;
    }
    bad_line(line_start(WORKED, cut), cut.min(4294967295) as u32)
}

#[test]
fn a_cut_text_has_its_place(rt: HostRuntime) {
    for cut in 0..170 {
        let front = WORKED.get(..cut).unwrap_or(b"");
        assert!(rt;
            fault_of(rt.alloc(), front) == cut_fault(cut),
            "cut at {cut}"
        );
    }
}

/// Texts that don't read, and the place of the line that is off.
const MISSPELLED: [(&[u8], u32, u32); 12] = [
    (b"CERT 1 \n", 0, 7),
    (b"CERT 3\n", 0, 6),
    (b"CERT 01\n", 0, 7),
    (b"CERT 1\nFORMULA 01\nLEAF 0\n", 7, 17),
    (b"CERT 1\nFORMULA 2\nLEAF 0\n", 7, 16),
    (b"CERT 1\nFORMULA 1\nLEAF 1\nEQ 0  1 K1 0 0\n", 24, 38),
    (b"CERT 1\nFORMULA 1\nLEAF 1\nEQ 0 1 K24 0 0\n", 24, 38),
    (b"CERT 1\nFORMULA 1\nLEAF 1\nEQ 0 1 K0 0 0\n", 24, 37),
    (
        b"CERT 1\nFORMULA 1\nLEAF 1\nEQ 0 4294967296 K1 0 0\n",
        24,
        46,
    ),
    (b"CERT 1\nFORMULA 1\nLEAF 0\n\n", 24, 24),
    (b"CERT 1\nFORMULA 1\nSPLIT 00\n", 17, 25),
    (b"CERT 1\nFORMULA 1\nSTEPS 0\nLEAF 0\n", 17, 24),
];

/// Texts that read.
const SPELLED: [&[u8]; 2] = [
    b"CERT 1\nFORMULA 1\nLEAF 1\nLE 0 4294967295 K1 0 0\n",
    b"CERT 2\nFORMULA 1\nSTEPS 0\nLEAF 0\n",
];

#[test]
fn lines_have_one_spelling(rt: HostRuntime) {
    for (text, start, end) in &MISSPELLED {
        assert!(rt; fault_of(rt.alloc(), text) == bad_line(*start, *end));
    }
    for text in &SPELLED {
        assert!(rt; fault_of(rt.alloc(), text) == None);
    }
}

#[test]
fn a_65th_split_line_is_too_deep(rt: HostRuntime) -> Result<(), Fail> {
    let mut text = Vec::from_slice(rt.alloc(), b"CERT 1\nFORMULA 1\n")?;
    with_lines(&mut text, b"SPLIT 0\n", 65)?;
    assert!(rt; fault_of(rt.alloc(), &text) == too_deep(529, 536));
    Ok(())
}

// A text of format 2 with so many STEPS lines, and a SPLIT with its leaves below them.
fn above_split(alloc: Global, steps: u32) -> Result<Vec<u8>, Fail> {
    let mut text = Vec::from_slice(alloc, b"CERT 2\nFORMULA 1\n")?;
    with_lines(&mut text, b"STEPS 0\n", steps)?;
    text.extend_from_slice(b"SPLIT 0\nLEAF 0\nLEAF 0\n")?;
    Ok(text)
}

// A text of format 2 with a SPLIT line and so many STEPS lines below it.
fn below_split(alloc: Global, steps: u32) -> Result<Vec<u8>, Fail> {
    let mut text = Vec::from_slice(alloc, b"CERT 2\nFORMULA 1\nSPLIT 0\n")?;
    with_lines(&mut text, b"STEPS 0\n", steps)?;
    Ok(text)
}

#[test]
fn split_and_steps_lines_count_together(rt: HostRuntime) -> Result<(), Fail> {
    let text = above_split(rt.alloc(), 63)?;
    assert!(rt; fault_of(rt.alloc(), &text) == None);
    let deeper = below_split(rt.alloc(), 64)?;
    assert!(rt; fault_of(rt.alloc(), &deeper) == too_deep(529, 536));
    Ok(())
}
