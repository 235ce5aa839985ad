use crate::given::{Files, Outcome, ends, has_status, outcome_of};
use sp_text::{Memory, push_text};
use std::alloc::Global;
use std::test::Fail;

const INTERFACE: &[u8] = b"INTERFACE m MODULES m; LATTICE LOW;
LEVEL a() IS LOW; LEVEL b() IS LOW; LEVEL swap() IS LOW;
SAMPLE s; END_INTERFACE";

const MODULE: &[u8] = b"MODULE m FUNCTIONS
VFUN a() -> INTEGER; INITIALLY 1;
VFUN b() -> INTEGER; INITIALLY 2;
OFUN swap(); EFFECTS 'a() = b(); 'b() = a();
END_MODULE";

const BIG_INTERFACE: &[u8] =
    b"INTERFACE m MODULES big; LATTICE LOW; LEVEL a() IS LOW; SAMPLE s; END_INTERFACE";

// A module of 65 bytes.
const BIG_MODULE: &[u8] = b"MODULE big FUNCTIONS VFUN a() -> INTEGER; INITIALLY 1; END_MODULE";

const INSTANCE: &[u8] = b"INSTANCE s END_INSTANCE";

const SWAP: [&str; 4] = ["run", "m.iface", "s.inst", "s.script"];

// The outcome of a run with this script.
fn outcome(
    alloc: Global,
    words: &[&str],
    script: &[u8],
    failing: Vec<u64>,
    room: usize,
) -> Result<Outcome, Memory> {
    let texts = [
        ("m.iface", INTERFACE),
        ("m.special", MODULE),
        ("s.inst", INSTANCE),
        ("s.script", script),
    ];
    outcome_of(alloc, words, texts, failing, room)
}

// The outcome of a run whose module is this text.
fn module_outcome(alloc: Global, text: &[u8]) -> Result<Outcome, Memory> {
    let texts = [
        ("m.iface", INTERFACE),
        ("m.special", text),
        ("s.inst", INSTANCE),
        ("s.script", b"".as_slice()),
    ];
    outcome_of(alloc, &SWAP, texts, Vec::new(alloc), 100)
}

// Appends the piece so many times.
fn repeat(alloc: Global, text: &mut Vec<u8>, piece: &[u8], times: u32) -> Result<(), Memory> {
    for _ in 0..times {
        push_text(alloc, text, piece)?;
    }
    Ok(())
}

#[test]
fn a_script_is_answered(rt: HostRuntime) -> Result<(), Fail> {
    let alloc = rt.alloc();
    let rows: [(&[u8], &[u8]); 2] = [
        (
            b"swap(); a(); b();",
            b"INTERFACE m\n0 swap() DONE\n1 a() VALUE 2\n2 b() VALUE 1\nEND 3\n",
        ),
        (b"", b"INTERFACE m\nEND 0\n"),
    ];
    for (script, printed) in rows {
        ends(
            &rt,
            &outcome(alloc, &SWAP, script, Vec::new(alloc), 100)?,
            0,
            printed,
        );
    }
    Ok(())
}

#[test]
fn a_refusal_is_one_line(rt: HostRuntime) -> Result<(), Fail> {
    let alloc = rt.alloc();
    let rows: [(&[&str], &[u8], u8, &[u8]); 5] = [
        (&["run", "m.iface", "s.inst"], b"", 3, b"WORDS\n"),
        (&["run", "m.iface", "-s", "s.script"], b"", 3, b"WORDS\n"),
        (
            &["run", "none.iface", "a", "b"],
            b"",
            4,
            b"MISSING none.iface\n",
        ),
        (&SWAP, b"swap()", 2, b"MALFORMED s.script 6 6 Unexpected\n"),
        (&SWAP, b"c();", 2, b"MALFORMED s.script 0 1 UnknownName\n"),
    ];
    for (words, script, code, printed) in rows {
        ends(
            &rt,
            &outcome(alloc, words, script, Vec::new(alloc), 100)?,
            code,
            printed,
        );
    }
    Ok(())
}

#[test]
fn a_failed_read_or_write_is_answered(rt: HostRuntime) -> Result<(), Fail> {
    let alloc = rt.alloc();
    ends(
        &rt,
        &outcome(alloc, &SWAP, b"", vec![in alloc; 1]?, 100)?,
        5,
        b"",
    );
    ends(
        &rt,
        &outcome(alloc, &SWAP, b"", Vec::new(alloc), 10)?,
        6,
        b"INTERFACE ",
    );
    Ok(())
}

#[test]
fn a_fault_of_a_module_has_its_place(rt: HostRuntime) -> Result<(), Fail> {
    let alloc = rt.alloc();
    let rows: [(&[u8], &[u8]); 3] = [
        (b"MODULE m", b"MALFORMED m.special 8 8 Unexpected\n"),
        (
            b"MODULE m ASSERTIONS x <= y <= z; END_MODULE",
            b"MALFORMED m.special 27 29 Unexpected\n",
        ),
        (
            b"MODULE m $( note",
            b"MALFORMED m.special 9 16 OpenComment\n",
        ),
    ];
    for (text, printed) in rows {
        ends(&rt, &module_outcome(alloc, text)?, 2, printed);
    }
    Ok(())
}

// A module that asserts TRUE within so many parentheses.
fn with_parentheses(alloc: Global, depth: u32) -> Result<Vec<u8>, Memory> {
    let mut text = b"MODULE m ASSERTIONS ".to_vec(alloc)?;
    repeat(alloc, &mut text, b"(", depth)?;
    push_text(alloc, &mut text, b"TRUE")?;
    repeat(alloc, &mut text, b")", depth)?;
    push_text(alloc, &mut text, b"; END_MODULE")?;
    Ok(text)
}

#[test]
fn an_expression_is_at_most_64_high(rt: HostRuntime) -> Result<(), Fail> {
    let alloc = rt.alloc();
    has_status(
        &rt,
        &module_outcome(alloc, &with_parentheses(alloc, 63)?)?,
        2,
    );
    ends(
        &rt,
        &module_outcome(alloc, &with_parentheses(alloc, 64)?)?,
        7,
        b"LIMIT height 64 AT m.special 83\n",
    );
    Ok(())
}

// A module with so many IF effects in one another.
fn with_nested_effects(alloc: Global, depth: u32) -> Result<Vec<u8>, Memory> {
    let mut text = b"MODULE m FUNCTIONS OFUN f(); EFFECTS ".to_vec(alloc)?;
    repeat(alloc, &mut text, b"IF TRUE THEN ", depth)?;
    repeat(alloc, &mut text, b"ELSE END_IF; ", depth)?;
    push_text(alloc, &mut text, b"END_MODULE")?;
    Ok(text)
}

#[test]
fn effects_are_nested_at_most_16_deep(rt: HostRuntime) -> Result<(), Fail> {
    let alloc = rt.alloc();
    has_status(
        &rt,
        &module_outcome(alloc, &with_nested_effects(alloc, 16)?)?,
        2,
    );
    ends(
        &rt,
        &module_outcome(alloc, &with_nested_effects(alloc, 17)?)?,
        7,
        b"LIMIT effect nesting 16 AT m.special 245\n",
    );
    Ok(())
}

#[test]
fn a_text_has_at_most_200000_tokens(rt: HostRuntime) -> Result<(), Fail> {
    let alloc = rt.alloc();
    let mut text = b"MODULE m ".to_vec(alloc)?;
    repeat(alloc, &mut text, b";", 199_999)?;
    ends(
        &rt,
        &module_outcome(alloc, &text)?,
        7,
        b"LIMIT tokens 200000 AT m.special 200007\n",
    );
    Ok(())
}

// The files of a system with this module.
fn big_texts(module: &[u8]) -> Files<'_> {
    [
        ("m.iface", BIG_INTERFACE),
        ("big.special", module),
        ("s.inst", INSTANCE),
        ("s.script", b""),
    ]
}

// The outcome of a run whose module is followed by so many blanks.
fn big_outcome(alloc: Global, blanks: u32) -> Result<Outcome, Memory> {
    let mut text = BIG_MODULE.to_vec(alloc)?;
    repeat(alloc, &mut text, b" ", blanks)?;
    outcome_of(alloc, &SWAP, big_texts(&text), Vec::new(alloc), 100)
}

#[test]
fn a_file_has_at_most_1048576_bytes(rt: HostRuntime) -> Result<(), Fail> {
    let alloc = rt.alloc();
    ends(
        &rt,
        &big_outcome(alloc, 1_048_511)?,
        0,
        b"INTERFACE m\nEND 0\n",
    );
    ends(
        &rt,
        &big_outcome(alloc, 1_048_512)?,
        7,
        b"LIMIT file bytes 1048576 AT big.special\n",
    );
    Ok(())
}
