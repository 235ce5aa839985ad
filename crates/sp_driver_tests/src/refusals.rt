use crate::given::{Files, ends, outcome_of};
use std::test::Fail;

const CLASHING: &[u8] = b"INTERFACE m MODULES m; LATTICE LOW;
LEVEL p() IS LOW; LEVEL g() IS LOW; LEVEL op() IS LOW;
SAMPLE s; END_INTERFACE";

const CLASH: &[u8] = b"MODULE m FUNCTIONS
VFUN p() -> BOOLEAN; INITIALLY TRUE;
VFUN g() -> INTEGER; INITIALLY 0;
OFUN op(); EFFECTS IF p() THEN 'g() = 1; ELSE END_IF; IF p() THEN 'g() = 2; ELSE END_IF;
END_MODULE";

const WIDE: &[u8] = b"INTERFACE m MODULES m; LATTICE LOW;
LEVEL g() IS LOW; LEVEL op(a, b, c, d, e) IS LOW;
SAMPLE s; END_INTERFACE";

// Its assertion has 125 instances in a formula: as many as there are lists of three of the five arguments.
const INSTANTIATED: &[u8] = b"MODULE m
ASSERTIONS FORALL BOOLEAN x: FORALL BOOLEAN y: FORALL BOOLEAN z: TRUE END_FORALL END_FORALL END_FORALL;
FUNCTIONS VFUN g() -> INTEGER; INITIALLY 0;
OFUN op(BOOLEAN a; BOOLEAN b; BOOLEAN c; BOOLEAN d; BOOLEAN e); EFFECTS 'g() = 1;
END_MODULE";

const PLAIN: &[u8] = b"INTERFACE m MODULES m; LATTICE LOW; SAMPLE s; END_INTERFACE";

const CROSSED: &[u8] = b"INTERFACE m MODULES m; LATTICE p, q, r, t;
ORDER p < r; ORDER p < t; ORDER q < r; ORDER q < t;
SAMPLE s; END_INTERFACE";

const EMPTY: &[u8] = b"MODULE m END_MODULE";

// The files of a system whose sample is empty.
fn texts<'a>(interface: &'a [u8], module: &'a [u8], sample: &'a [u8]) -> Files<'a> {
    [
        ("m.iface", interface),
        ("m.special", module),
        ("s.inst", sample),
        ("s.script", b"p(); op();"),
    ]
}

#[test]
fn conflicts_are_told(rt: HostRuntime) -> Result<(), Fail> {
    let alloc = rt.alloc();
    let rows: [(&[&str], &[u8]); 2] = [
        (
            &["run", "m.iface", "s.inst", "s.script"],
            b"INTERFACE m\n0 p() VALUE TRUE\nCONFLICT 1 g() 1 2\n",
        ),
        (
            &["compare", "m.iface", "s.inst", "s.script", "LOW"],
            b"INTERFACE m\nLEVEL LOW\nCONFLICT 1 g() 1 2\n",
        ),
    ];
    for (words, printed) in rows {
        let files = texts(CLASHING, CLASH, b"INSTANCE s END_INSTANCE");
        ends(
            &rt,
            &outcome_of(alloc, words, files, Vec::new(alloc), 200)?,
            8,
            printed,
        );
    }
    Ok(())
}

#[test]
fn limits_of_formulas_are_told(rt: HostRuntime) -> Result<(), Fail> {
    let alloc = rt.alloc();
    let words = ["formulas", "m.iface"];
    let files = texts(WIDE, INSTANTIATED, b"INSTANCE s END_INSTANCE");
    ends(
        &rt,
        &outcome_of(alloc, &words, files, Vec::new(alloc), 200)?,
        7,
        b"LIMIT assertion instances 64 AT formula 1\n",
    );
    Ok(())
}

#[test]
fn systems_are_judged(rt: HostRuntime) -> Result<(), Fail> {
    let alloc = rt.alloc();
    let words = ["run", "m.iface", "s.inst", "s.script"];
    let rows: [(Files<'_>, u8, &[u8]); 4] = [
        (
            texts(CROSSED, EMPTY, b"INSTANCE s END_INSTANCE"),
            2,
            b"MALFORMED m.iface 23 30 NoLub p q\n",
        ),
        (
            texts(PLAIN, b"MODULE n END_MODULE", b"INSTANCE s END_INSTANCE"),
            2,
            b"MALFORMED m.special 7 8 WrongName\n",
        ),
        (
            texts(PLAIN, EMPTY, b"INSTANCE r END_INSTANCE"),
            2,
            b"MALFORMED s.inst 9 10 WrongName\n",
        ),
        (
            texts(
                PLAIN,
                b"MODULE m ASSERTIONS FALSE; END_MODULE",
                b"INSTANCE s END_INSTANCE",
            ),
            10,
            b"NOT_ADMISSIBLE s.inst 1\n",
        ),
    ];
    for (files, code, printed) in rows {
        ends(
            &rt,
            &outcome_of(alloc, &words, files, Vec::new(alloc), 200)?,
            code,
            printed,
        );
    }
    Ok(())
}
