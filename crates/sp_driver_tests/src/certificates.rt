use crate::given::{Files, ends, has_status, outcome_of};
use crate::rows::{FILES, GUARDED, LEAKY, REFUSED, SMALL};
use std::test::Fail;

const VERIFY: [&str; 3] = ["verify", "files.iface", "files.cert"];

const MIGRATE: [&str; 3] = ["migrate", "files.iface", "files.cert"];

const CERTIFICATES: &[u8] = b"CERT 1
FORMULA 1
LEAF 4
EQ 12 1 K19 13 0
EQ 11 0 K19 12 0
EQ 0 11 K2 0 0
EQ 0 1 K3 11 0
FORMULA 2
LEAF 4
EQ 15 1 K19 16 0
EQ 14 0 K19 15 0
EQ 0 14 K2 0 0
EQ 0 1 K3 14 0
";

// The first step of the first formula has a number that its rule doesn't use.
const UNFIT: &[u8] = b"CERT 1
FORMULA 1
LEAF 4
EQ 1 12 K19 13 0
EQ 11 0 K19 12 0
EQ 0 11 K2 0 0
EQ 0 1 K3 11 0
FORMULA 2
LEAF 4
EQ 15 1 K19 16 0
EQ 14 0 K19 15 0
EQ 0 14 K2 0 0
EQ 0 1 K3 14 0
";

const SPLIT: &[u8] = b"CERT 1
FORMULA 1
SPLIT 0
LEAF 4
EQ 12 1 K19 13 0
EQ 11 0 K19 12 0
EQ 0 11 K2 0 0
EQ 0 1 K3 11 0
LEAF 4
EQ 12 1 K19 13 0
EQ 11 0 K19 12 0
EQ 0 11 K2 0 0
EQ 0 1 K3 11 0
FORMULA 2
LEAF 4
EQ 15 1 K19 16 0
EQ 14 0 K19 15 0
EQ 0 14 K2 0 0
EQ 0 1 K3 14 0
";

const MIGRATED: &[u8] = b"CERT 2
FORMULA 1
STEPS 3
EQ 12 1 K19 13 0
EQ 11 0 K19 12 0
EQ 0 11 K2 0 0
SPLIT 0
LEAF 1
EQ 0 1 K3 11 0
LEAF 1
EQ 0 1 K3 11 0
FORMULA 2
LEAF 4
EQ 15 1 K19 16 0
EQ 14 0 K19 15 0
EQ 0 14 K2 0 0
EQ 0 1 K3 14 0
";

const CHECKED: &[u8] = b"INTERFACE files
1 read result-reference CHECKED
2 write change CHECKED
ACCEPTED 2 formulas
";

const UNCHECKED: &[u8] = b"INTERFACE files
1 read result-reference REFUSED step 1 lacks form
2 write change CHECKED
REFUSED 1 of 2 formulas
";

const ABSENT: &[u8] = b"INTERFACE files
1 read result-reference REFUSED no certificate
2 write change REFUSED no certificate
REFUSED 2 of 2 formulas
";

// The files of the worked example with this module and these certificates.
fn texts<'a>(module: &'a [u8], certificates: &'a [u8]) -> Files<'a> {
    [
        ("files.iface", FILES),
        ("files.special", module),
        ("small.inst", SMALL),
        ("files.cert", certificates),
    ]
}

#[test]
fn certificates_are_judged(rt: HostRuntime) -> Result<(), Fail> {
    let alloc = rt.alloc();
    let rows: [(&[u8], u8, &[u8]); 5] = [
        (CERTIFICATES, 0, CHECKED),
        (MIGRATED, 0, CHECKED),
        (UNFIT, 1, UNCHECKED),
        (b"CERT 1\n", 1, ABSENT),
        (
            b"CERT 1\nFORMULA 1\nLEAF\n",
            2,
            b"MALFORMED files.cert 17 21 BadLine\n",
        ),
    ];
    for (certificates, code, printed) in rows {
        let files = texts(GUARDED, certificates);
        ends(
            &rt,
            &outcome_of(alloc, &VERIFY, files, Vec::new(alloc), 400)?,
            code,
            printed,
        );
    }
    Ok(())
}

#[test]
fn certificates_are_migrated(rt: HostRuntime) -> Result<(), Fail> {
    let alloc = rt.alloc();
    let rows: [(&[u8], u8, &[u8]); 3] = [
        (SPLIT, 0, MIGRATED),
        (MIGRATED, 0, MIGRATED),
        (UNFIT, 1, UNCHECKED),
    ];
    for (certificates, code, printed) in rows {
        let files = texts(GUARDED, certificates);
        ends(
            &rt,
            &outcome_of(alloc, &MIGRATE, files, Vec::new(alloc), 400)?,
            code,
            printed,
        );
    }
    Ok(())
}

#[test]
fn what_is_proved_is_verified(rt: HostRuntime) -> Result<(), Fail> {
    let alloc = rt.alloc();
    let words = ["prove", "files.iface"];
    let proved = outcome_of(alloc, &words, texts(GUARDED, b""), Vec::new(alloc), 1000)?;
    has_status(&rt, &proved, 0);
    let files = texts(GUARDED, proved.bytes());
    ends(
        &rt,
        &outcome_of(alloc, &VERIFY, files, Vec::new(alloc), 400)?,
        0,
        CHECKED,
    );
    Ok(())
}

#[test]
fn what_is_open_is_told(rt: HostRuntime) -> Result<(), Fail> {
    let alloc = rt.alloc();
    let words = ["prove", "files.iface"];
    ends(
        &rt,
        &outcome_of(alloc, &words, texts(LEAKY, b""), Vec::new(alloc), 400)?,
        1,
        REFUSED,
    );
    Ok(())
}
