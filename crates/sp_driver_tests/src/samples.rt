use crate::given::{ends, outcome_over};
use std::test::Fail;

const SUMMARY: &[u8] = b"SAMPLE 1
functions 4
formulas 4
terms 74
ACCEPTED
";

#[test]
fn a_sample_is_summed_up(rt: HostRuntime) -> Result<(), Fail> {
    let alloc = rt.alloc();
    let rows: [(&str, u8, &[u8]); 3] = [
        ("1", 0, SUMMARY),
        ("0", 3, b"WORDS\n"),
        ("007", 3, b"WORDS\n"),
    ];
    // There is no file, and the first load would fail.
    for (size, code, printed) in rows {
        let words = ["sample", size];
        let failing = vec![in alloc; 0]?;
        ends(
            &rt,
            &outcome_over(alloc, &words, &[], failing, 100)?,
            code,
            printed,
        );
    }
    Ok(())
}
