use crate::given::{ends, outcome_over};
use crate::rows::{FILES, GUARDED, SMALL};
use std::test::Fail;

const SYS: &[u8] = b"HIERARCHY sys files OVER store BY down; END_HIERARCHY";

const STORE: &[u8] = b"INTERFACE store MODULES store;
LATTICE LOW, HIGH; ORDER LOW < HIGH;
LEVEL cell(s, i) IS scls(s); LEVEL put(u, s, i, x) IS clr(u);
SAMPLE st; END_INTERFACE";

const CELLS: &[u8] = b"MODULE store
TYPES user: DESIGNATOR; seg: DESIGNATOR;
PARAMETERS LEVEL clr(user u); LEVEL scls(seg s);
FUNCTIONS
VFUN cell(seg s; INTEGER i) -> INTEGER; HIDDEN; INITIALLY 0;
OFUN put(user u; seg s; INTEGER i; INTEGER x); EXCEPTIONS no_write: NOT clr(u) <= scls(s); EFFECTS 'cell(s, i) = x;
END_MODULE";

// The same without the exception, so that every user writes every cell.
const UNGUARDED: &[u8] = b"MODULE store
TYPES user: DESIGNATOR; seg: DESIGNATOR;
PARAMETERS LEVEL clr(user u); LEVEL scls(seg s);
FUNCTIONS
VFUN cell(seg s; INTEGER i) -> INTEGER; HIDDEN; INITIALLY 0;
OFUN put(user u; seg s; INTEGER i; INTEGER x); EFFECTS 'cell(s, i) = x;
END_MODULE";

const ONE: &[u8] = b"INSTANCE st
POPULATION user = {u0}; POPULATION seg = {s0};
PARAMETER clr: OTHERWISE LOW; PARAMETER scls: OTHERWISE LOW;
END_INSTANCE";

const DOWN: &[u8] = b"MAPPING down FROM files TO store
TYPES user IS user; file IS seg;
PARAMETERS clr(u) IS clr(u); cls(f) IS scls(f);
FUNCTIONS data(f) IS cell(f, 0);
END_MAPPING";

// Files have the level LOW above, and that of their segments below.
const LOWERED: &[u8] = b"MAPPING down FROM files TO store
TYPES user IS user; file IS seg;
PARAMETERS clr(u) IS clr(u); cls(f) IS LOW;
FUNCTIONS data(f) IS cell(f, 0);
END_MAPPING";

const ACCEPTED: &[u8] = b"INTERFACE files
1 read result-reference PROVED
2 write change PROVED
ACCEPTED 2 formulas
INTERFACE store
1 put change PROVED
ACCEPTED 1 formulas
MAPPING down
1 data mapping-reference PROVED
ACCEPTED 1 formulas
HIERARCHY ACCEPTED
";

const REFUSED: &[u8] = b"INTERFACE files
1 read result-reference PROVED
2 write change PROVED
ACCEPTED 2 formulas
INTERFACE store
1 put change PROVED
ACCEPTED 1 formulas
MAPPING down
1 data mapping-reference OPEN
  f = ? FALSE
  scls(f) <= LOW FALSE
REFUSED 1 of 1 formulas
HIERARCHY REFUSED
";

// The mapping is accepted over an interface that is refused: nothing is claimed of it then.
const LOWER_REFUSED: &[u8] = b"INTERFACE files
1 read result-reference PROVED
2 write change PROVED
ACCEPTED 2 formulas
INTERFACE store
1 put change OPEN
  u = ? FALSE
  s = ? FALSE
  i = ? FALSE
  x = ? FALSE
  clr(u) <= scls(s) FALSE
REFUSED 1 of 1 formulas
MAPPING down
1 data mapping-reference PROVED
ACCEPTED 1 formulas
HIERARCHY REFUSED
";

// The files of the worked hierarchy, with this lower module, and this mapping in the file of this name.
fn texts<'a>(cells: &'a [u8], name: &'a str, mapping: &'a [u8]) -> [(&'a str, &'a [u8]); 8] {
    [
        ("sys.hier", SYS),
        ("files.iface", FILES),
        ("files.special", GUARDED),
        ("small.inst", SMALL),
        ("store.iface", STORE),
        ("store.special", cells),
        ("st.inst", ONE),
        (name, mapping),
    ]
}

#[test]
fn hierarchies_are_decided(rt: HostRuntime) -> Result<(), Fail> {
    let alloc = rt.alloc();
    let rows: [(&[u8], &str, &[u8], u8, &[u8]); 4] = [
        (CELLS, "down.map", DOWN, 0, ACCEPTED),
        (CELLS, "down.map", LOWERED, 1, REFUSED),
        (UNGUARDED, "down.map", DOWN, 1, LOWER_REFUSED),
        (CELLS, "up.map", DOWN, 4, b"MISSING down.map\n"),
    ];
    for (cells, name, mapping, code, printed) in rows {
        let words = ["hierarchy", "sys.hier"];
        let files = texts(cells, name, mapping);
        ends(
            &rt,
            &outcome_over(alloc, &words, &files, Vec::new(alloc), 500)?,
            code,
            printed,
        );
    }
    Ok(())
}
