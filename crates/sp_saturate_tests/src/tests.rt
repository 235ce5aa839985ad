use crate::forms::{
    A, A_AND_B, A_OR_B, B, BOTTOM, C, F_OF_U, F_OF_V, FALSE, FIVE, LEVEL_1, LEVEL_2, MINUS_ONE,
    NOT_A, SIX, TOP, TRUE, U, U_IS_TWO, U_IS_V, U_IS_W, U_LESS_3, U_PLUS_3, U_TIMES_3, UNKNOWN, V,
    V_IS_GREATEST, V_IS_W, V_TIMES_3, W, X, X_GLB_Y, X_IS_Y, X_LE_Y, X_LE_Z, X_LUB_Y, X_OR_ELSE_X,
    X_OR_ELSE_Y, Y, Y_LE_X, Y_LE_Z, Z, Z_LE_X, Z_LE_Y, each_form,
};
use crate::{Builder, Unbuilt, chain_of_equalities, reading};
use sp_rules::{Fact, Root, Step, clashes};
use sp_saturate::Facts;
use sp_text::Memory;
use std::alloc::Global;
use std::test::Fail;

/// An equality, or an order.
fn fact(equal: bool, i: u16, j: u16) -> Fact {
    if equal {
        Fact::Eq(u32::from(i), u32::from(j))
    } else {
        Fact::Le(u32::from(i), u32::from(j))
    }
}

fn equal(i: u16, j: u16) -> Fact {
    Fact::Eq(u32::from(i), u32::from(j))
}

fn below(i: u16, j: u16) -> Fact {
    Fact::Le(u32::from(i), u32::from(j))
}

/// The number of a rule, two hypotheses and the goal, of which TRUE and C say nothing, and the two terms of a fact.
type Row = (u8, [u16; 3], [u16; 2]);

/// Equalities that follow.
const EQUALITIES: [Row; 7] = [
    (2, [X_IS_Y, TRUE, C], [Y, X]),
    (3, [U_IS_V, V_IS_W, C], [U, W]),
    (4, [U_IS_V, TRUE, C], [F_OF_U, F_OF_V]),
    (5, [U_IS_V, TRUE, C], [U, V]),
    (6, [U_IS_V, V_IS_W, C], [U_IS_W, TRUE]),
    (10, [X_LE_Y, Y_LE_X, C], [X, Y]),
    (18, [X_LE_Y, Y_LE_Z, C], [X_LE_Z, TRUE]),
];

/// Those that NOT gives.
const NEGATIONS: [Row; 4] = [
    (19, [A, TRUE, C], [NOT_A, FALSE]),
    (19, [TRUE, TRUE, A], [NOT_A, TRUE]),
    (19, [NOT_A, TRUE, C], [A, FALSE]),
    (19, [TRUE, TRUE, NOT_A], [A, TRUE]),
];

/// Those that AND gives.
const CONJUNCTIONS: [Row; 7] = [
    (20, [A, B, C], [A_AND_B, TRUE]),
    (20, [TRUE, TRUE, A], [A_AND_B, FALSE]),
    (20, [TRUE, TRUE, B], [A_AND_B, FALSE]),
    (20, [A_AND_B, TRUE, C], [A, TRUE]),
    (20, [A_AND_B, TRUE, C], [B, TRUE]),
    (20, [A, TRUE, A_AND_B], [B, FALSE]),
    (20, [B, TRUE, A_AND_B], [A, FALSE]),
];

/// Those that OR gives.
const DISJUNCTIONS: [Row; 7] = [
    (21, [NOT_A, TRUE, B], [A_OR_B, FALSE]),
    (21, [A, TRUE, C], [A_OR_B, TRUE]),
    (21, [B, TRUE, C], [A_OR_B, TRUE]),
    (21, [TRUE, TRUE, A_OR_B], [A, FALSE]),
    (21, [TRUE, TRUE, A_OR_B], [B, FALSE]),
    (21, [A_OR_B, TRUE, A], [B, TRUE]),
    (21, [A_OR_B, TRUE, B], [A, TRUE]),
];

/// Those that IF and calculations give.
const VALUES: [Row; 8] = [
    (22, [A, TRUE, C], [X_OR_ELSE_Y, X]),
    (22, [TRUE, TRUE, A], [X_OR_ELSE_Y, Y]),
    (22, [A, TRUE, C], [X_OR_ELSE_X, X]),
    (22, [TRUE, TRUE, A], [X_OR_ELSE_X, X]),
    (23, [U_IS_TWO, TRUE, C], [U_PLUS_3, FIVE]),
    (23, [U_IS_TWO, TRUE, C], [U_LESS_3, MINUS_ONE]),
    (23, [U_IS_TWO, TRUE, C], [U_TIMES_3, SIX]),
    (23, [V_IS_GREATEST, TRUE, C], [V_TIMES_3, UNKNOWN]),
];

/// Orders that follow.
const ORDERS: [Row; 5] = [
    (8, [X_LE_Y, Y_LE_Z, C], [X, Z]),
    (9, [X_IS_Y, TRUE, C], [X, Y]),
    (14, [X_LE_Z, Y_LE_Z, C], [X_LUB_Y, Z]),
    (16, [Z_LE_X, Z_LE_Y, C], [Z, X_GLB_Y]),
    (17, [X_LE_Y, TRUE, C], [X, Y]),
];

/// Whether a fact follows from two hypotheses and the goal.
fn follows(
    alloc: Global,
    builder: &Builder,
    premises: [u16; 3],
    fact: Fact,
) -> Result<bool, Unbuilt> {
    let root = builder.root(&premises[..2], premises[2], &[])?;
    let facts = Facts::open(alloc, &root)?;
    Ok(facts.holds(fact))
}

/// The premises without that of this place.
fn without(premises: [u16; 3], place: usize) -> [u16; 3] {
    let [first, second, goal] = premises;
    match place {
        0 => [TRUE, second, goal],
        1 => [first, TRUE, goal],
        _ => [first, second, C],
    }
}

/// Whether a fact follows from these premises, and without any of those that say something doesn't.
fn needs_all(
    alloc: Global,
    builder: &Builder,
    premises: [u16; 3],
    fact: Fact,
) -> Result<bool, Unbuilt> {
    for place in 0..3 {
        let fewer = without(premises, place);
        if fewer != premises && follows(alloc, builder, fewer, fact)? {
            return Ok(false);
        }
    }
    follows(alloc, builder, premises, fact)
}

/// The rule of the first row whose fact doesn't follow, or follows without one of its premises.
fn first_wrong(
    alloc: Global,
    builder: &Builder,
    rows: &[Row],
    equal: bool,
) -> Result<Option<u8>, Unbuilt> {
    for (rule, premises, [i, j]) in rows {
        if !needs_all(alloc, builder, *premises, fact(equal, *i, *j))? {
            return Ok(Some(*rule));
        }
    }
    Ok(None)
}

/// All rows, and whether their facts are equalities.
const TABLES: [(&[Row], bool); 6] = [
    (&EQUALITIES, true),
    (&NEGATIONS, true),
    (&CONJUNCTIONS, true),
    (&DISJUNCTIONS, true),
    (&VALUES, true),
    (&ORDERS, false),
];

// The same of all rows.
fn first_wrong_of_all(alloc: Global) -> Result<Option<u8>, Unbuilt> {
    let builder = each_form(alloc)?;
    for (rows, equal) in &TABLES {
        if let Some(rule) = first_wrong(alloc, &builder, rows, *equal)? {
            return Ok(Some(rule));
        }
    }
    Ok(None)
}

#[test]
fn each_rule_gives_its_fact_and_needs_each_premise(rt: HostRuntime) {
    assert_eq!(rt; first_wrong_of_all(rt.alloc()), Ok(None));
}

/// The number of a rule without premises, and two terms whose order follows; that of the second and the first doesn't.
const FREE_ORDERS: [(u8, [u16; 2]); 6] = [
    (11, [LEVEL_1, LEVEL_2]),
    (12, [BOTTOM, X]),
    (12, [X, TOP]),
    (13, [X, X_LUB_Y]),
    (13, [Y, X_LUB_Y]),
    (15, [X_GLB_Y, Y]),
];

/// The rule of the first row whose order doesn't follow, or whose converse does.
fn first_wrong_order(facts: &Facts, rows: &[(u8, [u16; 2])]) -> Option<u8> {
    for (rule, [i, j]) in rows {
        if !facts.holds(below(*i, *j)) || facts.holds(below(*j, *i)) {
            return Some(*rule);
        }
    }
    None
}

// Whether each term is itself, which is K1, and each level term is below itself, which is K7.
fn are_reflexive(facts: &Facts) -> bool {
    facts.holds(equal(U, U))
        && !facts.holds(equal(U, V))
        && facts.holds(below(X, X))
        && !facts.holds(below(U, U))
}

// The formula over the terms of each form with these hypotheses, this goal and these atoms.
fn of_forms(alloc: Global, hypotheses: &[u16], goal: u16, atoms: &[u16]) -> Result<Root, Unbuilt> {
    each_form(alloc)?.root(hypotheses, goal, atoms)
}

fn free_facts_are_given(alloc: Global, root: &Root) -> Result<bool, Memory> {
    let facts = Facts::open(alloc, root)?;
    Ok(first_wrong_order(&facts, &FREE_ORDERS) == None && are_reflexive(&facts))
}

#[test]
fn rules_without_premises_give_their_facts(rt: HostRuntime) -> Result<(), Fail> {
    let root = of_forms(rt.alloc(), &[], C, &[])?;
    assert!(rt; free_facts_are_given(rt.alloc(), &root)?);
    Ok(())
}

fn chain_is_closed(facts: &Facts) -> bool {
    facts.count() == 188_504
        && facts.holds(Fact::Eq(2, 499))
        && facts.holds(Fact::Eq(499, 2))
        && facts.holds(Fact::Le(499, 2))
        && !facts.holds(Fact::Eq(0, 2))
        && facts.clash() == Some(Fact::Eq(0, 1))
}

fn is_closed_chain(alloc: Global, root: &Root) -> Result<bool, Memory> {
    let facts = Facts::open(alloc, root)?;
    Ok(chain_is_closed(&facts))
}

#[test]
fn a_long_chain_of_equalities_is_closed(rt: HostRuntime) -> Result<(), Fail> {
    let root = chain_of_equalities(rt.alloc(), 250)?;
    assert!(rt; root.terms().count() == 502);
    assert!(rt; is_closed_chain(rt.alloc(), &root)?);
    Ok(())
}

fn reading_is_closed(facts: &Facts) -> bool {
    facts.clash() == None && facts.holds(Fact::Eq(8, 13)) && facts.holds(Fact::Eq(14, 1))
}

// Whether the steps are fewer than the facts.
fn has_few_steps(alloc: Global, facts: &Facts) -> Result<bool, Memory> {
    Ok(facts.steps(alloc)?.len() < facts.count() as usize)
}

fn is_closed_without_a_clash(alloc: Global, root: &Root) -> Result<bool, Memory> {
    let facts = Facts::open(alloc, root)?;
    Ok(reading_is_closed(&facts) && has_few_steps(alloc, &facts)?)
}

#[test]
fn an_ordinary_formula_is_closed_without_a_clash(rt: HostRuntime) -> Result<(), Fail> {
    let root = reading(rt.alloc())?;
    assert!(rt; root.terms().count() == 22);
    assert!(rt; is_closed_without_a_clash(rt.alloc(), &root)?);
    Ok(())
}

// Assumes a truth value of an atom, if there is this atom and fewer than 20 assumptions stand.
fn assume(facts: &mut Facts, atom: u16, truth: bool) -> bool {
    if (atom as usize) < facts.atoms().len() && facts.assumed().len() < 20 {
        facts.assume(atom, truth);
        true
    } else {
        false
    }
}

// Takes the last assumption back, if there is one.
fn back(facts: &mut Facts) -> bool {
    if facts.assumed().is_empty() {
        return false;
    }
    facts.back();
    true
}

// Whether a is known of two atoms a and b, and what follows from both.
fn a_and_both(facts: &Facts) -> (bool, bool) {
    (facts.holds(equal(A, 0)), facts.holds(equal(A_AND_B, 0)))
}

// Whether assumptions give what follows from them, while they stand.
fn assumptions_are_taken_back(facts: &mut Facts) -> bool {
    assume(facts, 0, true)
        && a_and_both(facts) == (true, false)
        && assume(facts, 1, true)
        && a_and_both(facts) == (true, true)
        && back(facts)
        && a_and_both(facts) == (true, false)
        && assume(facts, 1, false)
        && facts.holds(equal(A_AND_B, 1))
}

// Whether two assumptions stand, and without them their facts are gone and the given ones are still there.
fn nothing_is_left(facts: &mut Facts) -> bool {
    back(facts)
        && back(facts)
        && !back(facts)
        && !facts.holds(equal(A, 0))
        && facts.holds(Fact::Le(2, 3))
}

fn all_is_as_before(alloc: Global, root: &Root) -> Result<bool, Memory> {
    let mut facts = Facts::open(alloc, root)?;
    let count = facts.count();
    Ok(
        assumptions_are_taken_back(&mut facts)
            && nothing_is_left(&mut facts)
            && facts.count() == count,
    )
}

#[test]
fn what_an_assumption_gave_is_gone_after_back(rt: HostRuntime) -> Result<(), Fail> {
    let root = of_forms(rt.alloc(), &[X_LE_Y], C, &[A, B])?;
    assert!(rt; all_is_as_before(rt.alloc(), &root)?);
    Ok(())
}

// Whether 20 assumptions can be made and no other, and then be taken back.
fn twenty_stand(facts: &mut Facts) -> bool {
    for _ in 0..20 {
        if !assume(facts, 1, true) {
            return false;
        }
    }
    if assume(facts, 0, true) {
        return false;
    }
    for _ in 0..20 {
        if !back(facts) {
            return false;
        }
    }
    true
}

fn twenty_leave_nothing(alloc: Global, root: &Root) -> Result<bool, Memory> {
    let mut facts = Facts::open(alloc, root)?;
    let count = facts.count();
    Ok(twenty_stand(&mut facts) && facts.count() == count)
}

#[test]
fn twenty_assumptions_stand_at_once(rt: HostRuntime) -> Result<(), Fail> {
    let root = of_forms(rt.alloc(), &[], C, &[A, B])?;
    assert!(rt; twenty_leave_nothing(rt.alloc(), &root)?);
    Ok(())
}

// Whether a truth value of an atom is refuted; else it is assumed, if there is this atom and there is room.
fn refutes(alloc: Global, facts: &mut Facts, atom: u16, truth: bool) -> Result<bool, Memory> {
    if (atom as usize) < facts.atoms().len() && facts.assumed().len() < 20 {
        return Ok(facts.refute(alloc, atom, truth)?.is_some());
    }
    Ok(false)
}

// Whether one truth value of B is refuted, which leaves all as it was, and the other one assumed.
fn one_is_refuted(alloc: Global, root: &Root) -> Result<bool, Memory> {
    let mut facts = Facts::open(alloc, root)?;
    let count = facts.count();
    let is_refuted = refutes(alloc, &mut facts, 1, false)?;
    let is_same = facts.assumed().is_empty() && facts.count() == count;
    let is_assumed = !refutes(alloc, &mut facts, 1, true)? && facts.assumed().len() == 1;
    Ok(is_refuted && is_same && is_assumed)
}

#[test]
fn a_truth_value_is_refuted_or_assumed(rt: HostRuntime) -> Result<(), Fail> {
    let root = of_forms(rt.alloc(), &[A_AND_B], C, &[A, B])?;
    assert!(rt; one_is_refuted(rt.alloc(), &root)?);
    Ok(())
}

fn steps_of(alloc: Global, root: &Root) -> Result<Vec<Step>, Memory> {
    let facts = Facts::open(alloc, root)?;
    facts.steps(alloc)
}

// The last of the steps, if it is a clash, and how many there are.
fn end_of_steps(alloc: Global, root: &Root) -> Result<Option<(Fact, usize)>, Memory> {
    let steps = steps_of(alloc, root)?;
    let Some(last) = steps.last() else {
        return Ok(None);
    };
    let end = (last.fact, steps.len());
    Ok(if clashes(root.terms(), end.0) {
        Some(end)
    } else {
        None
    })
}

// The same of a formula over the terms of each form.
fn end_of(alloc: Global, hypotheses: &[u16], goal: u16) -> Result<Option<(Fact, usize)>, Unbuilt> {
    let root = of_forms(alloc, hypotheses, goal, &[])?;
    Ok(end_of_steps(alloc, &root)?)
}

#[test]
fn steps_are_those_behind_the_clash(rt: HostRuntime) -> Result<(), Fail> {
    // u = v and v = w, so u = w, which is denied.
    let end = end_of(rt.alloc(), &[U_IS_V, V_IS_W], U_IS_W)?;
    assert!(rt; matches!(end, Some((Fact::Eq(0, 1) | Fact::Eq(1, 0), 5 | 6))));
    Ok(())
}

#[test]
fn a_given_clash_is_turned_round(rt: HostRuntime) -> Result<(), Fail> {
    let end = end_of(rt.alloc(), &[], TRUE)?;
    assert!(rt; end == Some((Fact::Eq(1, 0), 1)));
    assert!(rt; end_of(rt.alloc(), &[A], C)? == None);
    Ok(())
}
