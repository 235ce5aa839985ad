//! What a step lacks, and whether a fact is a clash.

ghost use Rattle.std.specs.Prelude.{◌≡◌, ◌<◌, ◌==◌, ◌-◌, ◌||◌, ◌&&◌, cond, IsTrue};
ghost use Rattle.sp_rules.specs.Terms.{Terms, arg, count, node_at, is_not, is_two, is_part, is_constant_of};
ghost use Rattle.sp_lattice.specs.Order.{bottom_level, top_level};
ghost use Rattle.sp_rules.specs.Table.{none, fits, premises, other, in_range, are_terms, is_formed, needs, fits_by, premises_by, rule_of, first_apart, unmet, lack_of, lack_of_need};
ghost use Rattle.sp_rules.specs.Clash.{is_clash};
ghost use Rattle.sp_rules.specs.Facts.{holds_in};

use crate::fact::{Fact, Lack, Needs, Rule, Step, rule_numbered};
use crate::heads::{
    alike, apart, denied, has_value, is_choice, is_level_constant, is_negation, is_of, order_of,
};
use crate::terms::TermTable;
use sp_bits::BitTable;
use sp_values::Op;

/// Whether p and q, which the rule doesn't use, are 0.
fn unused(p: u32, q: u32) -> bool
    ensures { result ≡ none p q }
{
    p == 0 && q == 0
}

/// Whether a step to an equality has the form of this rule: the first column of the table.
#[inline(always)]
fn fits_equal(terms: &TermTable, rule: Rule, i: u32, j: u32, p: u32, q: u32) -> bool
    requires i { i < count terms.now }
    requires j { j < count terms.now }
    requires p { p < count terms.now }
    requires q { q < count terms.now }
    ensures { result ≡ fits terms.now rule (Fact.Eq i j) p q }
{
    match rule {
        Rule::K1 => unused(p, q) && i == j,
        Rule::K2 | Rule::K10 => unused(p, q),
        Rule::K3 => q == 0,
        Rule::K4 => unused(p, q) && alike(terms.node(i), terms.node(j)),
        Rule::K5 => {
            q == 0
                && is_of(Op::Same, terms.node(p))
                && terms.argument(p, 0) == i
                && terms.argument(p, 1) == j
        }
        Rule::K6 => unused(p, q) && j == 0 && is_of(Op::Same, terms.node(i)),
        Rule::K18 => unused(p, q) && j == 0 && is_of(Op::LevelLe, terms.node(i)),
        Rule::K19 => q == 0 && j < 2 && fits_not(terms, i, p),
        Rule::K20 => q == 0 && j < 2 && fits_two(terms, Op::And, i, p),
        Rule::K21 => q == 0 && j < 2 && fits_two(terms, Op::Or, i, p),
        Rule::K22 => {
            unused(p, q)
                && is_choice(terms.node(i))
                && (terms.argument(i, 1) == j || terms.argument(i, 2) == j)
        }
        Rule::K23 => {
            terms.node(i).count == 2
                && has_value(
                    &terms.node(i).head,
                    &terms.node(p).head,
                    &terms.node(q).head,
                    &terms.node(j).head,
                )
        }
        _ => false,
    }
}

/// Whether i is NOT, or p is NOT of i.
#[inline(always)]
fn fits_not(terms: &TermTable, i: u32, p: u32) -> bool
    requires i { i < count terms.now }
    requires p { p < count terms.now }
    ensures { let ts = terms.now in result ≡ cond (p == 0) (is_not (node_at ts i)) (is_not (node_at ts p) && (arg ts p 0 == i)) }
{
    if p == 0 {
        is_negation(terms.node(i))
    } else {
        is_negation(terms.node(p)) && terms.argument(p, 0) == i
    }
}

/// Whether i is the first or the second argument of p.
fn is_part_of(terms: &TermTable, i: u32, p: u32) -> bool
    ensures { result ≡ is_part i (node_at terms.now p) }
{
    terms.argument(p, 0) == i || terms.argument(p, 1) == i
}

/// Whether i is of this operator, or p is, with i as an argument.
#[inline(always)]
fn fits_two(terms: &TermTable, op: Op, i: u32, p: u32) -> bool
    requires i { i < count terms.now }
    requires p { p < count terms.now }
    ensures { let ts = terms.now in result ≡ cond (p == 0) (is_two op (node_at ts i)) (is_two op (node_at ts p) && is_part i (node_at ts p)) }
{
    if p == 0 {
        is_of(op, terms.node(i))
    } else {
        is_of(op, terms.node(p)) && is_part_of(terms, i, p)
    }
}

/// Whether i is the constant of the least level or j that of the greatest.
fn is_end(terms: &TermTable, i: u32, j: u32) -> bool
    requires i { i < count terms.now }
    requires j { j < count terms.now }
    ensures { let ts = terms.now in result ≡ (is_constant_of (bottom_level ts.lattice) (node_at ts i).head || is_constant_of (top_level ts.lattice) (node_at ts j).head) }
{
    is_level_constant(terms.lattice().bottom(), &terms.node(i).head)
        || is_level_constant(terms.lattice().top(), &terms.node(j).head)
}

/// The same of a step to the order.
#[inline(always)]
fn fits_order(terms: &TermTable, rule: Rule, i: u32, j: u32, p: u32, q: u32) -> bool
    requires i { i < count terms.now }
    requires j { j < count terms.now }
    requires p { p < count terms.now }
    ensures { result ≡ fits terms.now rule (Fact.Le i j) p q }
{
    match rule {
        Rule::K7 => unused(p, q) && i == j && terms.is_level(i),
        Rule::K8 => q == 0,
        Rule::K9 => unused(p, q) && terms.is_level(i) && terms.is_level(j),
        Rule::K11 => {
            unused(p, q) && order_of(terms.lattice(), &terms.node(i).head, &terms.node(j).head)
        }
        Rule::K12 => {
            unused(p, q) && terms.is_level(i) && terms.is_level(j) && is_end(terms, i, j)
        }
        Rule::K13 => unused(p, q) && is_of(Op::Lub, terms.node(j)) && is_part_of(terms, i, j),
        Rule::K14 => unused(p, q) && is_of(Op::Lub, terms.node(i)),
        Rule::K15 => unused(p, q) && is_of(Op::Glb, terms.node(i)) && is_part_of(terms, j, i),
        Rule::K16 => unused(p, q) && is_of(Op::Glb, terms.node(j)),
        Rule::K17 => {
            q == 0
                && is_of(Op::LevelLe, terms.node(p))
                && terms.argument(p, 0) == i
                && terms.argument(p, 1) == j
        }
        _ => false,
    }
}

/// The other argument of p than i.
fn other_part(terms: &TermTable, p: u32, i: u32) -> u32
    ensures { result ≡ other terms.now p i }
{
    if terms.argument(p, 0) == i {
        terms.argument(p, 1)
    } else {
        terms.argument(p, 0)
    }
}

/// The premises of K20.
#[inline(always)]
fn premises_of_and(terms: &TermTable, i: u32, j: u32, p: u32) -> Needs
    ensures { result ≡ premises terms.now Rule.K20 (Fact.Eq i j) p 0 }
{
    if p == 0 {
        let x = terms.argument(i, 0);
        let y = terms.argument(i, 1);
        if j == 0 {
            Needs::Both(Fact::Eq(x, 0), Fact::Eq(y, 0))
        } else {
            Needs::Either(Fact::Eq(x, 1), Fact::Eq(y, 1))
        }
    } else if j == 0 {
        Needs::One(Fact::Eq(p, 0))
    } else {
        Needs::Both(Fact::Eq(p, 1), Fact::Eq(other_part(terms, p, i), 0))
    }
}

/// The premises of K21.
#[inline(always)]
fn premises_of_or(terms: &TermTable, i: u32, j: u32, p: u32) -> Needs
    ensures { result ≡ premises terms.now Rule.K21 (Fact.Eq i j) p 0 }
{
    if p == 0 {
        let x = terms.argument(i, 0);
        let y = terms.argument(i, 1);
        if j == 0 {
            Needs::Either(Fact::Eq(x, 0), Fact::Eq(y, 0))
        } else {
            Needs::Both(Fact::Eq(x, 1), Fact::Eq(y, 1))
        }
    } else if j == 0 {
        Needs::Both(Fact::Eq(p, 0), Fact::Eq(other_part(terms, p, i), 1))
    } else {
        Needs::One(Fact::Eq(p, 1))
    }
}

/// The premises of K22.
#[inline(always)]
fn premises_of_choice(terms: &TermTable, i: u32, j: u32) -> Needs
    ensures { result ≡ premises terms.now Rule.K22 (Fact.Eq i j) 0 0 }
{
    let test = terms.argument(i, 0);
    let then = terms.argument(i, 1) == j;
    if then && terms.argument(i, 2) == j {
        Needs::Either(Fact::Eq(test, 0), Fact::Eq(test, 1))
    } else {
        Needs::One(Fact::Eq(test, if then { 0 } else { 1 }))
    }
}

/// 1 less j, or 0.
fn flipped(j: u32) -> u32
    ensures { result ≡ 1 - j }
{
    if j == 0 { 1 } else { 0 }
}

/// The premises of a step to an equality that has the form of this rule: the second column of the table.
#[inline(always)]
fn premises_equal(terms: &TermTable, rule: Rule, i: u32, j: u32, p: u32, q: u32) -> Needs
    ensures { result ≡ premises terms.now rule (Fact.Eq i j) p q }
{
    match rule {
        Rule::K2 => Needs::One(Fact::Eq(j, i)),
        Rule::K3 => Needs::Both(Fact::Eq(i, p), Fact::Eq(p, j)),
        Rule::K4 => Needs::Arguments(i, j),
        Rule::K5 => Needs::One(Fact::Eq(p, 0)),
        Rule::K6 => Needs::One(Fact::Eq(terms.argument(i, 0), terms.argument(i, 1))),
        Rule::K10 => Needs::Both(Fact::Le(i, j), Fact::Le(j, i)),
        Rule::K18 => Needs::One(Fact::Le(terms.argument(i, 0), terms.argument(i, 1))),
        Rule::K19 => Needs::One(Fact::Eq(
            if p == 0 { terms.argument(i, 0) } else { p },
            flipped(j),
        )),
        Rule::K20 => premises_of_and(terms, i, j, p),
        Rule::K21 => premises_of_or(terms, i, j, p),
        Rule::K22 => premises_of_choice(terms, i, j),
        Rule::K23 => Needs::Both(
            Fact::Eq(terms.argument(i, 0), p),
            Fact::Eq(terms.argument(i, 1), q),
        ),
        _ => Needs::Nothing,
    }
}

/// The same of a step to the order.
#[inline(always)]
fn premises_order(terms: &TermTable, rule: Rule, i: u32, j: u32, p: u32, q: u32) -> Needs
    ensures { result ≡ premises terms.now rule (Fact.Le i j) p q }
{
    match rule {
        Rule::K8 => Needs::Both(Fact::Le(i, p), Fact::Le(p, j)),
        Rule::K9 => Needs::One(Fact::Eq(i, j)),
        Rule::K14 => Needs::Both(
            Fact::Le(terms.argument(i, 0), j),
            Fact::Le(terms.argument(i, 1), j),
        ),
        Rule::K16 => Needs::Both(
            Fact::Le(i, terms.argument(j, 0)),
            Fact::Le(i, terms.argument(j, 1)),
        ),
        Rule::K17 => Needs::One(Fact::Eq(p, 0)),
        _ => Needs::Nothing,
    }
}

/// Whether a fact is in the tables of equalities and of the order.
#[inline(always)]
pub fn holds(eq: &BitTable, le: &BitTable, fact: Fact) -> bool
    ensures { result ≡ holds_in eq.now le.now fact }
{
    match fact {
        Fact::Eq(i, j) => eq.contains(i, j),
        Fact::Le(i, j) => le.contains(i, j),
    }
}

/// The fact itself, if it isn't there.
#[inline(always)]
fn missing(eq: &BitTable, le: &BitTable, fact: Fact) -> Option<Fact>
    ensures { result ≡ cond (holds_in eq.now le.now fact) None (Some fact) }
{
    if holds(eq, le, fact) {
        None
    } else {
        Some(fact)
    }
}

/// The first equality of two arguments in one place that isn't there.
fn first_missing(eq: &BitTable, le: &BitTable, terms: &TermTable, i: u32, j: u32) -> Option<Fact>
    ensures { result ≡ first_apart terms.now (holds_in eq.now le.now) i j (node_at terms.now i).count }
{
    for k in 0..terms.argument_count(i) {
        let fact = Fact::Eq(terms.argument(i, k), terms.argument(j, k));
        if !holds(eq, le, fact) {
            return Some(fact);
        }
    }
    None
}

/// The first of the premises that isn't there.
#[inline(always)]
fn first_unmet(eq: &BitTable, le: &BitTable, terms: &TermTable, needs: Needs) -> Option<Fact>
    ensures { result ≡ unmet terms.now (holds_in eq.now le.now) needs }
{
    match needs {
        Needs::Nothing => None,
        Needs::One(f) => missing(eq, le, f),
        Needs::Both(f, g) => {
            if holds(eq, le, f) {
                missing(eq, le, g)
            } else {
                Some(f)
            }
        }
        Needs::Either(f, g) => {
            if holds(eq, le, f) || holds(eq, le, g) {
                None
            } else {
                Some(f)
            }
        }
        Needs::Arguments(i, j) => first_missing(eq, le, terms, i, j),
    }
}

/// Whether both numbers of a fact are terms.
#[inline(always)]
fn lies_in(n: u32, fact: Fact) -> bool
    ensures { result ≡ in_range n fact }
{
    match fact {
        Fact::Eq(i, j) => i < n && j < n,
        Fact::Le(i, j) => i < n && j < n,
    }
}

/// Whether a step has the form of this rule.
#[inline(always)]
fn has_form(terms: &TermTable, rule: Rule, step: &Step) -> bool
    requires fact { IsTrue (in_range (count terms.now) step.now.fact) }
    requires p { step.now.p < count terms.now }
    requires q { step.now.q < count terms.now }
    ensures { result ≡ fits terms.now rule step.now.fact step.now.p step.now.q }
{
    match step.fact {
        Fact::Eq(i, j) => fits_equal(terms, rule, i, j, step.p, step.q),
        Fact::Le(i, j) => fits_order(terms, rule, i, j, step.p, step.q),
    }
}

/// The premises of a step that has the form of this rule.
#[inline(always)]
fn needs_of(terms: &TermTable, rule: Rule, step: &Step) -> Needs
    ensures { result ≡ premises terms.now rule step.now.fact step.now.p step.now.q }
{
    match step.fact {
        Fact::Eq(i, j) => premises_equal(terms, rule, i, j, step.p, step.q),
        Fact::Le(i, j) => premises_order(terms, rule, i, j, step.p, step.q),
    }
}

/// A premise that isn't there is what is lacked.
#[inline(always)]
fn lack_in(needs: Option<Fact>) -> Option<Lack>
    ensures { result ≡ lack_of_need needs }
{
    match needs {
        None => None,
        Some(fact) => Some(Lack::Fact(fact)),
    }
}

/// What a step of this rule lacks, whose numbers are terms.
#[inline(always)]
fn lack_by_rule(
    eq: &BitTable,
    le: &BitTable,
    terms: &TermTable,
    rule: Rule,
    step: &Step,
) -> Option<Lack>
    requires fact { IsTrue (in_range (count terms.now) step.now.fact) }
    requires p { step.now.p < count terms.now }
    requires q { step.now.q < count terms.now }
    ensures { let ts = terms.now in
        result ≡ cond (fits ts rule step.now.fact step.now.p step.now.q)
        (lack_of_need (unmet ts (holds_in eq.now le.now) (premises ts rule step.now.fact step.now.p step.now.q))) (Some Lack.Form) }
{
    if has_form(terms, rule, step) {
        lack_in(first_unmet(eq, le, terms, needs_of(terms, rule, step)))
    } else {
        Some(Lack::Form)
    }
}

/// What a step lacks over the facts in the tables of equalities and of the order; None where its fact follows by its rule.
#[inline(always)]
#[tactic(auto, unfolding(crate::specs::Table::lack_of))]
pub fn lack(eq: &BitTable, le: &BitTable, terms: &TermTable, step: &Step) -> Option<Lack>
    ensures { result ≡ lack_of terms.now (holds_in eq.now le.now) step.now }
{
    let n = terms.count();
    if lies_in(n, step.fact) && step.p < n && step.q < n {
        match rule_numbered(step.rule) {
            None => Some(Lack::Form),
            Some(rule) => lack_by_rule(eq, le, terms, rule, step),
        }
    } else {
        Some(Lack::Number)
    }
}

/// Whether a fact about terms is a clash.
fn has_clash(terms: &TermTable, fact: Fact) -> bool
    requires { IsTrue (in_range (count terms.now) fact) }
    ensures { result ≡ is_clash terms.now fact }
{
    match fact {
        Fact::Eq(i, j) => apart(&terms.node(i).head, &terms.node(j).head),
        Fact::Le(i, j) => denied(terms.lattice(), &terms.node(i).head, &terms.node(j).head),
    }
}

/// The premises of a step; none where it has no rule.
pub fn needs(terms: &TermTable, step: &Step) -> Needs
    ensures { result ≡ needs terms.now step.now }
{
    match rule_numbered(step.rule) {
        None => Needs::Nothing,
        Some(rule) => needs_of(terms, rule, step),
    }
}

/// Whether a fact is a clash: an equality of two different constants, or an order of two level constants that the lattice
/// denies.
pub fn clashes(terms: &TermTable, fact: Fact) -> bool
    ensures { result ≡ is_clash terms.now fact }
{
    lies_in(terms.count(), fact) && has_clash(terms, fact)
}
