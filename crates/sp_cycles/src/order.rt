//! The order that new values make among functions, and the first quoted reference that closes a cycle of it.

ghost use Rattle.std.specs.Prelude.{◌≡◌, ◌++◌, ◌∷◌, IfOk, OnOk, IsTrue, [], if◌then◌else◌, true, ℕ, ◌==◌};
ghost use Rattle.std.specs.List.{All};
ghost use Rattle.sp_text.specs.Violations.{breaks as spec_breaks, first};
ghost use Rattle.sp_text.specs.declared.fault.Rule.TheVariants as rule;
ghost use Rattle.sp_cycles.specs.Order as spec_order;
ghost use Rattle.sp_cycles.specs.Reaches as spec_reaches;
ghost use Rattle.sp_cycles.specs.Reaches.{IsReach};

use sp_text::{Memory, Rule, Sequence, Span, Violation, breaks, earlier};
use std::alloc::Global;

/// A quoted reference at a place, of the function that is read new, in a change of another one.
#[derive(Clone, Copy, Debug, PartialEq, Eq)]
pub struct Quoted {
    pub place: Span,
    pub read: u16,
    pub changed: u16,
}

/// The functions to which chains lead from one.
#[derive(Drop)]
struct Reach {
    from: u16,
    led: Sequence<u16>,
}

fn push_new(all: &mut Vec<u16>, g: u16) -> Result<(), Memory>
    ensures { OnOk result (all.new.items ≡ spec_reaches.with_new all.old.items g) }
{
    if !all.contains(&g) {
        all.push(g)?;
    }
    Ok(())
}

// Adds the function of a change that reads function h new.
fn push_reader(all: &mut Vec<u16>, quoted: &Quoted, h: u16) -> Result<(), Memory>
    ensures { OnOk result (all.new.items ≡ (if quoted.now.read == h then spec_reaches.with_new all.old.items quoted.now.changed else all.old.items)) }
{
    if quoted.read == h {
        push_new(all, quoted.changed)
    } else {
        Ok(())
    }
}

// Adds the functions that read function h new.
fn push_readers(all: &mut Vec<u16>, quotes: &[Quoted], h: u16) -> Result<(), Memory>
    ensures { OnOk result (all.new.items ≡ spec_reaches.with_readers quotes.now h all.old.items) }
{
    for quoted in quotes {
        push_reader(all, quoted, h)?;
    }
    Ok(())
}

// The functions to which chains lead from one. There are no more than changed ones, and itself.
fn led_from(alloc: Global, quotes: &[Quoted], from: u16) -> Result<Vec<u16>, Memory>
    ensures { IfOk result (λ all. (g : ℕ) → spec_reaches.is_among all.items g ≡ spec_order.is_led quotes.now from g) }
{
    let mut all = vec![in alloc; from]?;
    for done in 0..quotes.len() + 1 {
        if done == all.len() {
            return Ok(all);
        }
        let next = all[done];
        push_readers(&mut all, quotes, next)?;
    }
    Ok(all)
}

fn make_reach(alloc: Global, quotes: &[Quoted], from: u16) -> Result<Reach, Memory>
    ensures { IfOk result (λ r. (r.from ≡ from) × IsReach quotes.now r) }
{
    let led = led_from(alloc, quotes, from)?;
    Ok(Reach {
        from,
        led: Sequence::new(led),
    })
}

fn is_known(reaches: &[Reach], h: u16) -> bool
    ensures { result ≡ spec_reaches.is_known reaches.now h }
{
    for reach in reaches {
        if reach.from == h {
            return true;
        }
    }
    false
}

fn is_told(reaches: &[Reach], h: u16, g: u16) -> bool
    ensures { result ≡ spec_reaches.is_told reaches.now h g }
{
    for reach in reaches {
        if reach.from == h && reach.led.items().contains(&g) {
            return true;
        }
    }
    false
}

// Makes known to which functions chains lead from one.
fn make_known(
    alloc: Global,
    quotes: &[Quoted],
    h: u16,
    reaches: &mut Vec<Reach>,
) -> Result<(), Memory>
    requires { All (IsReach quotes.now) reaches.old.items }
    ensures right { OnOk result (All (IsReach quotes.now) reaches.new.items) }
    ensures known { OnOk result (spec_reaches.is_known reaches.new.items h ≡ true) }
{
    if !is_known(reaches, h) {
        reaches.push(make_reach(alloc, quotes, h)?)?;
    }
    Ok(())
}

fn cycle_rule(reaches: &[Reach], quoted: &Quoted) -> Option<Violation>
    ensures { result ≡ first (if spec_reaches.is_told reaches.now quoted.now.changed quoted.now.read then spec_breaks quoted.now.place rule.NewValueCycle else []) }
{
    if is_told(reaches, quoted.changed, quoted.read) {
        breaks(quoted.place, Rule::NewValueCycle)
    } else {
        None
    }
}

/// The first of these quoted references that closes a cycle.
///
/// # Errors
/// `Memory` where the chains can't be followed.
pub fn first_cycle(alloc: Global, quotes: &[Quoted]) -> Result<Option<Violation>, Memory>
    ensures { IfOk result (λ r. r ≡ first (spec_order.cycle_rules quotes.now quotes.now)) }
{
    let mut reaches = Vec::new(alloc);
    let mut found = None;
    for quoted in quotes {
        make_known(alloc, quotes, quoted.changed, &mut reaches)?;
        found = earlier(found, cycle_rule(&reaches, quoted));
    }
    Ok(found)
}
