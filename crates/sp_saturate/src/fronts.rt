//! Steps that end in a clash.

ghost use Rattle.std.specs.Prelude.{◌≡◌, ◌↔◌, IfOk, IsTrue};
ghost use Rattle.sp_saturate.specs.Accepted.{EndInClash};
ghost use Rattle.sp_saturate.specs.Front.{AreFront, turned};

use crate::trail::Trail;
use sp_rules::{Fact, Step, TermTable, clashes};
use sp_text::Memory;
use std::alloc::Global;

/// The step by which a given equality that is a clash the other way round gives that clash.
fn turned(terms: &TermTable, fact: Fact) -> Option<Step>
    ensures { result ≡ turned terms.now fact }
{
    match fact {
        Fact::Eq(i, j) => {
            if clashes(terms, Fact::Eq(j, i)) {
                Some(Step {
                    fact: Fact::Eq(j, i),
                    rule: 2,
                    p: 0,
                    q: 0,
                })
            } else {
                None
            }
        }
        Fact::Le(_, _) => None,
    }
}

/// The steps of a trail that aren't given, up to the first clash. A given clash is turned round.
pub fn front(alloc: Global, trail: &Trail) -> Result<Vec<Step>, Memory>
    ensures { IfOk result (λ steps. AreFront trail.now steps.items) }
{
    trail.tell_found();
    let mut steps = Vec::new(alloc);
    for k in 0..trail.count() {
        let step = trail.step(k);
        if step.rule == 0 {
            if let Some(clash) = turned(trail.terms(), step.fact) {
                steps.push(clash)?;
                return Ok(steps);
            }
            continue;
        }
        steps.push(step)?;
        if clashes(trail.terms(), step.fact) {
            return Ok(steps);
        }
    }
    Ok(steps)
}

/// Whether the last step is a clash.
pub fn ends_in_clash(terms: &TermTable, steps: &[Step]) -> bool
    ensures { IsTrue result ↔ EndInClash terms.now steps.now }
{
    let count = steps.len();
    count > 0 && clashes(terms, steps[count - 1].fact)
}
