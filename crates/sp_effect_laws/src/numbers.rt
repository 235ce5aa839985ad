//! The numbers in effects.

ghost use Rattle.std.specs.Prelude.{map};
ghost use Rattle.sp_effects.specs.EffectText.{effect_text, effect_texts_of};
ghost use Rattle.sp_effect_laws.specs.Numbers.{AreEffectNumbers, AreEffectNumbersIn};

use sp_tree::EffectTree;
use sp_typed::tell_numbers;

#[cycle(tell_effects)]
#[tactic(auto, using(sp_effects::proofs::Lengths::effect_some))]
fn tell_effect(w: &EffectTree)
    ensures { AreEffectNumbers (effect_text w.now) }
{
    match w {
        EffectTree::Plain(e) => tell_numbers(e),
        EffectTree::If(_, c, a, b) => {
            tell_numbers(c);
            tell_effect_numbers(a.as_slice());
            tell_effect_numbers(b.as_slice());
        }
        EffectTree::Forall(_, _, body) => tell_effect_numbers(body.as_slice()),
    }
}

/// The numbers of effects are in range, as those of every text are.
#[cycle(tell_effects)]
#[tactic(auto, using(sp_effects::proofs::Lengths::effect_some))]
pub fn tell_effect_numbers(ws: &[EffectTree])
    ensures { AreEffectNumbersIn (effect_texts_of (map effect_text ws.now)) }
{
    if let [first, rest @ ..] = ws {
        tell_effect(first);
        tell_effect_numbers(rest);
    }
}
