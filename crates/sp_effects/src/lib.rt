//! Effects of texts, judged and translated.
#![tactic(auto)]

mod body;
mod change;
mod form;
mod judging;
mod making;
mod places;
mod quoting;
mod room;
mod translating;

pub use body::judge_body;
pub use form::Target;
pub use making::{Effects, Exprs};
pub use room::has_effect_room;
pub use translating::translate_effects;
