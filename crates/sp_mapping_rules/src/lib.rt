//! What the text of a mapping breaks, and which mapping it stands for; no code.
#![tactic(auto)]
