//! What an interface and its modules break, and which specification they stand for; no code.
#![tactic(auto)]
