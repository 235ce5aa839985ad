//! A grammar as a value, what it means, and how it is read with one token ahead; no code.
#![tactic(auto)]
