//! Divides a text into its tokens, or says what is wrong with it and where.
#![tactic(auto)]

mod laws;
mod piece;
mod scan;
mod spelling;
mod tokens;

pub use laws::reading_is_unique;
pub use spelling::KEYWORDS;
pub use tokens::lex;
