//! What deciding answers in place of a certificate.

/// A truth value for each atom of a formula.
#[derive(Debug, Drop)]
pub struct Branch {
    pub values: Vec<bool>,
}

/// Why a formula isn't decided.
#[derive(Clone, Copy, Debug, PartialEq, Eq)]
pub enum DecideFault {
    /// No clash follows from the given facts alone, and they leave so many atoms undetermined, more than twenty.
    TooManyAtoms(u32),
    Memory,
}
