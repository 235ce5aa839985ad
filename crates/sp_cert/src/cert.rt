use sp_rules::{Lack, Step};
use sp_text::Sequence;
use sqlite_items::Boxed;

/// A certificate: a tree of case splits, whose leaves end in clashes.
#[derive(Debug, Drop)]
pub enum Cert {
    /// An atom by its index, the branch where it is TRUE, and the one where it is FALSE.
    Split(u32, Boxed<Cert>, Boxed<Cert>),
    /// Steps to a clash.
    Leaf(Sequence<Step>),
    /// Steps, and the tree below them, in which they are known. Format 2 alone has these.
    Steps(Sequence<Step>, Boxed<Cert>),
}

/// The certificates of a file, one for each formula in order, and the format in which they are written, 1 or 2.
#[derive(Debug, Drop)]
pub struct CertFile {
    pub format: u8,
    pub certs: Vec<Cert>,
}

/// The first fault of a certificate, with the number of its step or node, both counted from 1 over the whole tree in prefix
/// order. A count stops at 2^64 - 1.
#[derive(Clone, Copy, Debug, PartialEq, Eq)]
pub enum CertFault {
    /// A step lacks this.
    BadStep(u64, Lack),
    /// A SPLIT names no atom's index.
    NotAnAtom(u64),
    /// More than 20 SPLITs stand around a node.
    TooDeep(u64),
    /// A leaf whose last step is no clash, or that has none.
    NoClash(u64),
}
