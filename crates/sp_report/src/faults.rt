//! What a certificate breaks, printed.

ghost use Rattle.std.specs.Prelude.{◌≡◌, ◌++◌, OnOk, OnErr, codes, decimal};
ghost use Rattle.sp_report.specs.Faults.{fault_text, lack_text};

use crate::counts::push_count;
use sp_cert::CertFault;
use sp_rules::{Fact, Lack};
use sp_text::{Memory, push_text};
use std::alloc::Global;

/// Appends a word and two numbers, as a certificate spells a fact.
fn push_pair(alloc: Global, out: &mut Vec<u8>, word: &[u8], i: u32, j: u32) -> Result<(), Memory>
    ensures { OnOk result (out.new.items ≡ out.old.items ++ (word.now ++ (decimal i ++ (codes " " ++ decimal j)))) }
{
    push_text(alloc, out, word)?;
    push_count(alloc, out, u64::from(i))?;
    push_text(alloc, out, b" ")?;
    push_count(alloc, out, u64::from(j))
}

fn push_lack(alloc: Global, out: &mut Vec<u8>, lack: Lack) -> Result<(), Memory>
    ensures { OnOk result (out.new.items ≡ out.old.items ++ lack_text lack) }
{
    match lack {
        Lack::Number => push_text(alloc, out, b"number"),
        Lack::Form => push_text(alloc, out, b"form"),
        Lack::Fact(Fact::Eq(i, j)) => push_pair(alloc, out, b"EQ ", i, j),
        Lack::Fact(Fact::Le(i, j)) => push_pair(alloc, out, b"LE ", i, j),
    }
}

/// Appends `node k` and what is wrong there.
fn push_node(alloc: Global, out: &mut Vec<u8>, k: u64, what: &[u8]) -> Result<(), Memory>
    ensures { OnOk result (out.new.items ≡ out.old.items ++ (codes "node " ++ (decimal k ++ what.now))) }
{
    push_text(alloc, out, b"node ")?;
    push_count(alloc, out, k)?;
    push_text(alloc, out, what)
}

fn push_fault(alloc: Global, out: &mut Vec<u8>, fault: CertFault) -> Result<(), Memory>
    ensures { OnOk result (out.new.items ≡ out.old.items ++ fault_text fault) }
{
    match fault {
        CertFault::BadStep(step, lack) => {
            push_text(alloc, out, b"step ")?;
            push_count(alloc, out, step)?;
            push_text(alloc, out, b" lacks ")?;
            push_lack(alloc, out, lack)
        }
        CertFault::NotAnAtom(node) => push_node(alloc, out, node, b" NotAnAtom"),
        CertFault::TooDeep(node) => push_node(alloc, out, node, b" TooDeep"),
        CertFault::NoClash(node) => push_node(alloc, out, node, b" NoClash"),
    }
}

/// Appends what a certificate breaks: `step s lacks ..` or `node k ..`.
///
/// # Errors
/// `Memory` where it can't be made; `out` is then as before.
pub fn print_cert_fault(alloc: Global, fault: &CertFault, out: &mut Vec<u8>) -> Result<(), Memory>
    ensures ok { OnOk result (out.new.items ≡ out.old.items ++ fault_text fault.now) }
    ensures err { OnErr result (out.new.items ≡ out.old.items) }
{
    let mut made = Vec::new(alloc);
    push_fault(alloc, &mut made, *fault)?;
    push_text(alloc, out, &made)
}
