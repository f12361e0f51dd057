ghost use Rattle.std.specs.Prelude.{IfOk, IfErr};
ghost use Rattle.inspect_bags.specs.Verdicts.{IsTrueOf, IsExport};

use crate::export::export;
use cd_boc_read::{BagFault, read_bag};
use cd_cell::Hash32;
use std::alloc::{AllocError, Global};
use std::fmt;

/// What is said of bytes.
#[derive(Clone, Copy, Debug, PartialEq, Eq)]
pub enum Verdict {
    /// They are a bag of so many roots and cells.
    Good { roots: usize, cells: usize },
    /// They are none, for this fault.
    Refused(BagFault),
}

/// What is said of bytes, unless memory runs out.
pub fn verdict_of<H: Hash32>(alloc: Global, bytes: &[u8]) -> Result<Verdict, AllocError>
    ensures { IfOk result (IsTrueOf H.digest_of bytes.now) }
{
    match read_bag::<H>(alloc, bytes) {
        Ok(bag) => Ok(Verdict::Good {
            roots: bag.roots().len(),
            cells: bag.cells().len(),
        }),
        Err(BagFault::Memory) => Err(AllocError),
        Err(fault) => Ok(Verdict::Refused(fault)),
    }
}

/// The export text of the one root of a bag; where the bytes are no bag, or one of several roots, what is said of
/// them. All of that unless memory runs out.
pub fn export_of<H: Hash32>(
    alloc: Global,
    bytes: &[u8],
) -> Result<Result<Vec<u8>, Verdict>, AllocError>
    ensures text { IfOk result (λ answer. IfOk answer (λ text. IsExport H.digest_of bytes.now text.items)) }
    ensures said { IfOk result (λ answer. IfErr answer (IsTrueOf H.digest_of bytes.now)) }
{
    match read_bag::<H>(alloc, bytes) {
        Ok(bag) => match bag.roots() {
            [root] => Ok(Ok(export(alloc, &bag, *root)?)),
            roots => Ok(Err(Verdict::Good {
                roots: roots.len(),
                cells: bag.cells().len(),
            })),
        },
        Err(BagFault::Memory) => Err(AllocError),
        Err(fault) => Ok(Err(Verdict::Refused(fault))),
    }
}

impl fmt::Display for Verdict {
    ghost use Rattle.inspect_bags.specs.Texts.{verdict_text};

    ghost output = { verdict_text };

    fn fmt<W: fmt::Write>(&self, f: &mut fmt::Formatter<W>) -> fmt::Result {
        match self {
            Verdict::Good { roots, cells } => write!(f, "ok roots {roots} cells {cells}"),
            Verdict::Refused(BagFault::Clash { hash }) => { write!(f, "Clash {{ hash: {hash} }}") }
            Verdict::Refused(fault) => write!(f, "{fault:?}"),
        }
    }
}
