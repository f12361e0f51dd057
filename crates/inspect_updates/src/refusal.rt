ghost use Rattle.std.specs.Prelude.{Some};
ghost use Rattle.std.specs.Fmt.{DisplaysOnOk};
ghost use Rattle.inspect_updates.specs.UpdateTexts.{fault_text};

use cd_boc_read::BagFault;
use cd_prepare::PrepareFault;
use cd_update::UpdateFault;
use inspect_bags::Verdict;
use std::fmt;

/// Why bytes are no state, or no update that is prepared over one.
#[derive(Clone, Copy, Debug, PartialEq, Eq)]
pub enum Refusal {
    /// They are no bag.
    Bag(BagFault),
    /// The bag has no update.
    Update(UpdateFault),
    /// The bag has no state, or the update isn't prepared over the old state.
    Prepare(PrepareFault),
}

impl fmt::Display for Refusal {
    ghost use Rattle.inspect_updates.specs.UpdateTexts.{refusal_text};

    ghost output = { refusal_text };

    fn fmt<W: fmt::Write>(&self, f: &mut fmt::Formatter<W>) -> fmt::Result {
        match self {
            Refusal::Bag(fault) => Verdict::Refused(*fault).fmt(f),
            Refusal::Update(fault) => write!(f, "{fault:?}"),
            Refusal::Prepare(fault) => print_fault(fault, f),
        }
    }
}

/// Prints a fault with its fields, but for whole faces.
fn print_fault<W: fmt::Write>(fault: &PrepareFault, f: &mut fmt::Formatter<W>) -> fmt::Result
    ensures { DisplaysOnOk W.write_str_gives f.old result (Some (fault_text fault.now)) f.new }
{
    match fault {
        PrepareFault::Level { mask } => write!(f, "Level {{ mask: {} }}", mask.byte()),
        PrepareFault::OldHash { stated, real } => {
            write!(f, "OldHash {{ stated: {stated}, real: {real} }}")
        }
        PrepareFault::OldHalf { hash, .. } => write!(f, "OldHalf {{ hash: {hash} }}"),
        PrepareFault::Foreign { hash } => write!(f, "Foreign {{ hash: {hash} }}"),
        PrepareFault::NewClash { hash } => write!(f, "NewClash {{ hash: {hash} }}"),
        PrepareFault::Roots { roots } => write!(f, "Roots {{ roots: {roots} }}"),
        PrepareFault::OldDepth { stated, real } => {
            write!(f, "OldDepth {{ stated: {stated}, real: {real} }}")
        }
        PrepareFault::SplitDeep { depth } => write!(f, "SplitDeep {{ depth: {depth} }}"),
        PrepareFault::Memory => f.write_str("Memory"),
    }
}
