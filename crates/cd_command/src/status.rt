ghost use Rattle.std.specs.Prelude.{◌≡◌, codes};
ghost use Rattle.cd_command.specs.StatusText.{code_of, line_of};
ghost use Rattle.cd_command.specs.StatusText as spec;

use cd_boc_read::BagFault;
use cd_cell::Mask;
use cd_event::Refusal;
use cd_feed::FeedFault;
use cd_restart::ScanFault;
use cd_words::WordFault;
use thiserror::Error;

/// Why the input was refused.
#[derive(Clone, Copy, Debug, PartialEq, Eq, Error)]
pub enum InputFault {
    /// More bytes came than may come.
    #[error("the input is longer than {limit} bytes")]
    Long {
        /// How many bytes may come.
        limit: u64,
    },
    /// The input isn't a bag of cells, by this first fault.
    #[error("the input is not a bag of cells: {0}")]
    Bag(BagFault),
    /// The input isn't a feed, by this first fault.
    #[error("the input is not a feed: {0}")]
    Feed(FeedFault),
}

/// Why the work was refused, though the input was good. About 1.4 kilobytes, for the two faces of a clash.
#[derive(Clone, Copy, Debug, Error)]
pub enum TopRefusal {
    /// A state is one tree, and the bag has another number of roots.
    #[error("a bag of {roots} roots is no state")]
    Roots { roots: u32 },
    /// The root of a state is of level 0, and this one has another mask.
    #[error("a root of mask {} is no state's", mask.byte())]
    Level { mask: Mask },
    /// A state is written as a bag of at most so many distinct cells, and this one has more.
    #[error("a state of more than {limit} cells is not exported")]
    TooMany { limit: u64 },
    /// The store refused the event that was asked for.
    #[error("the store refuses it: {0:?}")]
    Core(Refusal),
}

/// How a call ended.
#[derive(Clone, Copy, Debug)]
pub enum Status {
    /// The input was read to its end, the work is done, and the output is written whole.
    Ok,
    /// The words were refused. Nothing was read.
    Usage(WordFault),
    /// The input was refused.
    BadInput(InputFault),
    /// What the keeper holds is no store. Nothing was changed.
    Damaged(ScanFault),
    /// The source failed.
    ReadFault,
    /// The sink failed. A part of the output may be written.
    WriteFault,
    /// The keeper failed.
    KeeperFault,
    /// A client failed, and is gone.
    ClientFault,
    /// The work was refused. Nothing was stored.
    Refused(TopRefusal),
    /// Memory ran out.
    Memory,
}

impl Status {
    /// The exit status of the program.
    pub fn code(&self) -> u8
        ensures { result ≡ code_of self.now }
    {
        match self {
            Status::Ok => 0,
            Status::Usage(_) => 1,
            Status::BadInput(_) => 2,
            Status::Damaged(_) => 3,
            Status::ReadFault => 4,
            Status::WriteFault => 5,
            Status::KeeperFault => 6,
            Status::ClientFault => 7,
            Status::Refused(_) => 8,
            Status::Memory => 9,
        }
    }

    /// What the program prints to standard error: a line with its end, and nothing where all went well.
    pub fn line(&self) -> &'static str
        ensures { result.now ≡ line_of self.now }
    {
        match self {
            Status::Ok => "",
            Status::Usage(_) => "celldb: usage\n",
            Status::BadInput(_) => "celldb: bad input\n",
            Status::Damaged(_) => "celldb: damaged store\n",
            Status::ReadFault => "celldb: read fault\n",
            Status::WriteFault => "celldb: write fault\n",
            Status::KeeperFault => "celldb: keeper fault\n",
            Status::ClientFault => "celldb: client fault\n",
            Status::Refused(TopRefusal::Roots { .. }) => "celldb: refused Roots\n",
            Status::Refused(TopRefusal::Level { .. }) => "celldb: refused Level\n",
            Status::Refused(TopRefusal::TooMany { .. }) => "celldb: refused TooMany\n",
            Status::Refused(TopRefusal::Core(refusal)) => refused_line(refusal),
            Status::Memory => "celldb: no memory\n",
        }
    }
}

/// The line for what the store refused: the refusal's name.
fn refused_line(refusal: &Refusal) -> &'static str
    ensures { result.now ≡ spec.refused_line refusal.now }
{
    match refusal {
        Refusal::Known => "celldb: refused Known\n",
        Refusal::Lineage(_) => "celldb: refused Lineage\n",
        Refusal::ZeroHash { .. } => "celldb: refused ZeroHash\n",
        Refusal::Clash { .. } => "celldb: refused Clash\n",
        Refusal::CountFull { .. } => "celldb: refused CountFull\n",
        Refusal::UnknownBlock => "celldb: refused UnknownBlock\n",
        Refusal::PinsFull => "celldb: refused PinsFull\n",
        Refusal::NoPin => "celldb: refused NoPin\n",
        Refusal::WrongPin => "celldb: refused WrongPin\n",
        Refusal::NotMaster => "celldb: refused NotMaster\n",
        Refusal::TopMissing { .. } => "celldb: refused TopMissing\n",
        Refusal::Keeper => "celldb: refused Keeper\n",
    }
}
