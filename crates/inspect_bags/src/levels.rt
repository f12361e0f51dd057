ghost use Rattle.std.specs.Prelude.{◌≡◌, Some, map, IfOk, IfErr};
ghost use Rattle.std.specs.Fmt.{DisplaysOnOk};
ghost use Rattle.cd_cell.specs.Bags.{bag_trees};
ghost use Rattle.cd_cell.specs.Tree.{info_of};
ghost use Rattle.inspect_bags.specs.Verdicts.{IsTrueOf, AreRootsOf};
ghost use Rattle.inspect_bags.specs.Texts.{hashes_text, depths_text};

use crate::verdict::Verdict;
use cd_boc_read::{BagFault, read_bag};
use cd_cell::{Bag, ChildInfo, Hash32};
use std::alloc::{AllocError, Global};
use std::fmt;

/// What each root of a bag shows.
fn root_infos<H: Hash32>(alloc: Global, bag: &Bag<H>) -> Result<Vec<ChildInfo>, AllocError>
    ensures { IfOk result (λ infos. infos.items ≡ map (info_of H.digest_of) (bag_trees bag.now)) }
{
    let mut infos = Vec::with_capacity(alloc, bag.roots().len())?;
    for root in bag.roots() {
        infos.push(bag.info(*root))?;
    }
    Ok(infos)
}

/// What each root of the bag that the bytes are shows, at all levels; where they are none, what is said of them.
/// All of that unless memory runs out.
pub fn levels_of<H: Hash32>(
    alloc: Global,
    bytes: &[u8],
) -> Result<Result<Vec<ChildInfo>, Verdict>, AllocError>
    ensures roots { IfOk result (λ answer. IfOk answer (λ infos. AreRootsOf H.digest_of bytes.now infos.items)) }
    ensures said { IfOk result (λ answer. IfErr answer (IsTrueOf H.digest_of bytes.now)) }
{
    match read_bag::<H>(alloc, bytes) {
        Ok(bag) => Ok(Ok(root_infos(alloc, &bag)?)),
        Err(BagFault::Memory) => Err(AllocError),
        Err(fault) => Ok(Err(Verdict::Refused(fault))),
    }
}

/// What a root shows, as it is printed.
#[derive(Clone, Copy)]
pub struct Levels(pub ChildInfo);

/// Prints the hashes at all levels.
#[tactic(auto, unfolding(crate::specs::Texts::hashes_text))]
fn print_hashes<W: fmt::Write>(info: &ChildInfo, f: &mut fmt::Formatter<W>) -> fmt::Result
    ensures { DisplaysOnOk W.write_str_gives f.old result (Some (hashes_text info.now)) f.new }
{
    let first = info.hash_at(0);
    let second = info.hash_at(1);
    let third = info.hash_at(2);
    let last = info.hash_at(3);
    write!(f, " {first} {second} {third} {last}")
}

/// Prints the depths at all levels.
#[tactic(auto, unfolding(crate::specs::Texts::depths_text))]
fn print_depths<W: fmt::Write>(info: &ChildInfo, f: &mut fmt::Formatter<W>) -> fmt::Result
    ensures { DisplaysOnOk W.write_str_gives f.old result (Some (depths_text info.now)) f.new }
{
    let first = info.depth_at(0);
    let second = info.depth_at(1);
    let third = info.depth_at(2);
    let last = info.depth_at(3);
    write!(f, " {first} {second} {third} {last}")
}

impl fmt::Display for Levels {
    ghost use Rattle.std.specs.Prelude.{Some};
    ghost use Rattle.inspect_bags.specs.Texts.{levels_text};

    ghost output = { λ shown. Some (levels_text shown.0) };

    fn fmt<W: fmt::Write>(&self, f: &mut fmt::Formatter<W>) -> fmt::Result {
        let mask = self.0.mask.byte();
        write!(f, "mask {mask} hashes")?;
        print_hashes(&self.0, f)?;
        f.write_str(" depths")?;
        print_depths(&self.0, f)
    }
}
