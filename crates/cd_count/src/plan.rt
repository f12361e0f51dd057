ghost use Rattle.std.specs.Prelude.{◌≡◌, ℕ, ◌+◌, ◌*◌, ◌≤◌, ◌++◌, List, [], map, length, IfSome, IfOk, IfErr, OnOk};
ghost use Rattle.cd_base.specs.declared.hash.Hash256.{Hash256};
ghost use Rattle.cd_base.specs.Numbers.{IsBytes};
ghost use Rattle.cd_cell.specs.Tree.{Tree};
ghost use Rattle.cd_cell.specs.Export.{AreClashFree};
ghost use Rattle.cd_keeper.specs.Keeping.{KeepsHeld};
ghost use Rattle.cd_world.specs.World.{World, Block};
ghost use Rattle.cd_count.specs.Reading.{HasCountCause};
ghost use Rattle.cd_count.specs.PlanWorlds.{IsReadable, IsDropped};
ghost use Rattle.cd_count.specs.SoundContents.{AreSoundContents};
ghost use Rattle.std.specs.Prelude.{◌∷◌};
ghost use Rattle.cd_cell.specs.Tree.{rep_of};
ghost use Rattle.cd_cell.specs.Infos.{rep_of_info};
ghost use Rattle.cd_record.specs.declared.limits.TheConstants.{GREATEST_COUNT};
ghost use Rattle.cd_world.specs.Told as told;
ghost use Rattle.cd_count.specs.Bringing.{unheld, IsBrought};
ghost use Rattle.cd_count.specs.Clashes.{RefusesClash, RefusesFull, IsOutside};
ghost use Rattle.cd_world.specs.Told.{ToldWorld, shown};
ghost use Rattle.std.specs.List.{IsDistinct, AllByRecursion};
ghost use Rattle.std.specs.Option.{option_to_list};
ghost use Rattle.std.specs.Map.{keys_of};
ghost use Rattle.std.specs.Ordering.{nat_cmp};
ghost use Rattle.std.specs.Cmp.Lexicographic.{slice_cmp};
ghost use Rattle.cd_block.specs.Block.{key_of};
ghost use Rattle.cd_block.specs.Description.{IsDescrFit};
ghost use Rattle.cd_keeper.specs.NoKeyTwice.{same_key};
ghost use Rattle.cd_keeper.specs.Shown.{entries_of, hash_bytes, desc_bytes};
ghost use Rattle.cd_nodes.specs.Plans as plans;
ghost use Rattle.cd_record.specs.RecordText.{record_text};
ghost use Rattle.cd_count.specs.Changes.{states, rep_bytes, AreTogether, AreCounted, AreAdded, AreDeadCells, IsCellBatch};
ghost use Rattle.cd_count.specs.PlanRows.{row_of, rows_of, IsRowFit, AreRowsFit, AreOfBytes, descr_puts};

use crate::adding::{add_rows, check_limit, clash_of, list_cells};
use crate::count_fault::CountFault;
use crate::rows::{Row, Rows, take_kids, take_references};
use cd_base::{Hash256, Memory};
use cd_block::{BlockId, Descr, encode_descr};
use cd_cell::{Hash32, Prepared};
use cd_keeper::{Batch, Keeper};
use cd_record::encode_cell;
use std::alloc::Global;
use std::collections::BTreeMap;
use std::marker::Model;

/// Records to put, and the hashes of those to drop.
type Puts = Vec<(Hash256, Vec<u8>)>;

/// How the counts of stored cells change: for each hash that was looked at, in the order of the hashes, the count that
/// is stored, the one to be, and the face.
#[derive(Drop)]
pub struct Plan<'a> {
    rows: Rows<'a>,
}

impl<'a> Model for Plan<'a> {
    ghost use Rattle.cd_count.specs.Changes as changes;
    ghost use Rattle.cd_count.specs.PlanRows.{rows_of, AreRowsFit};

    ghost Value = { changes.Rows };

    ghost view = { λ p. rows_of p.rows.entries };

    ghost invariant = { λ p. AreRowsFit (rows_of p.rows.entries) };
}

impl<'a> Plan<'a> {
    /// The plan that changes nothing. Takes no memory.
    pub fn empty(alloc: Global) -> Plan<'a>
        ensures empty { result ≡ [] }
        ensures added { (H : List ℕ → Hash256) (world : World) → AreClashFree H (states world.blocks)
            → AreAdded H world world [] [] result }
    {
        Plan {
            rows: BTreeMap::new(alloc),
        }
    }

    /// The batch that makes the plan's changes, with these changes of descriptions: it puts a record, of version 2, of
    /// each cell that is new or whose count changes, and drops each that has no reference left.
    pub fn into_batch(
        self,
        alloc: Global,
        put_descs: Vec<Descr>,
        drop_descs: Vec<BlockId>,
    ) -> Result<Batch, Memory>
        requires fit { AllByRecursion IsDescrFit put_descs.items }
        requires once { IsDistinct same_key (map key_of drop_descs.items ++ keys_of (descr_puts put_descs.items)) }
        ensures once { plans.HasNoKeyTwice (slice_cmp nat_cmp) self.entry }
        ensures cells { IfOk result (λ batch. IsCellBatch self.entry batch) }
        ensures bytes { IfOk result (λ batch. AreOfBytes batch.put_cells) }
        ensures puts { IfOk result (λ batch. batch.put_descs ≡ descr_puts put_descs.items) }
        ensures drops { IfOk result (λ batch. batch.drop_descs ≡ map key_of drop_descs.items) }
    {
        let mut puts = Vec::new(alloc);
        let mut drops = Vec::new(alloc);
        change_cells(alloc, &self.rows, &mut puts, &mut drops)?;
        let put = texts_of(alloc, put_descs.as_slice())?;
        let drop = keys_of(alloc, drop_descs.as_slice())?;
        Ok(Batch::from_parts(puts, drops, put, drop))
    }
}

/// Adds what all rows put and drop.
fn change_cells(
    alloc: Global,
    rows: &Rows,
    puts: &mut Puts,
    drops: &mut Vec<Hash256>,
) -> Result<(), Memory>
    requires { AreRowsFit (rows_of rows.now.entries) }
    ensures puts { OnOk result (entries_of hash_bytes puts.new.items
        ≡ entries_of hash_bytes puts.old.items ++ plans.puts record_text (rows_of rows.now.entries)) }
    ensures drops { OnOk result (map hash_bytes drops.new.items
        ≡ map hash_bytes drops.old.items ++ plans.drops record_text (rows_of rows.now.entries)) }
    ensures bytes { OnOk result (AreOfBytes (entries_of hash_bytes puts.old.items)
        → AreOfBytes (entries_of hash_bytes puts.new.items)) }
    ensures once { plans.HasNoKeyTwice (slice_cmp nat_cmp) (rows_of rows.now.entries) }
{
    for (hash, row) in rows.iter() {
        change_cell(alloc, hash, row, puts, drops)?;
    }
    Ok(())
}

/// Adds what a row puts or drops: nothing where its count is the one that is stored.
fn change_cell(
    alloc: Global,
    hash: &Hash256,
    row: &Row,
    puts: &mut Puts,
    drops: &mut Vec<Hash256>,
) -> Result<(), Memory>
    requires { IsRowFit (row_of row.now) }
    ensures puts { OnOk result (entries_of hash_bytes puts.new.items ≡ entries_of hash_bytes puts.old.items
        ++ option_to_list (plans.put_entry record_text (hash.now.0, row_of row.now))) }
    ensures drops { OnOk result (map hash_bytes drops.new.items ≡ map hash_bytes drops.old.items
        ++ option_to_list (plans.drop_entry record_text (hash.now.0, row_of row.now))) }
    ensures bytes { OnOk result (AreOfBytes (entries_of hash_bytes puts.old.items)
        → AreOfBytes (entries_of hash_bytes puts.new.items)) }
{
    if row.count == 0 {
        if row.stored.is_some() {
            drops.push(*hash)?;
        }
        return Ok(());
    }
    if row.stored == Some(row.count) {
        return Ok(());
    }
    let text = encode_cell(alloc, row.count, row.face.get())?;
    tell_bytes(text.as_slice());
    puts.push((*hash, text))?;
    Ok(())
}

/// Tells that bytes are bytes, and does nothing.
fn tell_bytes(bytes: &[u8])
    ensures { IsBytes bytes.now }
{
    let _ = bytes.len();
}

/// The keys and texts of some descriptions.
fn texts_of(alloc: Global, descs: &[Descr]) -> Result<Vec<([u8; 80], Vec<u8>)>, Memory>
    requires { AllByRecursion IsDescrFit descs.now }
    ensures { IfOk result (λ puts. entries_of desc_bytes puts.items ≡ descr_puts descs.now) }
{
    let mut puts = Vec::with_capacity(alloc, descs.len())?;
    for descr in descs {
        puts.push((descr.id.to_key(), encode_descr(alloc, descr)?))?;
    }
    Ok(puts)
}

fn keys_of(alloc: Global, ids: &[BlockId]) -> Result<Vec<[u8; 80]>, Memory>
    ensures { IfOk result (λ keys. map desc_bytes keys.items ≡ map key_of ids.now) }
{
    let mut keys = Vec::with_capacity(alloc, ids.len())?;
    for id in ids {
        keys.push(id.to_key())?;
    }
    Ok(keys)
}

/// The counts once a block with the value's tree comes. Each listed cell is compared with what is stored; a cell that
/// is stored already adds nothing to its children, and a new one adds one to each of its child places. Reads at most
/// `5n + 1` records for n listed cells.
pub fn plan_add<'a, K: Keeper, H: Hash32>(
    alloc: Global,
    keeper: &mut K,
    prepared: &'a Prepared<H>,
    limit: u64,
) -> Result<Plan<'a>, CountFault>
    requires { limit ≤ GREATEST_COUNT }
    ensures added { IfOk result (λ plan. IfSome (K.held keeper.old) (λ contents.
        (old : ToldWorld) (grown : World) (block : Block) (listed : List Tree)
        → AreSoundContents H.digest_of old contents
        → IsBrought H.digest_of (shown old) grown block prepared.now.cells listed
        → rep_of H.digest_of block.state ≡ rep_of_info prepared.now.root
        → AreAdded H.digest_of (shown old) grown (block ∷ []) (unheld H.digest_of (shown old) listed) plan)) }
    ensures clash { IfSome (K.held keeper.old) (λ contents. (old : ToldWorld)
        → AreSoundContents H.digest_of old contents
        → RefusesClash (told.first_clash H.digest_of old prepared.now.cells) result) }
    ensures full { IfSome (K.held keeper.old) (λ contents. (old grown : ToldWorld) (block : Block) (listed : List Tree)
        → AreSoundContents H.digest_of old contents
        → IsBrought H.digest_of (shown old) (shown grown) block prepared.now.cells listed
        → rep_of H.digest_of block.state ≡ rep_of_info prepared.now.root
        → RefusesFull (told.first_overflow H.digest_of limit old grown) result) }
    ensures keeps { KeepsHeld K.held K.trail K.batches keeper.old keeper.new }
    ensures reads { K.reads keeper.new ≤ K.reads keeper.old + (5 * length prepared.now.cells + 1) }
    ensures cause { HasCountCause (K.faults keeper.old) (K.faults keeper.new) result }
{
    let cells = prepared.cells();
    let mut rows = BTreeMap::new(alloc);
    if let Some(cell) = list_cells(alloc, &mut rows, keeper, cells)? {
        return Err(clash_of(&rows, cell));
    }
    let root = prepared.root().rep();
    add_rows(alloc, &mut rows, keeper, cells, &root)?;
    // Tells that the hashes are in order.
    let _ = rows.len();
    check_limit(&rows, limit)?;
    Ok(Plan { rows })
}

/// The plan's counts once blocks with these roots go, one for each time that a root stands here. A cell whose count
/// falls to nothing takes one reference from each of its child places, and goes. The plan is empty, or one that
/// `plan_add` gave. Whatever it answers, it reads at most `4k + r` records for r roots and k cells that go.
pub fn plan_drop<'a, K: Keeper>(
    alloc: Global,
    keeper: &mut K,
    plan: Plan<'a>,
    roots: &[Hash256],
) -> Result<Plan<'a>, CountFault>
    ensures dropped { IfOk result (λ after. IfSome (K.held keeper.old) (λ contents.
        (H : List ℕ → Hash256) (old : ToldWorld) (grown left : World) (come gone : List Block) (news : List Tree)
        → AreSoundContents H old contents → AreAdded H (shown old) grown come news plan.entry
        → AreTogether H left.blocks gone grown.blocks → map (rep_bytes H) (states gone) ≡ map hash_bytes roots.now
        → (dead : List Tree) × AreCounted H (shown old) grown left come gone news dead after)) }
    ensures reads { IfSome (K.held keeper.old) (λ contents.
        (H : List ℕ → Hash256) (old : ToldWorld) (grown left : World) (come gone : List Block) (news dead : List Tree)
        → AreSoundContents H old contents → AreAdded H (shown old) grown come news plan.entry
        → AreTogether H left.blocks gone grown.blocks → map (rep_bytes H) (states gone) ≡ map hash_bytes roots.now
        → AreDeadCells H grown.blocks gone dead
        → K.reads keeper.new ≤ K.reads keeper.old + (4 * length dead + length roots.now)) }
    ensures keeps { KeepsHeld K.held K.trail K.batches keeper.old keeper.new }
    ensures cause { HasCountCause (K.faults keeper.old) (K.faults keeper.new) result }
    ensures outside { IfErr result IsOutside }
{
    let mut rows = plan.rows;
    let _dead = drop_roots(alloc, &mut rows, keeper, roots)?;
    // Tells that the hashes are in order.
    let _ = rows.len();
    Ok(Plan { rows })
}

/// Takes away the references of roots, and those of each cell that has none left.
fn drop_roots<'a, K: Keeper>(
    alloc: Global,
    rows: &mut Rows<'a>,
    keeper: &mut K,
    roots: &[Hash256],
) -> Result<Vec<Hash256>, CountFault>
    ensures dropped { IfOk result (λ dead. IfSome (K.held keeper.old) (λ contents.
        (H : List ℕ → Hash256) (old grown left : World) (come gone : List Block) (news : List Tree)
        → IsReadable H old contents → AreAdded H old grown come news (rows_of rows.old.entries)
        → AreTogether H left.blocks gone grown.blocks → map (rep_bytes H) (states gone) ≡ map hash_bytes roots.now
        → IsDropped H old grown come gone news rows.new dead.items)) }
    ensures keeps { KeepsHeld K.held K.trail K.batches keeper.old keeper.new }
    ensures reads { IfSome (K.held keeper.old) (λ contents.
        (H : List ℕ → Hash256) (old grown left : World) (come gone : List Block) (news dead : List Tree)
        → IsReadable H old contents → AreAdded H old grown come news (rows_of rows.old.entries)
        → AreTogether H left.blocks gone grown.blocks → map (rep_bytes H) (states gone) ≡ map hash_bytes roots.now
        → AreDeadCells H grown.blocks gone dead
        → K.reads keeper.new ≤ K.reads keeper.old + (4 * length dead + length roots.now)) }
    ensures fit { OnOk result (AreRowsFit (rows_of rows.old.entries) → AreRowsFit (rows_of rows.new.entries)) }
    ensures cause { HasCountCause (K.faults keeper.old) (K.faults keeper.new) result }
    ensures outside { IfErr result IsOutside }
{
    let mut dead = Vec::new(alloc);
    take_references(alloc, rows, keeper, &mut dead, roots)?;
    let mut next = 0;
    while next < dead.len() {
        let hash = dead[next];
        take_kids(alloc, rows, keeper, &mut dead, &hash)?;
        next += 1;
    }
    Ok(dead)
}
