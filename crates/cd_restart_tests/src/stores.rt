//! Small stores over the weak hash, written record by record.
ghost use Rattle.std.specs.Prelude.{◌≡◌, [], IfOk, OnOk};

use cd_base::{Hash256, Memory};
use cd_block::{BlockId, ShardId};
use cd_cell::{Hash32, Sha, WeakSum};
use cd_keeper::{Keeper, MemoryKeeper};
use cd_restart::{Opened, ScanFault, scan};
use std::alloc::Global;

/// The hash of the empty cell.
pub(crate) const EMPTY: Hash256 = Hash256([
    0x96, 0xa2, 0x96, 0xd2, 0x24, 0xf2, 0x85, 0xc6, 0x7b, 0xee, 0x93, 0xc3, 0x0f, 0x8a, 0x30, 0x91,
    0x57, 0xf0, 0xda, 0xa3, 0x5d, 0xc5, 0xb8, 0x7e, 0x41, 0x0b, 0x78, 0x63, 0x0a, 0x09, 0xcf, 0xc7,
]);

/// What is put into a store. Weak hashes are named by their last bytes.
#[derive(Clone, Copy)]
pub(crate) enum Put {
    /// A record: its hash, its count, descriptors and data, and its children with their depths.
    Cell(u8, u8, &'static [u8], &'static [(u8, u8)]),
    /// Any bytes in place of a record.
    Record(u8, &'static [u8]),
    /// The record of the empty cell, under its SHA-256.
    EmptyCell(&'static [u8]),
    /// A state without parents: the root and the seqno in its name, and the root and the depth that are described.
    State((u8, u32), (u8, u16)),
    /// A zero state that is leaving: its root, and the root's depth.
    Leaving(u8, u16),
    /// The zero state with this root of a cell without children, in the workchain 0.
    Basechain(u8),
    /// The zero state of the empty cell, under its SHA-256.
    EmptyState,
    /// Any bytes in place of the description of the zero state with this root.
    Desc(u8, &'static [u8]),
}

/// A key and the bytes that are put under it.
#[derive(Drop)]
enum Row {
    Cell(Hash256, Vec<u8>),
    Desc([u8; 80], Vec<u8>),
}

/// How much a store holds.
#[derive(Clone, Copy, PartialEq)]
pub(crate) struct Numbers {
    pub(crate) blocks: u64,
    pub(crate) cells: u64,
    pub(crate) counts: u64,
}

/// The weak hash of one byte.
pub(crate) fn weak(byte: u8) -> Hash256 {
    let mut hash = Hash256([0; 32]);
    hash.0[31] = byte;
    hash
}

/// The key of the masterchain's zero state with this root, or of the block with another seqno.
pub(crate) fn key_of(root: Hash256, seqno: u32) -> [u8; 80] {
    key_in(-1, root, seqno)
}

/// The same in another workchain.
fn key_in(workchain: i32, root: Hash256, seqno: u32) -> [u8; 80] {
    let id = BlockId {
        shard_id: ShardId {
            workchain,
            shard: 1 << 63,
        },
        seqno,
        root,
        file: Hash256([0; 32]),
    };
    id.to_key()
}

/// A record of version 2: its count, descriptors and data, and one child of mask 0 in each place.
fn record(alloc: Global, count: u8, face: &[u8], kids: &[(u8, u8)]) -> Result<Vec<u8>, Memory> {
    let mut text = [2, 0, 0, 0, 0, 0, 0, 0, count].to_vec(alloc)?;
    text.extend_from_slice(face)?;
    for kid in kids {
        push_kid(&mut text, kid)?;
    }
    Ok(text)
}

fn push_kid(text: &mut Vec<u8>, kid: &(u8, u8)) -> Result<(), Memory> {
    let hash = weak(kid.0);
    text.extend_from_slice(&[0])?;
    text.extend_from_slice(&hash.0)?;
    text.extend_from_slice(&[0, kid.1])?;
    Ok(())
}

/// The description of a zero state: version, whether it is leaving, no parents, root, depth, no tops.
fn zero_state(alloc: Global, leaving: u8, root: Hash256, depth: u16) -> Result<Vec<u8>, Memory> {
    let mut text = [1, leaving, 0].to_vec(alloc)?;
    text.extend_from_slice(&root.0)?;
    text.extend_from_slice(&depth.to_be_bytes())?;
    text.extend_from_slice(&[0])?;
    Ok(text)
}

/// The key and the bytes of what is put.
fn row_of(alloc: Global, put: &Put) -> Result<Row, Memory> {
    match *put {
        Put::Cell(hash, count, face, kids) => record_row(alloc, weak(hash), count, face, kids),
        Put::Record(hash, bytes) => raw_cell(alloc, weak(hash), bytes),
        Put::EmptyCell(bytes) => raw_cell(alloc, EMPTY, bytes),
        Put::Desc(root, bytes) => raw_desc(alloc, weak(root), bytes),
        Put::State(name, root) => state_row(alloc, weak(name.0), name.1, weak(root.0), root.1),
        Put::Leaving(root, depth) => zero_row(alloc, -1, 1, weak(root), depth),
        Put::Basechain(root) => zero_row(alloc, 0, 0, weak(root), 0),
        Put::EmptyState => zero_row(alloc, -1, 0, EMPTY, 0),
    }
}

fn record_row(
    alloc: Global,
    hash: Hash256,
    count: u8,
    face: &[u8],
    kids: &[(u8, u8)],
) -> Result<Row, Memory> {
    let bytes = record(alloc, count, face, kids)?;
    Ok(Row::Cell(hash, bytes))
}

fn raw_cell(alloc: Global, hash: Hash256, bytes: &[u8]) -> Result<Row, Memory> {
    let bytes = bytes.to_vec(alloc)?;
    Ok(Row::Cell(hash, bytes))
}

fn raw_desc(alloc: Global, root: Hash256, bytes: &[u8]) -> Result<Row, Memory> {
    let bytes = bytes.to_vec(alloc)?;
    Ok(Row::Desc(key_of(root, 0), bytes))
}

fn state_row(
    alloc: Global,
    name: Hash256,
    seqno: u32,
    root: Hash256,
    depth: u16,
) -> Result<Row, Memory> {
    let bytes = zero_state(alloc, 0, root, depth)?;
    Ok(Row::Desc(key_of(name, seqno), bytes))
}

fn zero_row(
    alloc: Global,
    workchain: i32,
    leaving: u8,
    root: Hash256,
    depth: u16,
) -> Result<Row, Memory> {
    let bytes = zero_state(alloc, leaving, root, depth)?;
    Ok(Row::Desc(key_in(workchain, root, 0), bytes))
}

/// Puts a row into a store.
fn put_row(keeper: &mut MemoryKeeper, row: Row) -> Result<(), Memory>
    requires { keeper.old.trail ≡ [] }
    ensures { keeper.new.trail ≡ [] }
{
    match row {
        Row::Cell(hash, bytes) => keeper.put_raw_cell(hash, bytes),
        Row::Desc(key, bytes) => keeper.put_raw_desc(key, bytes),
    }
}

/// Puts all of it into a store, one after another.
fn put_all(alloc: Global, keeper: &mut MemoryKeeper, puts: &[Put]) -> Result<(), Memory>
    requires { keeper.old.trail ≡ [] }
    ensures { OnOk result (keeper.new.trail ≡ []) }
{
    for put in puts {
        let row = row_of(alloc, put)?;
        put_row(keeper, row)?;
    }
    Ok(())
}

/// A store in which the first lie below the later ones. These of its keeper's calls fail.
pub(crate) fn store(
    alloc: Global,
    fails: &[u64],
    first: &[Put],
    later: &[Put],
    last: &[Put],
) -> Result<MemoryKeeper, Memory> {
    let mut keeper = MemoryKeeper::new(alloc, fails.to_vec(alloc)?);
    put_all(alloc, &mut keeper, first)?;
    put_all(alloc, &mut keeper, later)?;
    put_all(alloc, &mut keeper, last)?;
    Ok(keeper)
}

/// The refusal of a store.
pub(crate) fn refusal(alloc: Global, keeper: &mut MemoryKeeper) -> Option<ScanFault> {
    match scan::<MemoryKeeper, WeakSum>(alloc, keeper) {
        Ok(_) => None,
        Err(fault) => Some(fault),
    }
}

/// How much a store holds.
pub(crate) fn held_by<K: Keeper>(alloc: Global, keeper: &mut K) -> Option<Numbers> {
    match scan::<K, WeakSum>(alloc, keeper) {
        Ok(opened) => Some(numbers_in(&opened)),
        Err(_) => None,
    }
}

/// The same over SHA-256.
pub(crate) fn held_under_sha(alloc: Global, keeper: &mut MemoryKeeper) -> Option<Numbers> {
    match scan::<MemoryKeeper, Sha>(alloc, keeper) {
        Ok(opened) => Some(numbers_in(&opened)),
        Err(_) => None,
    }
}

fn numbers_in(opened: &Opened) -> Numbers {
    Numbers {
        blocks: opened.blocks.as_slice().len() as u64,
        cells: opened.cells,
        counts: opened.counts,
    }
}
