//! The bytes of a feed with the weak hash, which is the sum of what is hashed: a cell of the 8 bits `n` without references
//! has the hash `n + 2`.
use std::alloc::Global;
use std::test::Fail;

/// A hash of 31 zero bytes and this one.
fn weak(byte: u8) -> [u8; 32] {
    let mut hash = [0; 32];
    hash[31] = byte;
    hash
}

/// Puts the key of a block of the masterchain: workchain, shard, seqno, root and file.
fn put_key(text: &mut Vec<u8>, seqno: u8, root: u8, file: u8) -> Result<(), Fail> {
    text.extend_from_slice(&[
        0xff, 0xff, 0xff, 0xff, 0x80, 0, 0, 0, 0, 0, 0, 0, 0, 0, 0, seqno,
    ])?;
    text.extend_from_slice(&weak(root))?;
    text.extend_from_slice(&weak(file))?;
    Ok(())
}

/// Puts the task that stores the cell of the 8 bits 01 as a zero state.
fn put_zero(text: &mut Vec<u8>) -> Result<(), Fail> {
    text.push(1)?;
    put_key(text, 0, 3, 0)?;
    text.extend_from_slice(&[0, 0, 0, 0, 14])?;
    text.extend_from_slice(&[0xb5, 0xee, 0x9c, 0x72, 1, 1, 1, 1, 0, 3, 0, 0, 2, 1])?;
    Ok(())
}

/// Puts the task of a block over that state, whose own is a cell of these 8 bits over one of the 8 bits 20.
fn put_block(text: &mut Vec<u8>, bits: u8) -> Result<(), Fail> {
    let root = bits.wrapping_add(0x25);
    text.push(2)?;
    put_key(text, 1, root, bits)?;
    put_key(text, 0, 3, 0)?;
    // No tops, and a bag of 11 bytes and four cells.
    text.extend_from_slice(&[0, 0, 0, 0, 94])?;
    text.extend_from_slice(&[0xb5, 0xee, 0x9c, 0x72, 1, 1, 4, 1, 0, 83, 0])?;
    // The update: both hashes, both depths, and the places of both halves.
    text.extend_from_slice(&[0x0a, 0x8a, 4])?;
    text.extend_from_slice(&weak(3))?;
    text.extend_from_slice(&weak(root))?;
    text.extend_from_slice(&[0, 0, 0, 1, 1, 2])?;
    text.extend_from_slice(&[0, 2, 1, 1, 2, bits, 3, 0, 2, 0x20])?;
    Ok(())
}

/// A zero state, and then two workers with a block over it each.
pub(crate) fn two_blocks(alloc: Global) -> Result<Vec<u8>, Fail> {
    let mut text = Vec::new(alloc);
    text.extend_from_slice(b"cdf1")?;
    // Two phases; one worker with one task.
    text.extend_from_slice(&[0, 2, 0, 1, 0, 1])?;
    put_zero(&mut text)?;
    // Two workers with one task each.
    text.extend_from_slice(&[0, 2, 0, 1])?;
    put_block(&mut text, 0x10)?;
    text.extend_from_slice(&[0, 1])?;
    put_block(&mut text, 0x11)?;
    Ok(text)
}

/// A zero state, and then a worker that serves it and one with a block over it.
pub(crate) fn serve_and_block(alloc: Global) -> Result<Vec<u8>, Fail> {
    let mut text = Vec::new(alloc);
    text.extend_from_slice(b"cdf1")?;
    text.extend_from_slice(&[0, 2, 0, 1, 0, 1])?;
    put_zero(&mut text)?;
    // A serve of pieces of one byte.
    text.extend_from_slice(&[0, 2, 0, 1, 6])?;
    put_key(&mut text, 0, 3, 0)?;
    text.extend_from_slice(&[0, 0, 0, 1, 0, 1])?;
    put_block(&mut text, 0x10)?;
    Ok(text)
}

/// The report of two blocks, in every order of turns.
pub(crate) const TWO_BLOCKS_LINES: &str = "\
0.0.0 zero ok 0000000000000000000000000000000000000000000000000000000000000003 cells 1
1.0.0 block ok 0000000000000000000000000000000000000000000000000000000000000035 new 2
1.1.0 block ok 0000000000000000000000000000000000000000000000000000000000000036 new 2
blocks 3
cells 4
counts 5
tasks 3 ok 0 refused
";
