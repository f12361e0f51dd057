//! The lines of a script.

use cd_base::Hash256;
use std::alloc::{AllocError, Global};

/// What a line asks of a keeper.
#[derive(Drop)]
pub enum Line {
    /// A record that the next batch puts.
    PutCell(Hash256, Vec<u8>),
    /// A record that the next batch drops.
    DropCell(Hash256),
    /// A description that the next batch puts.
    PutDesc([u8; 80], Vec<u8>),
    /// A description that the next batch drops.
    DropDesc([u8; 80]),
    /// The batch is to be made.
    Apply,
    /// All that the keeper holds is to be printed.
    List,
    /// None of these.
    Unknown,
}

/// The bytes of a word in hexadecimal; `None` where it is none.
fn bytes_of(alloc: Global, word: &[u8]) -> Result<Option<Vec<u8>>, AllocError> {
    inspect_lines::bytes_of_line(alloc, word)
}

/// The hash that bytes are.
fn hash_of(bytes: &[u8]) -> Option<Hash256> {
    if bytes.len() != 32 {
        return None;
    }
    let mut hash = [0; 32];
    hash.copy_from_slice(bytes);
    Some(Hash256(hash))
}

/// The key of a description that bytes are.
fn desc_key_of(bytes: &[u8]) -> Option<[u8; 80]> {
    if bytes.len() != 80 {
        return None;
    }
    let mut key = [0; 80];
    key.copy_from_slice(bytes);
    Some(key)
}

/// A put, by the length of its key.
fn put_of(alloc: Global, key: &[u8], value: &[u8]) -> Result<Line, AllocError> {
    let Some(key) = bytes_of(alloc, key)? else {
        return Ok(Line::Unknown);
    };
    let Some(value) = bytes_of(alloc, value)? else {
        return Ok(Line::Unknown);
    };
    if let Some(hash) = hash_of(&key) {
        return Ok(Line::PutCell(hash, value));
    }
    match desc_key_of(&key) {
        Some(key) => Ok(Line::PutDesc(key, value)),
        None => Ok(Line::Unknown),
    }
}

/// A drop, by the length of its key.
fn drop_of(alloc: Global, key: &[u8]) -> Result<Line, AllocError> {
    let Some(key) = bytes_of(alloc, key)? else {
        return Ok(Line::Unknown);
    };
    if let Some(hash) = hash_of(&key) {
        return Ok(Line::DropCell(hash));
    }
    match desc_key_of(&key) {
        Some(key) => Ok(Line::DropDesc(key)),
        None => Ok(Line::Unknown),
    }
}

/// What a line asks for: `put KEY VALUE`, `drop KEY`, `apply` or `list`, with keys and values in hexadecimal.
pub(crate) fn read_line(alloc: Global, line: &[u8]) -> Result<Line, AllocError> {
    let mut words = Vec::new(alloc);
    for word in line.split(|byte| *byte == b' ') {
        words.push(word)?;
    }
    match words.as_slice() {
        [name, key, value] if *name == b"put".as_slice() => put_of(alloc, key, value),
        [name, key] if *name == b"drop".as_slice() => drop_of(alloc, key),
        [name] if *name == b"apply".as_slice() => Ok(Line::Apply),
        [name] if *name == b"list".as_slice() => Ok(Line::List),
        _ => Ok(Line::Unknown),
    }
}
