//! A script is played on a keeper.

use crate::end::End;
use crate::line::{Line, read_line};
use cd_base::{Hash256, Sink, write_all};
use cd_keeper::{Batch, KeepFault, Keeper};
use std::alloc::{AllocError, Global};

/// Adds a put of a record, where the batch has none of its key yet.
fn put_cell(batch: &mut Batch, key: Hash256, value: Vec<u8>) -> Result<(), End> {
    if batch.names_cell(&key) {
        return Err(End::Script);
    }
    batch.put_cell(key, value).map_err(|_| End::Memory)
}

fn drop_cell(batch: &mut Batch, key: Hash256) -> Result<(), End> {
    if batch.names_cell(&key) {
        return Err(End::Script);
    }
    batch.drop_cell(key).map_err(|_| End::Memory)
}

fn put_desc(batch: &mut Batch, key: [u8; 80], value: Vec<u8>) -> Result<(), End> {
    if batch.names_desc(&key) {
        return Err(End::Script);
    }
    batch.put_desc(key, value).map_err(|_| End::Memory)
}

fn drop_desc(batch: &mut Batch, key: [u8; 80]) -> Result<(), End> {
    if batch.names_desc(&key) {
        return Err(End::Script);
    }
    batch.drop_desc(key).map_err(|_| End::Memory)
}

/// The end of a script that a keeper's fault makes.
fn end_of(fault: KeepFault) -> End {
    match fault {
        KeepFault::Failed => End::Keeper,
        KeepFault::Memory => End::Memory,
    }
}

fn print<O: Sink>(out: &mut O, text: &str) -> Result<(), End> {
    match write_all(out, text.as_bytes()) {
        Ok(()) => Ok(()),
        Err(_) => Err(End::Output),
    }
}

/// The line of a row.
fn row_text(alloc: Global, key: &[u8], value: &[u8]) -> Result<String, AllocError> {
    format!(in alloc;
        "{} {}\n",
        hex::encode(alloc, key)?,
        hex::encode(alloc, value)?
    )
}

fn print_row<O: Sink>(alloc: Global, key: &[u8], value: &[u8], out: &mut O) -> Result<(), End> {
    match row_text(alloc, key, value) {
        Ok(text) => print(out, &text),
        Err(_) => Err(End::Memory),
    }
}

fn list_cells<K: Keeper, O: Sink>(alloc: Global, keeper: &mut K, out: &mut O) -> Result<(), End> {
    let mut after = None;
    for _ in 0..u64::MAX {
        match keeper.next_cell(after) {
            Ok(Some(row)) => {
                let key = row.0;
                print_row(alloc, &key.0, &row.1, out)?;
                after = Some(key);
            }
            Ok(None) => return Ok(()),
            Err(fault) => return Err(end_of(fault)),
        }
    }
    Ok(())
}

fn list_descs<K: Keeper, O: Sink>(alloc: Global, keeper: &mut K, out: &mut O) -> Result<(), End> {
    let mut after = None;
    for _ in 0..u64::MAX {
        match keeper.next_desc(after) {
            Ok(Some(row)) => {
                let key = row.0;
                print_row(alloc, &key, &row.1, out)?;
                after = Some(key);
            }
            Ok(None) => return Ok(()),
            Err(fault) => return Err(end_of(fault)),
        }
    }
    Ok(())
}

/// Makes the batch, and says so.
fn apply<K: Keeper, O: Sink>(keeper: &mut K, batch: &Batch, out: &mut O) -> Result<(), End> {
    match keeper.apply(batch) {
        Ok(()) => print(out, "applied\n"),
        Err(fault) => Err(end_of(fault)),
    }
}

/// Does what a line asks for.
fn play_line<K: Keeper, O: Sink>(
    alloc: Global,
    line: Line,
    batch: &mut Batch,
    keeper: &mut K,
    out: &mut O,
) -> Result<(), End> {
    match line {
        Line::PutCell(key, value) => put_cell(batch, key, value),
        Line::DropCell(key) => drop_cell(batch, key),
        Line::PutDesc(key, value) => put_desc(batch, key, value),
        Line::DropDesc(key) => drop_desc(batch, key),
        Line::Apply => {
            apply(keeper, batch, out)?;
            *batch = Batch::new(alloc);
            Ok(())
        }
        Line::List => {
            list_cells(alloc, keeper, out)?;
            list_descs(alloc, keeper, out)
        }
        Line::Unknown => Err(End::Script),
    }
}

/// Plays the lines of a script on a keeper: prints `applied` behind each batch, and the rows that a line asks for.
pub fn play<K: Keeper, O: Sink>(
    alloc: Global,
    lines: &[&[u8]],
    keeper: &mut K,
    out: &mut O,
) -> Result<(), End> {
    let mut batch = Batch::new(alloc);
    for text in lines {
        match read_line(alloc, text) {
            Ok(line) => play_line(alloc, line, &mut batch, keeper, out)?,
            Err(_) => return Err(End::Memory),
        }
    }
    Ok(())
}
