//! A program for tests: plays a script of batches on a keeper, in memory or over a database file.
#![tactic(auto)]

mod end;
mod line;
mod play;

use crate::end::End;
use crate::play::play;
use cd_base::{Sink, StdSink, StdSource, read_all};
use cd_keeper::{KeepFault, SteadyKeeper};
use cd_keeper_sql::SqlKeeper;
use inspect_lines::lines_of;
use std::process::ExitCode;
use std::{env, io};

/// The most bytes of a script.
const SCRIPT_LIMIT: u64 = 268_435_456;

/// The path of a database file, if a word behind the program's name gives one.
fn path_word(rt: &HostRuntime) -> Result<Option<String>, End> {
    let words = match env::args(rt) {
        Ok(words) => words,
        Err(_) => return Err(End::Script),
    };
    let mut path = None;
    for (place, word) in words.enumerate() {
        if place == 1 {
            path = Some(word);
        }
    }
    Ok(path)
}

fn script(rt: &HostRuntime) -> Result<Vec<u8>, End> {
    match read_all(rt.alloc(), &mut StdSource::new(rt.reader()), SCRIPT_LIMIT) {
        Ok(script) => Ok(script),
        Err(_) => Err(End::Input),
    }
}

/// Plays the script on a keeper over the file.
fn play_on_file<O: Sink>(
    rt: &HostRuntime,
    path: &str,
    lines: &[&[u8]],
    out: &mut O,
) -> Result<(), End> {
    match SqlKeeper::open(rt, path) {
        Ok(mut keeper) => play(rt.alloc(), lines, &mut keeper, out),
        Err(KeepFault::Failed) => Err(End::Keeper),
        Err(KeepFault::Memory) => Err(End::Memory),
    }
}

fn play_all(rt: &HostRuntime) -> Result<(), End> {
    let mut out = StdSink::new(io::writer(rt));
    let path = path_word(rt)?;
    let script = script(rt)?;
    let Ok(lines) = lines_of(rt.alloc(), &script) else {
        return Err(End::Memory);
    };
    match path {
        Some(path) => play_on_file(rt, &path, &lines, &mut out),
        None => play(
            rt.alloc(),
            &lines,
            &mut SteadyKeeper::new(rt.alloc()),
            &mut out,
        ),
    }
}

fn main(rt: HostRuntime) -> ExitCode {
    match play_all(&rt) {
        Ok(()) => ExitCode::SUCCESS,
        Err(end) => ExitCode::from(end.code()),
    }
}
