//! Says of bags of cells, Merkle updates, feeds and stores what they have or why they are refused.
#![tactic(auto)]

mod answer;
mod call;
mod end;
mod limits;
mod step;
mod store;

use crate::call::{finish, run, words_behind_name};
use crate::end::End;
use crate::step::Step;
use crate::store::{answer_store, read_file};
use cd_base::{Sink, StdSink, StdSource};
use cd_cell::Sha;
use std::process::ExitCode;
use std::rt::Env;
use std::{env, fs, io};

/// All words, the program's name among them.
fn all_words<R: Env + AllocGlobal>(rt: &R) -> io::Result<Vec<String>> {
    let mut words = Vec::new(rt.alloc());
    for word in env::args(rt)? {
        words.push(word)?;
    }
    Ok(words)
}

/// How a run ends where the words can't be had: memory ran out, or one isn't UTF-8, and so no word of the program.
fn end_of_words(error: io::ErrorKind) -> End {
    match error {
        io::ErrorKind::OutOfMemory => End::Memory,
        _ => End::Usage,
    }
}

/// The bytes of a file.
fn bytes_at(rt: &HostRuntime, path: &str) -> Result<Option<Vec<u8>>, End> {
    match fs::File::open(rt, path) {
        Ok(file) => Ok(Some(read_file(rt.alloc(), &mut StdSource::new(file))?)),
        Err(error) => match error.kind() {
            io::ErrorKind::NotFound => Ok(None),
            io::ErrorKind::OutOfMemory => Err(End::Memory),
            _ => Err(End::ReadFault),
        },
    }
}

/// The bytes of the log beside a database file; none where there is no log.
fn log_at(rt: &HostRuntime, path: &str) -> Result<Vec<u8>, End> {
    let Ok(path) = format!(in rt.alloc(); "{path}-wal") else {
        return Err(End::Memory);
    };
    match bytes_at(rt, &path)? {
        Some(log) => Ok(log),
        None => Ok(Vec::new(rt.alloc())),
    }
}

/// Says what the database file at a path holds.
fn say_store<O: Sink>(rt: &HostRuntime, path: &str, out: &mut O) -> Result<End, End> {
    let Some(file) = bytes_at(rt, path)? else {
        return Err(End::ReadFault);
    };
    let log = log_at(rt, path)?;
    Ok(answer_store::<_, Sha>(rt.alloc(), &file, &log, out))
}

fn main(rt: HostRuntime) -> ExitCode {
    let mut input = StdSource::new(rt.reader());
    let mut out = StdSink::new(io::writer(&rt));
    let mut err = StdSink::new(rt.stderr());
    let end = match all_words(&rt) {
        Ok(words) => {
            match run::<_, _, Sha>(rt.alloc(), words_behind_name(&words), &mut input, &mut out) {
                Step::Ended(end) => end,
                Step::Store(path) => match say_store(&rt, &path, &mut out) {
                    Ok(end) | Err(end) => end,
                },
            }
        }
        Err(error) => end_of_words(error.kind()),
    };
    finish(end, &mut err)
}
