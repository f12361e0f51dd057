//! The program: it makes the objects of the outside, hands them to the top call, and ends with its status.
#![tactic(auto)]

mod call;

use crate::call::{
    Places, end, places_of, run, status_of_client, status_of_keeper, status_without_words,
    words_behind_name,
};
use cd_base::{Sink, Source, StdSink, StdSource};
use cd_cell::Sha;
use cd_fan::{Client, FileClient};
use cd_keeper::{Keeper, SteadyKeeper};
use cd_keeper_sql::SqlKeeper;
use cd_top::Status;
use std::process::ExitCode;
use std::rt::Env;
use std::sync::Wait;
use std::thread::Threads;
use std::{env, io};

/// All words, the program's name among them.
fn all_words<R: Env + AllocGlobal>(rt: &R) -> io::Result<Vec<String>> {
    let mut words = Vec::new(rt.alloc());
    for word in env::args(rt)? {
        words.push(word)?;
    }
    Ok(words)
}

/// Makes a client over each of these files, and runs, on threads where the words ask for it. A file that is there is emptied.
fn run_to<S: Source, O: Sink, E: Sink, K: Keeper + Send, R: Threads + Wait + Sync>(
    rt: &HostRuntime,
    threads: &R,
    words: &[String],
    to: &[String],
    input: &mut S,
    out: &mut O,
    err: &mut E,
    keeper: K,
) -> ExitCode {
    let alloc = rt.alloc();
    let mut clients: Vec<Client> = Vec::new(alloc);
    for path in to {
        let client = match FileClient::create(rt, path.as_str()) {
            Ok(client) => client,
            Err(fault) => return end(status_of_client(fault), err),
        };
        let client = match Box::new(alloc, client) {
            Ok(client) => client,
            Err(_) => return end(Status::Memory, err),
        };
        if clients.push(client).is_err() {
            return end(Status::Memory, err);
        }
    }
    run::<_, _, _, _, Sha, _>(threads, alloc, words, input, out, err, keeper, clients)
}

/// Runs over the database file of a path.
fn run_over_file<S: Source, O: Sink, E: Sink, R: Threads + Wait + Sync>(
    rt: &HostRuntime,
    threads: &R,
    words: &[String],
    places: &Places,
    path: &str,
    input: &mut S,
    out: &mut O,
    err: &mut E,
) -> ExitCode {
    match SqlKeeper::open(rt, path) {
        Ok(keeper) => run_to(rt, threads, words, &places.to, input, out, err, keeper),
        Err(fault) => end(status_of_keeper(fault), err),
    }
}

/// Runs over the places that the words name.
fn run_over<S: Source, O: Sink, E: Sink, R: Threads + Wait + Sync>(
    rt: &HostRuntime,
    threads: &R,
    words: &[String],
    places: &Places,
    input: &mut S,
    out: &mut O,
    err: &mut E,
) -> ExitCode {
    match &places.db {
        Some(path) => run_over_file(rt, threads, words, places, path.as_str(), input, out, err),
        None => {
            let keeper = SteadyKeeper::new(rt.alloc());
            run_to(rt, threads, words, &places.to, input, out, err, keeper)
        }
    }
}

fn main(rt: HostRuntime) -> ExitCode {
    let alloc = rt.alloc();
    let mut input = StdSource::new(rt.reader());
    let mut out = StdSink::new(io::writer(&rt));
    let mut err = StdSink::new(rt.stderr());
    let words = match all_words(&rt) {
        Ok(words) => words,
        Err(error) => return end(status_without_words(error.kind()), &mut err),
    };
    let behind = words_behind_name(&words);
    let places = match places_of(alloc, behind) {
        Ok(places) => places,
        Err(_) => return end(Status::Memory, &mut err),
    };
    run_over(&rt, &rt, behind, &places, &mut input, &mut out, &mut err)
}
