ghost use Rattle.std.specs.Prelude.{map, string_bytes};
ghost use Rattle.cd_fan.specs.Fans.{HaveGotBytes};
ghost use Rattle.cd_top.specs.Call.{RunCallEnds};

use crate::ended::Ended;
use crate::work::take_run;
use cd_base::{Sink, Source};
use cd_cell::Hash32;
use cd_command::Finished;
use cd_fan::{Client, SliceClient};
use cd_feed_call::run;
use cd_keeper::Keeper;
use cd_run::Holdup;
use std::alloc::Global;
use std::sync::Wait;
use std::thread::Threads;

/// Does the command `run`, or nothing where the words are not taken.
fn run_by<
    S: Source,
    O: Sink,
    K: Keeper + Send,
    H: Hash32 + Send + Sync,
    P: Holdup,
    R: Threads + Wait + Sync,
>(
    rt: &R,
    alloc: Global,
    words: &[String],
    input: &mut S,
    out: &mut O,
    keeper: K,
    clients: &mut Vec<Client>,
    holdup: &P,
) -> Finished<K, H>
    requires fresh { HaveGotBytes (λ c. got c) 0 clients.old.items }
    ensures { RunCallEnds H.digest_of S.Source O.Sink K.Keeper (λ c. got c) (λ c. steady c)
        (map string_bytes words.now) input.old input.new out.old out.new keeper result.keeper
        clients.old.items clients.new.items result.journal.items result.status }
{
    match take_run(alloc, words) {
        Ok(()) => run(rt, alloc, input, out, keeper, clients, holdup),
        Err(status) => Finished::of(alloc, status, keeper),
    }
}

/// One call of the program for the command `run`: reads a feed to the end of the input, does its tasks phase after phase, in
/// each phase its workers side by side, each on a thread of its own where one can be made, and writes how each ended. The
/// words are those behind the program's name, and the keeper is the one that `--db` names, or else an empty one. A serve
/// takes those clients out of the list that fail. The hold-up is told of each merge before and after it. Every other command
/// is a usage fault, and nothing is asked of the objects.
///
/// It may wait. Want of memory alone is free; what each other status says stands in `RunCallEnds`.
pub fn celldb_run<
    S: Source,
    O: Sink,
    K: Keeper + Send,
    H: Hash32 + Send + Sync,
    P: Holdup,
    R: Threads + Wait + Sync,
>(
    rt: &R,
    alloc: Global,
    words: &[String],
    input: &mut S,
    out: &mut O,
    keeper: K,
    mut clients: Vec<Client>,
    holdup: &P,
) -> Ended<K, H>
    requires fresh { HaveGotBytes (λ c. got c) 0 clients.items }
    ensures { RunCallEnds H.digest_of S.Source O.Sink K.Keeper (λ c. got c) (λ c. steady c)
        (map string_bytes words.now) input.old input.new out.old out.new keeper result.keeper
        clients.items result.clients.items result.journal.items result.status }
{
    let Finished {
        status,
        keeper,
        journal,
    } = run_by(rt, alloc, words, input, out, keeper, &mut clients, holdup);
    Ended {
        status,
        keeper,
        journal,
        clients,
    }
}
