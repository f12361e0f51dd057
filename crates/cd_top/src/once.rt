ghost use Rattle.std.specs.Prelude.{map, string_bytes};
ghost use Rattle.cd_fan.specs.Fans.{HaveGotBytes};
ghost use Rattle.cd_top.specs.Call.{Ends, WorkEnds};
ghost use Rattle.cd_top.specs.Within.{IsWithin};

use crate::ended::Ended;
use crate::feed::print_feed;
use crate::work::{Work, work_of};
use cd_base::{Sink, Source};
use cd_cell::Hash32;
use cd_command::Finished;
use cd_export::export;
use cd_fan::{Client, SliceClient};
use cd_feed_call::replay;
use cd_keeper::Keeper;
use cd_upkeep::{check, migrate_store};
use cd_zero::zero;
use std::alloc::Global;

/// One call of the program: `words` are the words behind its name, and the keeper is the one that `--db` names, or else an
/// empty one. `zero` reads a bag of cells to the end of the input, stores the state as a zero state in one batch, and
/// writes the block's name and the number of its cells. `replay` reads a feed to the end of the input, does its tasks one
/// after another, and writes how each ended. `check` reads the whole store and writes how much it holds. `migrate` rewrites
/// old records. `export` sends the bag of a block's state to the clients; it and the serve of a `replay` take those out of
/// the list that fail, and every other command leaves the clients alone. `gen` writes the text of the feed of a number, and
/// asks nothing of the keeper. `run`, which `celldb_run` does, is a usage fault, and
/// nothing is asked of the objects.
///
/// Want of memory alone is free; what each other status says stands in `Ends`.
pub fn celldb_once<S: Source, O: Sink, K: Keeper, H: Hash32>(
    alloc: Global,
    words: &[String],
    input: &mut S,
    out: &mut O,
    keeper: K,
    mut clients: Vec<Client>,
) -> Ended<K, H>
    requires fresh { HaveGotBytes (λ c. got c) 0 clients.items }
    ensures { Ends H.digest_of S.Source O.Sink K.Keeper (λ c. got c) (λ c. steady c) (map string_bytes words.now)
        input.old input.new out.old out.new keeper result.keeper clients.items result.clients.items
        result.journal.items result.status }
{
    let Finished {
        status,
        keeper,
        journal,
    } = call_by(alloc, words, input, out, keeper, &mut clients);
    Ended {
        status,
        keeper,
        journal,
        clients,
    }
}

/// Does what the words say.
fn call_by<S: Source, O: Sink, K: Keeper, H: Hash32>(
    alloc: Global,
    words: &[String],
    input: &mut S,
    out: &mut O,
    keeper: K,
    clients: &mut Vec<Client>,
) -> Finished<K, H>
    requires fresh { HaveGotBytes (λ c. got c) 0 clients.old.items }
    ensures { Ends H.digest_of S.Source O.Sink K.Keeper (λ c. got c) (λ c. steady c) (map string_bytes words.now)
        input.old input.new out.old out.new keeper result.keeper clients.old.items clients.new.items
        result.journal.items result.status }
{
    match work_of(alloc, words) {
        Ok(work) => work_on(alloc, work, input, out, keeper, clients),
        Err(status) => Finished::of(alloc, status, keeper),
    }
}

/// Does what the words ask for.
fn work_on<S: Source, O: Sink, K: Keeper, H: Hash32>(
    alloc: Global,
    work: Work,
    input: &mut S,
    out: &mut O,
    keeper: K,
    clients: &mut Vec<Client>,
) -> Finished<K, H>
    requires within { IsWithin work }
    requires fresh { HaveGotBytes (λ c. got c) 0 clients.old.items }
    ensures { WorkEnds H.digest_of S.Source O.Sink K.Keeper (λ c. got c) (λ c. steady c) work
        input.old input.new out.old out.new keeper result.keeper clients.old.items clients.new.items
        result.journal.items result.status }
{
    match work {
        Work::Zero(name) => zero(alloc, name, input, out, keeper),
        Work::Replay => replay(alloc, input, out, keeper, clients),
        Work::Check => check(alloc, out, keeper),
        Work::Migrate => migrate_store(alloc, out, keeper),
        Work::Export { id, max } => export(alloc, id, max, out, keeper, clients),
        Work::Gen(number) => Finished::of(alloc, print_feed(alloc, number, out), keeper),
    }
}
