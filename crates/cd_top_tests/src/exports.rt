use crate::tests::{ONE_CELL, told};
use cd_base::{Sink, SteadySink, SteadySource};
use cd_cell::Sha;
use cd_event::Refusal;
use cd_fan::{Client, MemoryClient};
use cd_keeper::SteadyKeeper;
use cd_top::{Ended, Status, TopRefusal, celldb_once};
use std::alloc::Global;
use std::test::Fail;

/// The words of an export of the state of the one cell, in pieces of one byte.
fn export_words(alloc: Global, workchain: &str) -> Result<Vec<String>, Fail> {
    let mut id = String::from_str(alloc, "(")?;
    id.push_str(workchain)?;
    id.push_str(
        ",8000000000000000,0):96a296d224f285c67bee93c30f8a309157f0daa35dc5b87e410b78630a09cfc7:",
    )?;
    id.push_str("0000000000000000000000000000000000000000000000000000000000000000")?;
    let mut words = Vec::new(alloc);
    words.push(String::from_str(alloc, "export")?)?;
    words.push(String::from_str(alloc, "--max=1")?)?;
    words.push(String::from_str(alloc, "--id")?)?;
    words.push(id)?;
    Ok(words)
}

#[test]
fn the_second_of_three_clients_fails(rt: HostRuntime) -> Result<(), Fail> {
    let alloc = rt.alloc();
    let (_, _, keeper) = told(alloc, "zero", &ONE_CELL, SteadyKeeper::new(alloc))?;
    let words = export_words(alloc, "-1")?;
    let mut clients: Vec<Client> = Vec::new(alloc);
    clients.push(Box::new(alloc, MemoryClient::new(alloc, Vec::new(alloc)))?)?;
    clients.push(Box::new(alloc, MemoryClient::new(alloc, vec![in alloc; 2]?))?)?;
    clients.push(Box::new(alloc, MemoryClient::new(alloc, Vec::new(alloc)))?)?;
    let mut input = SteadySource::new(Vec::new(alloc));
    let mut out = SteadySink::new(alloc);
    let Ended {
        status,
        keeper,
        journal,
        clients,
    } = celldb_once::<_, _, _, Sha>(alloc, &words, &mut input, &mut out, keeper, clients);
    assert!(rt; matches!(status, Status::ClientFault));
    assert!(rt; clients.len() == 2);
    assert!(rt; out.taken() == b"bytes 18\ndone 2\nfailed 1\n".as_slice());
    // A pin, at least one look, and the unpin.
    assert!(rt; journal.len() > 2);
    assert!(rt; keeper.batches() == 1);
    Ok(())
}

#[test]
fn a_block_that_is_not_there_is_not_exported(rt: HostRuntime) -> Result<(), Fail> {
    let alloc = rt.alloc();
    let words = export_words(alloc, "0")?;
    let mut clients: Vec<Client> = Vec::new(alloc);
    clients.push(Box::new(alloc, MemoryClient::new(alloc, Vec::new(alloc)))?)?;
    let mut input = SteadySource::new(Vec::new(alloc));
    let mut out = SteadySink::new(alloc);
    let Ended {
        status,
        keeper: _,
        journal,
        clients,
    } = celldb_once::<_, _, _, Sha>(
        alloc,
        &words,
        &mut input,
        &mut out,
        SteadyKeeper::new(alloc),
        clients,
    );
    let unknown = matches!(
        status,
        Status::Refused(TopRefusal::Core(Refusal::UnknownBlock))
    );
    assert!(rt; unknown && clients.len() == 1);
    assert!(rt; journal.len() == 1 && out.taken().is_empty());
    Ok(())
}
