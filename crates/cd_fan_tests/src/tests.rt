use crate::pieces::joined;
use crate::{Failing, ListedLook, Watching};
use cd_base::{Failed, Hash256};
use cd_cell::{Bits, ChildInfo, Face, NewCell, Sha, face_info};
use cd_event::LookUp;
use cd_fan::{Client, ClientEnd, FileClient, MemoryClient, fan_out};
use cd_reader::{Reader, WalkFault};
use cd_slices::{Export, SliceFault};
use std::alloc::Global;
use std::fs;
use std::sync::Arc;
use std::sync::atomic::{AtomicU64, Ordering};
use std::test::*;

// A file in the folder that the test is run in.
const FILE: &str = "cd_fan_tests_client";

fn empty() -> Face {
    Face::new(false, Bits::from_slice(&[], 0).unwrap(), &[])
}

// What a cell with this face shows.
fn info_of(face: &Face) -> Result<ChildInfo, Fail> {
    match face.check() {
        Ok(_) => Ok(face_info::<Sha>(face)),
        Err(_) => Err(Fail::from("a face of no cell")),
    }
}

// The empty cell alone.
fn one_cell(alloc: Global) -> Result<(ListedLook, ChildInfo), Fail> {
    let info = info_of(&empty())?;
    let cell = NewCell {
        hash: info.rep(),
        face: empty(),
    };
    Ok((ListedLook::of(alloc, &[cell])?, info))
}

// A root with the empty cell in all four places.
fn four_places(alloc: Global) -> Result<(ListedLook, ChildInfo), Fail> {
    let kid = info_of(&empty())?;
    let root = Face::new(false, Bits::from_slice(&[], 0).unwrap(), &[kid; 4]);
    let info = info_of(&root)?;
    let cells = [
        NewCell {
            hash: kid.rep(),
            face: empty(),
        },
        NewCell {
            hash: info.rep(),
            face: root,
        },
    ];
    Ok((ListedLook::of(alloc, &cells)?, info))
}

#[test]
fn a_reader_with_room_for_one_cell(rt: HostRuntime) -> Result<(), Fail> {
    let alloc = rt.alloc();
    let (look, root) = four_places(alloc)?;
    let e = info_of(&empty())?.rep();
    let mut reader = match Reader::new(alloc, look, root, 1) {
        Ok(reader) => reader,
        Err(_) => return Err(Fail::from("memory")),
    };
    assert_eq!(rt; reader.load(&e)?, Some(empty()));
    assert_eq!(rt; reader.load(&e)?, Some(empty()));
    assert_eq!(rt; reader.load(&root.rep())?.is_some(), true);
    assert_eq!(rt; reader.load(&root.rep())?.is_some(), true);
    assert_eq!(rt; reader.load(&e)?, Some(empty()));
    let look = reader.into_look();
    assert_eq!(rt; look.asked(), 3);
    Ok(())
}

#[test]
fn walks(rt: HostRuntime) -> Result<(), Fail> {
    let alloc = rt.alloc();
    let (look, root) = four_places(alloc)?;
    let mut reader = match Reader::new(alloc, look, root, 4) {
        Ok(reader) => reader,
        Err(_) => return Err(Fail::from("memory")),
    };
    assert_eq!(rt; reader.walk(&[3])?, empty());
    assert_eq!(rt; reader.walk(&[3, 0]), Err(WalkFault::NoChild { at: 1 }));
    assert_eq!(rt; reader.walk(&[])?.refs(), 4);
    Ok(())
}

const ONE_CELL: [u8; 14] = [
    0xb5, 0xee, 0x9c, 0x72, 0xc1, 0x01, 0x01, 0x01, 0x00, 0x02, 0x00, 0x02, 0x00, 0x00,
];

#[test]
fn slices_of_one_byte_join_to_the_export(rt: HostRuntime) -> Result<(), Fail> {
    let alloc = rt.alloc();
    let (mut look, root) = one_cell(alloc)?;
    let export = Export::plan(alloc, &mut look, &root)?;
    assert_eq!(rt; export.len(), 18);
    let mut text = Vec::new(alloc);
    for offset in 0..18 {
        let piece = export.slice(alloc, &mut look, offset, 1)?;
        text.extend_from_slice(&piece)?;
    }
    assert_eq!(rt; text.len(), 18);
    assert_eq!(rt; &text[..14], ONE_CELL.as_slice());
    let crc = cd_base::crc32c(&ONE_CELL).to_le_bytes();
    assert_eq!(rt; &text[14..], crc.as_slice());
    let whole = export.slice(alloc, &mut look, 0, 100)?;
    assert_eq!(rt; whole.as_slice(), text.as_slice());
    assert_eq!(rt; export.slice(alloc, &mut look, 18, 1)?.len(), 0);
    match export.slice(alloc, &mut look, 19, 1) {
        Err(fault) => assert_eq!(rt;
            fault,
            SliceFault::PastEnd {
                offset: 19,
                len: 18
            }
        ),
        Ok(_) => return Err(Fail::from("past the end")),
    }
    match export.slice(alloc, &mut look, 0, 2_097_153) {
        Err(fault) => assert_eq!(rt; fault, SliceFault::SliceBig { max: 2_097_153 }),
        Ok(_) => return Err(Fail::from("too big")),
    }
    // One look for the plan, and one for each slice that meets the cell's two bytes.
    assert_eq!(rt; look.asked(), 1 + 2 + 1);
    Ok(())
}

#[test]
fn the_export_of_four_places(rt: HostRuntime) -> Result<(), Fail> {
    let alloc = rt.alloc();
    let (mut look, root) = four_places(alloc)?;
    let export = Export::plan(alloc, &mut look, &root)?;
    let text = joined(alloc, &export, &mut look, 100)?;
    let head = [
        0xb5, 0xee, 0x9c, 0x72, 0xc1, 0x01, 0x02, 0x01, 0x00, 0x08, 0x00, 0x06, 0x08, 0x04, 0x00,
        0x01, 0x01, 0x01, 0x01, 0x00, 0x00,
    ];
    assert_eq!(rt; text.len(), 25);
    assert_eq!(rt; &text[..21], head.as_slice());
    for size in [1, 7, 24] {
        let again = joined(alloc, &export, &mut look, size)?;
        assert_eq!(rt; again.as_slice(), text.as_slice());
    }
    Ok(())
}

#[test]
fn the_second_of_three_clients_fails(rt: HostRuntime) -> Result<(), Fail> {
    let alloc = rt.alloc();
    let (mut look, root) = one_cell(alloc)?;
    let export = Export::plan(alloc, &mut look, &root)?;
    let mut clients: Vec<Client> = Vec::new(alloc);
    clients.push(Box::new(alloc, MemoryClient::new(alloc, Vec::new(alloc)))?)?;
    clients.push(Box::new(alloc, MemoryClient::new(alloc, vec![in alloc; 2]?))?)?;
    clients.push(Box::new(alloc, MemoryClient::new(alloc, Vec::new(alloc)))?)?;
    let ends = fan_out(alloc, &export, &mut look, &mut clients, 1)?;
    assert_eq!(rt; clients.len(), 2);
    let due = [
        ClientEnd::Done { bytes: 18 },
        ClientEnd::Failed { bytes: 2 },
        ClientEnd::Done { bytes: 18 },
    ];
    assert_eq!(rt; ends.as_slice(), due.as_slice());
    Ok(())
}

#[test]
fn a_file_gets_the_whole_text(rt: HostRuntime) -> Result<(), Fail> {
    let alloc = rt.alloc();
    let (mut look, root) = four_places(alloc)?;
    let export = Export::plan(alloc, &mut look, &root)?;
    let mut clients: Vec<Client> = Vec::new(alloc);
    let client = match FileClient::create(&rt, FILE) {
        Ok(client) => client,
        Err(_) => return Err(Fail::from("no file")),
    };
    clients.push(Box::new(alloc, client)?)?;
    let ends = fan_out(alloc, &export, &mut look, &mut clients, 7)?;
    drop(clients);
    let text = fs::read(&rt, FILE)?;
    fs::remove_file(&rt, FILE)?;
    assert_eq!(rt; ends.as_slice(), [ClientEnd::Done { bytes: 25 }].as_slice());
    assert_eq!(rt;
        text.as_slice(),
        joined(alloc, &export, &mut look, 100)?.as_slice()
    );
    Ok(())
}

#[test]
fn a_failed_client_is_dropped_before_the_next_gets_its_piece(rt: HostRuntime) -> Result<(), Fail> {
    let alloc = rt.alloc();
    let (mut look, root) = one_cell(alloc)?;
    let export = Export::plan(alloc, &mut look, &root)?;
    let drops = Arc::new(alloc, AtomicU64::new(0))?;
    let seen = Arc::new(alloc, AtomicU64::new(0))?;
    let failing = Failing {
        drops: Arc::try_clone(&drops)?,
        faults: 0,
    };
    let watching = Watching {
        drops: Arc::try_clone(&drops)?,
        seen: Arc::try_clone(&seen)?,
    };
    let mut clients: Vec<Client> = Vec::new(alloc);
    clients.push(Box::new(alloc, failing)?)?;
    clients.push(Box::new(alloc, watching)?)?;
    let ends = fan_out(alloc, &export, &mut look, &mut clients, 18)?;
    assert_eq!(rt; seen.load(Ordering::SeqCst), 1);
    let due = [
        ClientEnd::Failed { bytes: 0 },
        ClientEnd::Done { bytes: 18 },
    ];
    assert_eq!(rt; ends.as_slice(), due.as_slice());
    Ok(())
}
