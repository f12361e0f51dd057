//! What no clause says: values from outside, printed texts, and that each call succeeds with ample memory.
use cd_base::{
    ByteReader, ByteWriter, Crc, Failed, Hash256, Memory, MemorySink, MemorySource, ReadAllFault,
    StdSink, StdSource, SteadySink, SteadySource, crc32c, from_be, from_le, one_more, read_all,
    write_all,
};
use std::io;
use std::io::{ErrorKind, Read, Write};
use std::test::Fail;

/// A reader and a writer that fail at each call.
#[derive(Drop)]
struct Broken;

impl Read for Broken {
    fn read(&mut self, _buf: &mut [u8]) -> io::Result<usize> {
        Err(io::Error::from(ErrorKind::Interrupted))
    }
}

impl Write for Broken {
    fn write(&mut self, _buf: &[u8]) -> io::Result<usize> {
        Err(io::Error::from(ErrorKind::BrokenPipe))
    }

    fn flush(&mut self) -> io::Result<()> {
        Ok(())
    }
}

/// A writer that takes nothing, and says so.
#[derive(Drop)]
struct Full;

impl Write for Full {
    fn write(&mut self, _buf: &[u8]) -> io::Result<usize> {
        Ok(0)
    }

    fn flush(&mut self) -> io::Result<()> {
        Ok(())
    }
}

/// A writer that takes the text "cells" and no other.
#[derive(Drop)]
struct Picky;

impl Write for Picky {
    fn write(&mut self, buf: &[u8]) -> io::Result<usize> {
        if buf != b"cells".as_slice() {
            return Err(io::Error::from(ErrorKind::InvalidData));
        }
        Ok(buf.len())
    }

    fn flush(&mut self) -> io::Result<()> {
        Ok(())
    }
}

/// A reader that gives one byte a call.
#[derive(Drop)]
struct Drip<'a>(&'a [u8]);

impl Read for Drip<'_> {
    fn read(&mut self, buf: &mut [u8]) -> io::Result<usize> {
        let most = buf.len().min(1);
        self.0.read(&mut buf[..most])
    }
}

/// A writer that takes one byte a call, and keeps the last of them at its end.
#[derive(Drop)]
struct Sip {
    calls: u64,
    last: u8,
}

impl Write for Sip {
    fn write(&mut self, buf: &[u8]) -> io::Result<usize> {
        let Some(first) = buf.first() else {
            return Ok(0);
        };
        self.last = *first;
        self.calls = one_more(self.calls);
        Ok(1)
    }

    fn flush(&mut self) -> io::Result<()> {
        Ok(())
    }
}

#[test]
fn checksums_of_the_standard(rt: HostRuntime) {
    assert!(rt; crc32c(b"") == 0x0000_0000);
    assert!(rt; crc32c(b"123456789") == 0xe306_9283);
    assert!(rt; crc32c(&[0x00; 32]) == 0x8a91_36aa);
    assert!(rt; crc32c(&[0xff; 32]) == 0x62a8_ab43);
}

#[test]
fn checksum_in_two_pieces(rt: HostRuntime) {
    let mut crc = Crc::new();
    assert!(rt; crc.value() == 0x0000_0000);
    crc.feed(b"1234");
    crc.feed(b"56789");
    assert!(rt; crc.value() == 0xe306_9283);
}

#[test]
fn whole_sources(rt: HostRuntime) -> Result<(), Fail> {
    let mut source = SteadySource::new(b"bag of cells".to_vec(rt.alloc())?);
    let bytes = read_all(rt.alloc(), &mut source, 12)?;
    assert!(rt; bytes.as_slice() == b"bag of cells".as_slice());
    let mut source = SteadySource::new(bytes);
    let fault = read_all(rt.alloc(), &mut source, 8).err();
    assert!(rt; fault == Some(ReadAllFault::Long { limit: 8 }));
    assert!(rt; source.left() == b"lls".as_slice());
    Ok(())
}

#[test]
fn source_that_fails_in_mid_stream(rt: HostRuntime) -> Result<(), Fail> {
    let bytes = vec![in rt.alloc(); 7u8; 100_000]?;
    let mut source = MemorySource::new(bytes, vec![in rt.alloc(); 1]?);
    let fault = read_all(rt.alloc(), &mut source, 100_000).err();
    assert!(rt; fault == Some(ReadAllFault::Failed));
    assert!(rt; source.faults() == 1);
    assert!(rt; source.left().len() == 34_464);
    let rest = read_all(rt.alloc(), &mut source, 100_000)?;
    assert!(rt; rest.len() == 34_464);
    Ok(())
}

#[test]
fn sinks_in_memory(rt: HostRuntime) -> Result<(), Fail> {
    let mut sink = SteadySink::new(rt.alloc());
    write_all(&mut sink, b"cells ")?;
    write_all(&mut sink, b"1")?;
    assert!(rt; sink.taken() == b"cells 1".as_slice());
    assert!(rt; sink.faults() == 0);
    let mut sink = MemorySink::new(rt.alloc(), vec![in rt.alloc(); 1]?);
    write_all(&mut sink, b"cells ")?;
    assert!(rt; write_all(&mut sink, b"1").is_err());
    assert!(rt; sink.taken() == b"cells ".as_slice());
    assert!(rt; sink.faults() == 1);
    Ok(())
}

#[test]
fn source_of_std(rt: HostRuntime) -> Result<(), Fail> {
    let mut source = StdSource::new(b"cells".as_slice());
    let bytes = read_all(rt.alloc(), &mut source, 5)?;
    assert!(rt; bytes.as_slice() == b"cells".as_slice());
    assert!(rt; source.faults() == 0);
    let mut source = StdSource::new(Drip(b"cells".as_slice()));
    let bytes = read_all(rt.alloc(), &mut source, 5)?;
    assert!(rt; bytes.as_slice() == b"cells".as_slice());
    let mut source = StdSource::new(Broken);
    let fault = read_all(rt.alloc(), &mut source, 5).err();
    assert!(rt; fault == Some(ReadAllFault::Failed));
    assert!(rt; source.faults() == 1);
    Ok(())
}

#[test]
fn sink_of_std(rt: HostRuntime) {
    let mut sink = StdSink::new(Picky);
    assert!(rt; write_all(&mut sink, b"cells").is_ok());
    assert!(rt; sink.faults() == 0);
    let mut sip = Sip { calls: 0, last: 0 };
    let mut sink = StdSink::new(&mut sip);
    assert!(rt; write_all(&mut sink, b"cells").is_ok());
    drop(sink);
    assert!(rt; sip.calls == 5);
    assert!(rt; sip.last == b's');
    let mut sink = StdSink::new(Broken);
    assert!(rt; write_all(&mut sink, b"cells").is_err());
    assert!(rt; sink.faults() == 1);
    let mut sink = StdSink::new(Full);
    assert!(rt; write_all(&mut sink, b"cells").is_err());
    assert!(rt; sink.faults() == 1);
}

#[test]
fn bytes_put_and_taken(rt: HostRuntime) -> Result<(), Fail> {
    let mut writer = ByteWriter::new(rt.alloc());
    writer.put(b"\xb5\xee")?;
    writer.put_be(0x0102, 2)?;
    writer.put_be(7, 9)?;
    assert!(rt; writer.so_far().len() == 13);
    let bytes = writer.finish();
    let mut reader = ByteReader::new(&bytes);
    assert!(rt; reader.take(14).is_none());
    assert!(rt; reader.take(2).is_some());
    assert!(rt; reader.left() == 11);
    assert!(rt; reader.take(11) == Some(b"\x01\x02\0\0\0\0\0\0\0\0\x07".as_slice()));
    Ok(())
}

#[test]
fn numbers_and_orders(rt: HostRuntime) {
    assert!(rt; from_be(&[0xb5, 0xee, 0x9c, 0x72]) == 0xb5ee_9c72);
    assert!(rt; from_le(&[0x83, 0x92, 0x06, 0xe3]) == 0xe306_9283);
    assert!(rt; one_more(u64::MAX) == u64::MAX);
    let mut low = [0xff; 32];
    low[0] = 0;
    assert!(rt; Hash256(low) < Hash256([1; 32]));
}

#[test]
fn texts(rt: HostRuntime) -> Result<(), Fail> {
    let text = format!(in rt.alloc();
        "{}; {}; {}; {}; {}; {}",
        Failed,
        Memory,
        ReadAllFault::Failed,
        ReadAllFault::Long { limit: 8 },
        ReadAllFault::Memory,
        Hash256([0xab; 32])
    )?;
    assert!(rt;
        text.as_str()
            == "an object of the outside failed; out of memory; the source failed; the input is longer than 8 bytes; out of memory; abababababababababababababababababababababababababababababababab"
    );
    Ok(())
}
