ghost use Rattle.std.specs.Prelude.{◌≡◌, ℕ, ◌+◌, ◌*◌, ◌%◌, ◌≤◌, ◌<◌, length, take, slice_get, IfOk};
ghost use Rattle.cd_base.specs.Reading.{Gives, each_at};
ghost use Rattle.cd_cell.specs.CellFaults.{face_fault};
ghost use Rattle.cd_cell.specs.Masks.{bit_count};
ghost use Rattle.cd_record.specs.declared.record.Record.{Record};
ghost use Rattle.cd_record.specs.Records.{IsRecord, IsTextOf};
ghost use Rattle.cd_record.specs.RecordReading as spec;

use crate::limits::GREATEST_COUNT;
use crate::record::Record;
use crate::record_fault::RecordFault;
use cd_base::{Hash256, byte_at, number_at, part_at};
use cd_cell::{Bits, ChildInfo, Face, Mask};

/// The first byte of a record's text, which is its version. `None` exactly where there is no byte.
pub fn version_of(bytes: &[u8]) -> Option<u8>
    ensures { result ≡ slice_get bytes.now 0 }
{
    bytes.first().copied()
}

#[tactic(auto, unfolding(crate::specs::RecordReading::version_at))]
fn version_at(bytes: &[u8]) -> Result<(u8, &[u8]), RecordFault>
    ensures { Gives (λ x. (x.0, x.1.now)) result (spec.version_at bytes.now) }
{
    let (version, rest) = byte_at(RecordFault::Cut, bytes)?;
    if version == 1 || version == 2 {
        return Ok((version, rest));
    }
    Err(RecordFault::Version { value: version })
}

/// How many bytes of count a version has.
fn count_len(version: u8) -> u8
    ensures value { result ≡ spec.count_len version }
    ensures small { result ≤ 8 }
{
    if version == 1 { 4 } else { 8 }
}

#[tactic(auto, unfolding(crate::specs::RecordReading::count_at))]
fn count_at(len: u8, bytes: &[u8]) -> Result<(u64, &[u8]), RecordFault>
    requires { len ≤ 8 }
    ensures { Gives (λ x. (x.0, x.1.now)) result (spec.count_at len bytes.now) }
{
    let (count, rest) = number_at(RecordFault::Cut, len, bytes)?;
    if count == 0 || GREATEST_COUNT < count {
        return Err(RecordFault::Form);
    }
    Ok((count, rest))
}

#[tactic(auto, unfolding(crate::specs::RecordReading::descriptor_at))]
fn descriptor_at(bytes: &[u8]) -> Result<(u8, &[u8]), RecordFault>
    ensures read { Gives (λ x. (x.0, x.1.now)) result (spec.descriptor_at bytes.now) }
    ensures few { IfOk result (λ x. x.0 % 8 ≤ 4) }
{
    let (descriptor, rest) = byte_at(RecordFault::Cut, bytes)?;
    if descriptor / 16 % 2 == 1 || descriptor % 8 > 4 {
        return Err(RecordFault::Form);
    }
    Ok((descriptor, rest))
}

#[tactic(auto, unfolding(crate::specs::RecordReading::bits_at))]
fn bits_at(bytes: &[u8]) -> Result<(Bits, &[u8]), RecordFault>
    ensures { Gives (λ x. (x.0, x.1.now)) result (spec.bits_at bytes.now) }
{
    let (descriptor, rest) = byte_at(RecordFault::Cut, bytes)?;
    let (part, rest) = part_at(RecordFault::Cut, (descriptor as usize + 1) / 2, rest)?;
    let Some(bits) = Bits::from_data(part, descriptor % 2 == 0) else {
        return Err(RecordFault::Form);
    };
    Ok((bits, rest))
}

#[tactic(auto, unfolding(crate::specs::RecordReading::mask_at))]
fn mask_at(bytes: &[u8]) -> Result<(Mask, &[u8]), RecordFault>
    ensures { Gives (λ x. (x.0, x.1.now)) result (spec.mask_at bytes.now) }
{
    let (byte, rest) = byte_at(RecordFault::Cut, bytes)?;
    let Some(mask) = Mask::of(byte) else {
        return Err(RecordFault::Form);
    };
    Ok((mask, rest))
}

/// The hash at a level, among those at the significant levels.
fn hash_in(mask: Mask, hashes: &[u8], level: u8) -> Hash256
    requires level { level ≤ 3 }
    requires long { length hashes.now ≡ 32 * (bit_count mask + 1) }
    ensures { result ≡ spec.hash_in mask hashes.now level }
{
    let at = 32 * usize::from(mask.apply(level).count());
    let part = &hashes[at..at + 32];
    let mut hash = [0; 32];
    hash.copy_from_slice(part);
    Hash256(hash)
}

/// The depth at a level, among those at the significant levels.
fn depth_in(mask: Mask, depths: &[u8], level: u8) -> u16
    requires level { level ≤ 3 }
    requires long { length depths.now ≡ 2 * (bit_count mask + 1) }
    ensures { result ≡ spec.depth_in mask depths.now level }
{
    let at = 2 * usize::from(mask.apply(level).count());
    let part = &depths[at..at + 2];
    u16::from_be_bytes([part[0], part[1]])
}

/// What a child shows at all levels.
fn info_in(mask: Mask, hashes: &[u8], depths: &[u8]) -> ChildInfo
    requires hashes { length hashes.now ≡ 32 * (bit_count mask + 1) }
    requires depths { length depths.now ≡ 2 * (bit_count mask + 1) }
    ensures { result ≡ spec.info_in mask hashes.now depths.now }
{
    ChildInfo {
        mask,
        hashes: [
            hash_in(mask, hashes, 0),
            hash_in(mask, hashes, 1),
            hash_in(mask, hashes, 2),
            hash_in(mask, hashes, 3),
        ],
        depths: [
            depth_in(mask, depths, 0),
            depth_in(mask, depths, 1),
            depth_in(mask, depths, 2),
            depth_in(mask, depths, 3),
        ],
    }
}

#[tactic(auto, unfolding(crate::specs::RecordReading::kid_at))]
fn kid_at(bytes: &[u8]) -> Result<(ChildInfo, &[u8]), RecordFault>
    ensures { Gives (λ x. (x.0, x.1.now)) result (spec.kid_at bytes.now) }
{
    let (mask, rest) = match mask_at(bytes) {
        Ok(found) => found,
        Err(fault) => return Err(fault),
    };
    let levels = usize::from(mask.count()) + 1;
    let (hashes, rest) = part_at(RecordFault::Cut, 32 * levels, rest)?;
    let (depths, rest) = part_at(RecordFault::Cut, 2 * levels, rest)?;
    Ok((info_in(mask, hashes, depths), rest))
}

/// The children, with a filler behind them.
fn kids_at(count: u8, bytes: &[u8]) -> Result<([ChildInfo; 4], &[u8]), RecordFault>
    requires { count ≤ 4 }
    ensures { Gives (λ x. (take count x.0, x.1.now)) result (each_at spec.kid_at count bytes.now) }
{
    let mut kids = [ChildInfo::NONE; 4];
    let mut rest = bytes;
    for place in 0..count {
        let (kid, after) = match kid_at(rest) {
            Ok(found) => found,
            Err(fault) => return Err(fault),
        };
        kids[usize::from(place)] = kid;
        rest = after;
    }
    Ok((kids, rest))
}

/// A record, unless its face is at fault or another mask is stated.
fn record_of(count: u64, mask: u8, face: Face) -> Result<Record, RecordFault>
    ensures { Gives (λ found. found) result (spec.record_of count mask face (face_fault face)) }
{
    if let Err(fault) = face.check() {
        return Err(RecordFault::Cell { fault });
    }
    if face.mask().byte() != mask {
        return Err(RecordFault::Form);
    }
    Ok(Record { count, face })
}

/// The record that the bytes spell, all of them.
#[tactic(auto, unfolding(crate::specs::RecordReading::record_in))]
fn record_at(bytes: &[u8]) -> Result<Record, RecordFault>
    ensures { Gives (λ found. found) result (spec.record_in bytes.now) }
{
    let (version, rest) = version_at(bytes)?;
    let (count, rest) = count_at(count_len(version), rest)?;
    let (descriptor, rest) = descriptor_at(rest)?;
    let (bits, rest) = match bits_at(rest) {
        Ok(found) => found,
        Err(fault) => return Err(fault),
    };
    let refs = descriptor % 8;
    let (kids, rest) = match kids_at(refs, rest) {
        Ok(found) => found,
        Err(fault) => return Err(fault),
    };
    if !rest.is_empty() {
        return Err(RecordFault::Extra);
    }
    let face = Face::new(descriptor / 8 % 2 == 1, bits, &kids[..usize::from(refs)]);
    record_of(count, descriptor / 32, face)
}

/// Reads a stored record, of either version. Takes no memory.
pub fn decode(bytes: &[u8]) -> Result<Record, RecordFault>
    // What is read is spelled so.
    ensures found { IfOk result (λ found. IsRecord found × IsTextOf found bytes.now) }

    // What is spelled so is read.
    ensures only { (known : Record) → IsRecord known → IsTextOf known bytes.now
        → result ≡ Ok known }

    // Which fault it is.
    ensures exact { result ≡ spec.record_in bytes.now }
{
    record_at(bytes)
}
