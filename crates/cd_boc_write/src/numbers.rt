ghost use Rattle.std.specs.Prelude.{◌≡◌, ◌≤◌, ◌++◌, OnOk, OnErr, take};
ghost use Rattle.std.specs.Vec.{vec_len};
ghost use Rattle.cd_base.specs.Numbers.{big};
ghost use Rattle.cd_boc_write.specs.Frames.{numbers_text};
ghost use Rattle.cd_boc_write.specs.Exports.{width_of};

use std::alloc::AllocError;

#[tactic(auto, unfolding(crate::specs::Exports::width_of))]
/// The least number of bytes, from 1 to 8, in which a number has room.
pub fn width_of(value: u64) -> u8
    ensures value { result ≡ width_of value }
    ensures some { 1 ≤ result }
    ensures most { result ≤ 8 }
{
    match value {
        0..=0xff => 1,
        0x100..=0xffff => 2,
        0x1_0000..=0xff_ffff => 3,
        0x100_0000..=0xffff_ffff => 4,
        0x1_0000_0000..=0xff_ffff_ffff => 5,
        0x100_0000_0000..=0xffff_ffff_ffff => 6,
        0x1_0000_0000_0000..=0xff_ffff_ffff_ffff => 7,
        _ => 8,
    }
}

/// Adds the lowest bytes of a number, the highest of them first.
pub fn put_number(out: &mut Vec<u8>, value: u64, width: u8) -> Result<(), AllocError>
    requires { width ≤ 8 }
    ensures ok { OnOk result (out.new.items ≡ out.old.items ++ big width value) }
    ensures err { OnErr result (out.new.items ≡ out.old.items) }
{
    let bytes = value.to_be_bytes();
    out.extend_from_slice(&bytes[8 - usize::from(width)..])
}

/// Adds the numbers of cells.
pub fn put_numbers(out: &mut Vec<u8>, numbers: &[u32], width: u8) -> Result<(), AllocError>
    requires { width ≤ 8 }
    ensures ok { OnOk result (out.new.items ≡ out.old.items ++ numbers_text width numbers.now) }
    ensures err { OnErr result (take (vec_len out.old) out.new.items ≡ out.old.items) }
{
    for number in numbers {
        put_number(out, u64::from(*number), width)?;
    }
    Ok(())
}

/// Adds offsets in the cell data.
pub fn put_offsets(out: &mut Vec<u8>, offsets: &[u64], width: u8) -> Result<(), AllocError>
    requires { width ≤ 8 }
    ensures { OnOk result (out.new.items ≡ out.old.items ++ numbers_text width offsets.now) }
{
    for offset in offsets {
        put_number(out, *offset, width)?;
    }
    Ok(())
}
