ghost use Rattle.std.specs.Prelude.{◌≡◌, ◌++◌, OnOk};
ghost use Rattle.cd_slices.specs.Windows.{window};

use std::alloc::AllocError;

/// Adds what of a text that begins at `start` lies between two offsets.
pub fn put_window(
    out: &mut Vec<u8>,
    text: &[u8],
    start: u64,
    from: u64,
    until: u64,
) -> Result<(), AllocError>
    ensures { OnOk result (out.new.items ≡ out.old.items ++ window start from until text.now) }
{
    let len = text.len() as u64;
    let last = until.saturating_sub(start);
    let end = last.min(len);
    let first = from.saturating_sub(start);
    let begin = first.min(end);
    out.extend_from_slice(&text[begin as usize..end as usize])
}
