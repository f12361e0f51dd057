ghost use Rattle.std.specs.Prelude.{◌≡◌, ◌<◌, ◌++◌, length, IfOk, OnOk};
ghost use Rattle.cd_block.specs.Description.{ids_text, descr_text, IsDescrFit};

use crate::block::BlockId;
use crate::description::Descr;
use cd_base::Memory;
use std::alloc::{AllocError, Global};

/// The bytes of a description without any ids.
const FIXED_LEN: usize = 38;

const KEY_LEN: usize = 80;

/// Puts the number of the ids, in one byte, and their keys at the end.
#[tactic(auto, unfolding(crate::specs::Description::ids_text))]
fn put_ids(out: &mut Vec<u8>, ids: &[BlockId]) -> Result<(), AllocError>
    requires { length ids.now < 256 }
    ensures { OnOk result (out.new.items ≡ out.old.items ++ ids_text ids.now) }
{
    out.push(ids.len() as u8)?;
    for id in ids {
        out.extend_from_slice(&id.to_key())?;
    }
    Ok(())
}

/// The text of a description, which stands in the store under the key of `descr.id`.
#[tactic(auto, unfolding(crate::specs::Description::descr_text))]
pub fn encode_descr(alloc: Global, descr: &Descr) -> Result<Vec<u8>, Memory>
    requires { IsDescrFit descr.now }
    ensures { IfOk result (λ text. text.items ≡ descr_text descr.now) }
{
    let parents = descr.parents.as_slice();
    let tops = descr.tops.as_slice();
    let mut text = Vec::with_capacity(alloc, FIXED_LEN + KEY_LEN * (parents.len() + tops.len()))?;
    text.push(1)?;
    text.push(u8::from(descr.leaving))?;
    put_ids(&mut text, parents)?;
    text.extend_from_slice(&descr.root.0)?;
    text.extend_from_slice(&descr.depth.to_be_bytes())?;
    put_ids(&mut text, tops)?;
    Ok(text)
}
