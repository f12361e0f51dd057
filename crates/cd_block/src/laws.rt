//! What holds of all ids and descriptions, as contracts of functions that do nothing.

ghost use Rattle.std.specs.Prelude.{◌≡◌, length};
ghost use Rattle.std.specs.Cmp.Lexicographic.{slice_cmp};
ghost use Rattle.std.specs.Ordering.{nat_cmp};
ghost use Rattle.cd_block.specs.declared.block.BlockId.{BlockId};
ghost use Rattle.cd_block.specs.Block.{IsBlockId, key_of, id_of, id_cmp};
ghost use Rattle.cd_block.specs.Spelling.{id_text};
ghost use Rattle.cd_block.specs.declared.description.Descr.{Descr};
ghost use Rattle.cd_block.specs.Description.{descr_text, IsDescr, IsDescrFit};
ghost use Rattle.cd_block.specs.Reading.{descr_in};

use crate::block::BlockId;

/// No two ids share a key, and the id of an id's key is that id.
pub fn a_key_has_one_id()
    ensures len { (id : BlockId) → IsBlockId id → length (key_of id) ≡ 80 }
    ensures back { (id : BlockId) → IsBlockId id → id_of (key_of id) ≡ id }
    ensures one { (a b : BlockId) → IsBlockId a → IsBlockId b → key_of a ≡ key_of b → a ≡ b }
{}

/// Ids are ordered as their keys are, byte by byte: by `<` and `cmp`, and so by sorts and ordered maps.
pub fn ids_are_ordered_by_key()
    ensures fields { (a b : BlockId) → ⟦<BlockId as Ord>⟧.cmp a b ≡ id_cmp a b }
    ensures keys { (a b : BlockId) → IsBlockId a → IsBlockId b
        → id_cmp a b ≡ slice_cmp nat_cmp (key_of a) (key_of b) }
{}

/// No two ids share a spelling.
pub fn a_spelling_has_one_id()
    ensures { (a b : BlockId) → IsBlockId a → IsBlockId b → id_text a ≡ id_text b → a ≡ b }
{}

/// The text of a description is read back as that description, and no two descriptions of a block share a text.
pub fn a_text_has_one_description()
    ensures back { (d : Descr) → IsDescr d → IsDescrFit d
        → descr_in (key_of d.id) (descr_text d) ≡ Ok d }
    ensures one { (a b : Descr) → IsDescr a → IsDescrFit a → IsDescr b → IsDescrFit b
        → key_of a.id ≡ key_of b.id → descr_text a ≡ descr_text b → a ≡ b }
{}
