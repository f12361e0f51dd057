//! What holds of all bags of cells, as contracts of functions that do nothing.

ghost use Rattle.std.specs.Prelude.{◌≡◌, ℕ, ◌≤◌, List, [], ◌∷◌, length, None, Some};
ghost use Rattle.cd_base.specs.Numbers.{IsBytes};
ghost use Rattle.cd_base.specs.declared.hash.Hash256.{Hash256};
ghost use Rattle.cd_cell.specs.Tree.{Tree, IsWellFormed};
ghost use Rattle.cd_cell.specs.Export.{distinct_cells, IsClashFree};
ghost use Rattle.cd_boc_write.specs.Exports.{bag_of};
ghost use Rattle.cd_boc_read.specs.Grammar.{Spells};
ghost use Rattle.cd_boc_read.specs.declared.bag_fault.BagFault.{BagFault};
ghost use Rattle.cd_boc_read.specs.BagFaults.{bag_fault};
ghost use Rattle.cd_boc_read.specs.FaultRows.{Holds};

use cd_cell::MOST_CELLS;

/// Bytes have no fault exactly where they are a bag of some trees.
pub fn bags_have_no_fault()
    ensures none { (H : List ℕ → Hash256) (bytes : List ℕ) (trees : List Tree)
        → IsBytes bytes → Spells H bytes trees → bag_fault H bytes ≡ None }
    ensures some { (H : List ℕ → Hash256) (bytes : List ℕ) → IsBytes bytes
        → bag_fault H bytes ≡ None → (trees : List Tree) × Spells H bytes trees }
{}

/// The fault that bytes have says what is so of them.
pub fn a_fault_holds()
    ensures { (H : List ℕ → Hash256) (bytes : List ℕ) (fault : BagFault)
        → IsBytes bytes → bag_fault H bytes ≡ Some fault → Holds H bytes fault }
{}

/// No bytes are a bag of two lists of trees.
pub fn a_bag_has_one_list_of_trees()
    ensures { (H : List ℕ → Hash256) (bytes : List ℕ) (trees others : List Tree)
        → IsBytes bytes → Spells H bytes trees → Spells H bytes others → trees ≡ others }
{}

/// The export text of a tree of at most 1,048,576 cells, well-formed and free of clashes, is a bag of that tree.
pub fn an_export_is_a_bag_of_its_tree()
    ensures { (H : List ℕ → Hash256) (tree : Tree)
        → IsWellFormed H tree → IsClashFree H tree → length (distinct_cells H tree) ≤ MOST_CELLS
        → Spells H (bag_of H tree) (tree ∷ []) }
{}
