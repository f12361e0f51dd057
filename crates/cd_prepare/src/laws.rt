//! What holds of prepared values, as contracts of functions that do nothing.

ghost use Rattle.std.specs.Prelude.{◌≡◌, ℕ, List, [], ◌∷◌, map, Some, Ok};
ghost use Rattle.cd_base.specs.declared.hash.Hash256.{Hash256};
ghost use Rattle.cd_cell.specs.declared.kind.Kind.TheVariants.{Update};
ghost use Rattle.cd_cell.specs.Tree.{Tree, info_of, kind_of, mask_of, IsWellFormed};
ghost use Rattle.cd_cell.specs.Export.{export_cmp, sorted_distinct, distinct_cells, IsClashFree, AreClashFree};
ghost use Rattle.cd_cell.specs.Listings.{new_cell_of, IsValid, tree_of};
ghost use Rattle.cd_cell.specs.Updates.{applied, new_cells};
ghost use Rattle.cd_prepare.specs.States.{IsWhole};

/// All cells of a state are a valid value, which fits without an old tree and stands for the state.
pub fn all_cells_of_a_state_stand_for_it()
    ensures valid { (H : List ℕ → Hash256) (state : Tree)
        → IsWellFormed H state → IsClashFree H state → mask_of H state ≡ 0
        → IsValid H (info_of H state) (map (new_cell_of H) (distinct_cells H state)) }
    ensures whole { (H : List ℕ → Hash256) (state : Tree) → IsWellFormed H state → IsClashFree H state
        → IsWhole H state (info_of H state) (map (new_cell_of H) (distinct_cells H state)) }
{}

/// The new cells of an update stand for the applied tree, where the old tree and they together are free of clashes.
pub fn new_cells_stand_for_the_applied_tree()
    ensures { (H : List ℕ → Hash256) (u t new : Tree)
        → IsWellFormed H u → IsWellFormed H t → kind_of H u ≡ Some Update → mask_of H u ≡ 0
        → applied H u t ≡ Ok new → AreClashFree H (t ∷ new_cells H u t)
        → tree_of H (info_of H new)
        (map (new_cell_of H) (sorted_distinct (export_cmp H) (new_cells H u t))) (t ∷ []) ≡ new }
{}
