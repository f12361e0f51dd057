//! How counts change, as contracts of functions that do nothing.

ghost use Rattle.std.specs.Prelude.{◌≡◌, ℕ, List};
ghost use Rattle.cd_base.specs.declared.hash.Hash256.{Hash256};
ghost use Rattle.cd_cell.specs.Tree.{Tree};
ghost use Rattle.cd_cell.specs.Export.{AreClashFree};
ghost use Rattle.cd_nodes.specs.Graphs as nodes;
ghost use Rattle.cd_world.specs.World.{World, held_cells, count_of};
ghost use Rattle.cd_count.specs.Changes.{states, cell_graph};
ghost use Rattle.cd_count.specs.Laws as law;

/// What worlds hold and count is what the laws on nodes speak of.
pub fn cells_are_nodes()
    ensures graph { (H : List ℕ → Hash256) → nodes.IsGraph (cell_graph H) }
    ensures clash_free { (H : List ℕ → Hash256) (ts : List Tree) → AreClashFree H ts
        → nodes.AreClashFree (cell_graph H) ts }
    ensures held { (H : List ℕ → Hash256) (world : World)
        → nodes.held (cell_graph H) (states world.blocks) ≡ held_cells H world }
    ensures counted { (H : List ℕ → Hash256) (world : World) (hash : List ℕ)
        → nodes.count (cell_graph H) (states world.blocks) hash ≡ count_of H world hash }
{}

/// Where one block comes, or some go, the blocks before and after are told apart from those that came or went.
pub fn blocks_come_and_go()
    ensures comes { (H : List ℕ → Hash256) → law.ABlockComes H }
    ensures go { (H : List ℕ → Hash256) → law.SomeBlocksGo H }
{}

/// Where blocks come with a list of their cells, the new cells are the listed ones that aren't held.
pub fn new_cells_are_listed()
    ensures { (H : List ℕ → Hash256) → law.NewCellsAreListed H }
{}

/// Blocks that come bring their new cells, and counts grow by the references of both.
pub fn counts_grow()
    ensures { (H : List ℕ → Hash256) → law.CountsGrow H }
{}

/// Blocks that go take the dead cells with them, and counts fall by the references of both.
pub fn counts_fall()
    ensures { (H : List ℕ → Hash256) → law.CountsFall H }
{}

/// The batch of a plan that adds and then drops leads from contents of one world to contents of the other.
pub fn plans_lead()
    ensures { (H : List ℕ → Hash256) → law.PlansLead H }
{}

/// And it changes no record that stays.
pub fn plans_are_exact()
    ensures { (H : List ℕ → Hash256) → law.PlansAreExact H }
{}
