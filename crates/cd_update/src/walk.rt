ghost use Rattle.std.specs.Prelude.{◌≡◌, ◌+◌, ◌*◌, ◌<◌, ◌≤◌, ℕ, [], ◌∷◌, ◌++◌, not, false, length, map, reverse, replicate, slice_index_or, All, MatchOption, IfOk, OnOk, if◌then◌else◌};
ghost use Rattle.std.specs.List.{list_any};
ghost use Rattle.cd_update.specs.EachOnce.{each_once};
ghost use Rattle.cd_update.specs.Nodes.{same_node, next_nodes, nodes_from, IsShown};
ghost use Rattle.cd_update.specs.Visits.{spot, nodes_of, visit_at, IsNumbered};

use crate::hidden::{is_hidden, kid_level, shown_info};
use crate::visit::{Node, Visit};
use cd_base::Memory;
use cd_cell::{Bag, Hash32};
use std::alloc::Global;

/// The entries that are reached from one, each once at each of its Merkle depths.
#[derive(Drop)]
pub(crate) struct Walk {
    /// In preorder, by their first places.
    pub visits: Vec<Visit>,
    /// For each entry and Merkle depth the number of its visit.
    pub numbers: Vec<Option<usize>>,
    pub ghost numbered: { IsNumbered numbers.items visits.items },
}

impl Walk {
    /// No visit yet of so many entries.
    fn start(alloc: Global, entries: usize) -> Result<Walk, Memory>
        ensures none { IfOk result (λ walk. walk.visits.items ≡ []) }
        ensures wide { IfOk result (λ walk. length walk.numbers.items ≡ 4 * entries) }
    {
        let Some(spots) = entries.checked_mul(4) else {
            return Err(Memory);
        };
        let numbers = vec![in alloc; None; spots]?;
        Ok(Walk {
            visits: Vec::new(alloc),
            numbers,
        })
    }

    /// The number of the visit of an entry at a depth.
    pub fn number(&self, node: Node) -> Option<usize>
        requires depth { node.depth ≤ 3 }
        requires entry { 4 * node.entry + 3 < length self.now.numbers.items }
        ensures value { result ≡ slice_index_or self.now.numbers.items (spot node) None }
        ensures visit { MatchOption result (list_any (same_node node) (nodes_of self.now.visits.items) ≡ false)
            (λ k. (k < length self.now.visits.items) × ((visit_at self.now.visits.items k).node ≡ node)) }
    {
        self.numbers[4 * node.entry as usize + node.depth as usize]
    }

    /// The number of the visit that a spot is of.
    pub fn in_spot(&self, place: usize) -> Option<usize>
        requires { place < length self.now.numbers.items }
        ensures value { result ≡ slice_index_or self.now.numbers.items place None }
        ensures visit { (k : ℕ) → result ≡ Some k
            → (k < length self.now.visits.items) × (spot (visit_at self.now.visits.items k).node ≡ place) }
    {
        self.numbers[place]
    }

    /// One visit more, where the entry wasn't visited at this depth.
    fn add(&mut self, visit: Visit) -> Result<bool, Memory>
        requires depth { visit.node.depth ≤ 3 }
        requires entry { 4 * visit.node.entry + 3 < length self.old.numbers.items }
        ensures new { IfOk result (λ new.
            new ≡ not (list_any (same_node visit.node) (nodes_of self.old.visits.items))) }
        ensures visits { IfOk result (λ new. self.new.visits.items
            ≡ (if new then self.old.visits.items ++ visit ∷ [] else self.old.visits.items)) }
        ensures wide { OnOk result (length self.new.numbers.items ≡ length self.old.numbers.items) }
    {
        if self.number(visit.node).is_some() {
            return Ok(false);
        }
        let number = self.visits.len();
        self.visits.push(visit)?;
        self.numbers[4 * visit.node.entry as usize + visit.node.depth as usize] = Some(number);
        Ok(true)
    }
}

/// The visits of the children of an entry, the last one first.
fn push_children<H: Hash32>(
    bag: &Bag<H>,
    visit: Visit,
    pending: &mut Vec<Visit>,
) -> Result<(), Memory>
    requires { IsShown H.digest_of bag.now visit }
    ensures nodes { OnOk result (nodes_of pending.new.items
        ≡ nodes_of pending.old.items ++ reverse (next_nodes bag.now visit.node)) }
    ensures shown { OnOk result (All (IsShown H.digest_of bag.now) pending.old.items
        → All (IsShown H.digest_of bag.now) pending.new.items) }
{
    let face = bag.face(visit.node.entry);
    if is_hidden(face, shown_info(bag, &visit), visit.node.depth) {
        return Ok(());
    }
    let depth = kid_level(face, visit.node.depth);
    let children = bag.children(visit.node.entry);
    let mut left = children.len();
    while left > 0 {
        left -= 1;
        pending.push(Visit {
            node: Node {
                entry: children[left],
                depth,
            },
            parent: visit.node.entry,
            place: left as u8,
        })?;
    }
    Ok(())
}

/// The entries that are reached from one.
pub(crate) fn visit_all<H: Hash32>(
    alloc: Global,
    bag: &Bag<H>,
    start: Visit,
) -> Result<Walk, Memory>
    requires { IsShown H.digest_of bag.now start }
    ensures nodes { IfOk result (λ walk.
        nodes_of walk.visits.items ≡ each_once same_node (nodes_from bag.now start.node)) }
    ensures shown { IfOk result (λ walk. All (IsShown H.digest_of bag.now) walk.visits.items) }
    ensures wide { IfOk result (λ walk. length walk.numbers.items ≡ 4 * length bag.now.cells) }
{
    let mut walk = Walk::start(alloc, bag.cells().len())?;
    let mut pending = vec![in alloc; start]?;
    while let Some(visit) = pending.pop() {
        if walk.add(visit)? {
            push_children(bag, visit, &mut pending)?;
        }
    }
    Ok(walk)
}
