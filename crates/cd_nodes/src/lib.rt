//! Exact reference counts over any nodes, as laws: how what roots hold changes as roots come and go, and
//! what a plan's batch does. Each law is the contract of a function that does nothing.
#![tactic(auto)]

ghost use Rattle.std.specs.Prelude.{ℕ};
ghost use Rattle.cd_nodes.specs.Graphs.{Graph, IsGraph};
ghost use Rattle.cd_nodes.specs.Laws as law;

/// Where one root comes, or some go, the roots before and after are told apart from those that came or went.
pub fn roots_come_and_go<N, K, B>()
    ensures comes { (G : Graph N K) → law.ARootComes G }
    ensures go { (G : Graph N K) → (root : B → N) → law.SomeRootsGo G root }
{}

/// Where further roots come with a list of their nodes, the new nodes are the listed ones that aren't held.
pub fn new_nodes_are_listed<N, K>()
    ensures { (G : Graph N K) → IsGraph G → law.NewAreListed G }
{}

/// Roots that come bring their new nodes, and counts grow by the references of both.
pub fn counts_grow<N, K>()
    ensures { (G : Graph N K) → IsGraph G → law.CountsGrow G }
{}

/// Roots that go take the dead nodes with them, and counts fall by the references of both.
pub fn counts_fall<N, K>()
    ensures { (G : Graph N K) → IsGraph G → law.CountsFall G }
{}

/// A worklist that takes references away one by one collects exactly the dead nodes.
pub fn worklists_collect<N, K>()
    ensures begins { (G : Graph N K) → IsGraph G → law.WorkBegins G }
    ensures goes_on { (G : Graph N K) → IsGraph G → law.WorkGoesOn G }
    ensures ends { (G : Graph N K) → IsGraph G → law.WorkEnds G }
    ensures within { (G : Graph N K) → IsGraph G → law.WorkStaysWithin G }
{}

/// Each held node has one record, of its count and face, and no other key has one.
pub fn records_are_counted<N, K, F, X>()
    ensures { (G : Graph N K) → IsGraph G → (face : N → F) (text : ℕ → F → X)
        → law.RecordsAreCounted G face text }
{}

/// The batch of a plan that adds and then drops leads from the old records to the new ones.
pub fn plans_lead<N, K, F, X>()
    ensures { (G : Graph N K) → IsGraph G → (face : N → F) (text : ℕ → F → X) → law.PlansLead G face text }
{}

/// And it changes nothing that stays.
pub fn plans_are_exact<N, K, F, X>()
    ensures { (G : Graph N K) → IsGraph G → (face : N → F) (text : ℕ → F → X)
        → law.PlansAreExact G face text }
{}
