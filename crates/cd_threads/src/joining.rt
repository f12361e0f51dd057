ghost use Rattle.std.specs.Prelude.{◌≡◌, ◌<◌, ◌≤◌, ◌+◌, ◌-◌, ◌++◌, ℕ, false, length, map, vec_len, vec_capacity, slice_index_or};
ghost use Rattle.cd_gate.specs.Gates.{IsSeatOf};
ghost use Rattle.cd_gate.specs.Histories.{GrewByOthers};
ghost use Rattle.cd_shared.specs.SharedTurns.{worker_of};
ghost use Rattle.cd_threads.specs.Seats.{IsLaneAt, KnowsSame};

use cd_cell::Hash32;
use cd_fan::SliceClient;
use cd_keeper::Keeper;
use cd_phases::Lane;
use cd_run::Outcome;
use cd_shared::{AtDb, DbSeat, SharedDb};
use std::sync::Wait;

/// Puts the workers' seats together again in the order of their numbers, and their ends behind those that are there. True
/// where memory ran out in one of them.
pub(crate) fn join_lanes<'a, K: Keeper, H: Hash32, R: Wait + Sync>(
    db: &'a SharedDb<K, H>,
    first: DbSeat<K, H>,
    lanes: Vec<Lane<AtDb<'a, K, H, R>>>,
    ends: &mut Vec<Vec<Outcome>>,
) -> (DbSeat<K, H>, bool)
    requires first { IsSeatOf db.now first × (first.lowest ≡ 0) }
    requires beside { 0 < length lanes.items → first.end ≡ 1 }
    requires room { vec_len ends.old + length lanes.items ≤ vec_capacity ends.old }
    requires each { (k : ℕ) (d : _) → k < length lanes.items → IsLaneAt (λ t. t.seat) (λ t. t.db.now) db.now (k + 1)
        (length lanes.items + 1) (slice_index_or lanes.items k d) }
    ensures of { IsSeatOf db.now result.0 × (result.0.lowest ≡ 0) }
    ensures first { KnowsSame H.digest_of K.held db.now.start 0 first.seen result.0.seen }
    ensures knows { (k : ℕ) (d : _) → k < length lanes.entry.items → KnowsSame H.digest_of K.held db.now.start (k + 1)
        (slice_index_or lanes.entry.items k d).seat.seat.seen result.0.seen }
    ensures alone { length lanes.entry.items ≡ 0 → result.0 ≡ first }
    ensures last { (d : _) (k : ℕ) → length lanes.entry.items ≡ k + 1
        → (result.0.end ≡ (slice_index_or lanes.entry.items k d).seat.seat.end)
        × GrewByOthers worker_of (k + 1) (slice_index_or lanes.entry.items k d).seat.seat.end
        (slice_index_or lanes.entry.items k d).seat.seat.seen result.0.seen }
    ensures ends { ends.new.items ≡ ends.old.items ++ map (λ l. l.outcomes) lanes.entry.items }
    ensures want { result.1 ≡ false → (k : ℕ) (d : _) → k < length lanes.entry.items
        → (slice_index_or lanes.entry.items k d).memory ≡ false }
{
    let mut whole = first;
    let mut want = false;
    let mut rest = lanes;
    for _place in 0..rest.len() {
        let Lane {
            worker: _,
            seat,
            outcomes,
            clients: _,
            memory,
        } = rest.remove(0);
        db.join(&mut whole, seat.into_seat());
        ends.push_reserved(outcomes);
        want = want || memory;
    }
    (whole, want)
}
