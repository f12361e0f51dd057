ghost use Rattle.std.specs.Prelude.{◌≡◌, ◌<◌, ◌≤◌, ℕ, [], length, vec_capacity, slice_index_or};
ghost use Rattle.cd_gate.specs.Gates.{IsSeatOf};
ghost use Rattle.cd_threads.specs.Seats.{IsLaneFor, part_of};

use cd_cell::Hash32;
use cd_fan::SliceClient;
use cd_keeper::Keeper;
use cd_phases::Lane;
use cd_shared::{AtDb, DbSeat, SharedDb};
use std::alloc::Global;
use std::sync::Wait;

/// A worker's lane before a phase.
fn lane_of<'a, K: Keeper, H: Hash32, R: Wait + Sync>(
    alloc: Global,
    rt: &'a R,
    db: &'a SharedDb<K, H>,
    worker: u16,
    seat: DbSeat<K, H>,
) -> Lane<AtDb<'a, K, H, R>>
    requires { IsSeatOf db.now seat }
    ensures { IsLaneFor (λ t. t.seat) (λ t. t.db.now) db.now worker seat result }
{
    Lane {
        worker,
        seat: AtDb::new(rt, db, seat),
        outcomes: Vec::new(alloc),
        clients: Vec::new(alloc),
        memory: false,
    }
}

/// Parts a seat among workers: each gets a lane, with the seat of its own number. The last one's seat has all further
/// numbers.
pub(crate) fn split_lanes<'a, K: Keeper, H: Hash32, R: Wait + Sync>(
    alloc: Global,
    rt: &'a R,
    db: &'a SharedDb<K, H>,
    seat: DbSeat<K, H>,
    workers: u16,
    lanes: &mut Vec<Lane<AtDb<'a, K, H, R>>>,
)
    requires seat { IsSeatOf db.now seat }
    requires lowest { seat.lowest ≡ 0 }
    requires some { (0 < workers) × (workers ≤ seat.end) }
    requires empty { lanes.old.items ≡ [] }
    requires room { workers ≤ vec_capacity lanes.old }
    ensures count { length lanes.new.items ≡ workers }
    ensures each { (k : ℕ) (d : _) → k < workers → IsLaneFor (λ t. t.seat) (λ t. t.db.now) db.now k
        (part_of workers k seat) (slice_index_or lanes.new.items k d) }
{
    let mut rest = seat;
    for next in 1..workers {
        let upper = db.split(&mut rest, next);
        lanes.push_reserved(lane_of(alloc, rt, db, next - 1, rest));
        rest = upper;
    }
    lanes.push_reserved(lane_of(alloc, rt, db, workers - 1, rest));
}
