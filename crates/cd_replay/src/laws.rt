//! What a done feed makes of a core, as contracts of functions that do nothing.
ghost use Rattle.cd_replay.specs.Covered.{DoneCovers, DoneCoversTold, DoneLeavesFree, StoppedCovers, StoppedCoversTold};

use cd_cell::Hash32;
use cd_keeper::Keeper;

/// The journal of a core that began without entries, and did a feed, covers that feed.
pub fn a_done_feed_is_covered<K: Keeper, H: Hash32>()
    ensures by_pins { DoneCovers H.digest_of K.held K.faults H }
    ensures told { DoneCoversTold H.digest_of K.held K.faults H }
{}

/// Where memory ran out, it covers the feed so far.
pub fn a_stopped_feed_is_covered_so_far<K: Keeper, H: Hash32>()
    ensures by_pins { StoppedCovers H.digest_of K.held K.faults H }
    ensures told { StoppedCoversTold H.digest_of K.held K.faults H }
{}

/// Where the keeper failed no entry, a done feed leaves no pin, and no block that waits for the end of one.
pub fn a_done_feed_leaves_a_core_free<K: Keeper, H: Hash32>()
    ensures { DoneLeavesFree H.digest_of K.held K.trail K.batches K.faults H }
{}
