//! What holds of the entries of a feed, as contracts of functions that do nothing.
ghost use Rattle.cd_lanes.specs.NoPins.{LeavesFree};

use cd_cell::Hash32;

/// Where the keeper failed no entry, a feed that is done leaves no pin, and no block that waits for the end of one.
pub fn a_done_feed_leaves_no_pin<H: Hash32>()
    ensures { LeavesFree H.digest_of H }
{}
