//! What holds of all contents, as the contract of a function that does nothing.
ghost use Rattle.cd_restart.specs.Opened.{ScansExactly};

use cd_cell::Hash32;

/// Nothing is refused exactly of the contents of a sound world without pins; its blocks are then those described.
pub fn a_scan_is_exact<H: Hash32>()
    ensures { ScansExactly H.digest_of }
{}
