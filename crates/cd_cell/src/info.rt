ghost use Rattle.std.specs.Prelude.{◌≡◌, ◌≤◌};
ghost use Rattle.cd_cell.specs.Infos.{info_hash, info_depth, rep_of_info, height_of_info};

use crate::Mask;
use cd_base::Hash256;

/// What a cell shows of itself to its parents: its mask, and its hash and depth at the levels 0 to 3.
/// At a level that isn't significant they are those of the level below.
#[derive(Clone, Copy, Debug, PartialEq, Eq)]
pub struct ChildInfo {
    /// The levels that are significant.
    pub mask: Mask,
    /// The hash at each level.
    pub hashes: [Hash256; 4],
    /// The depth at each level, at most 1024 in a well-formed cell.
    pub depths: [u16; 4],
}

impl ChildInfo {
    /// What stands where no child is: no level, and zeros.
    pub const NONE: ChildInfo = ChildInfo {
        mask: Mask::NONE,
        hashes: [Hash256([0; 32]); 4],
        depths: [0; 4],
    };

    /// The hash at a level.
    pub fn hash_at(&self, level: u8) -> Hash256
        requires { level ≤ 3 }
        ensures { result ≡ info_hash self.now level }
    {
        self.hashes[level as usize]
    }

    /// The depth at a level.
    pub fn depth_at(&self, level: u8) -> u16
        requires { level ≤ 3 }
        ensures { result ≡ info_depth self.now level }
    {
        self.depths[level as usize]
    }

    /// The hash at level 3, which is the key of a stored cell.
    pub fn rep(&self) -> Hash256
        ensures { result ≡ rep_of_info self.now }
    {
        self.hashes[3]
    }

    /// The depth at level 3.
    pub fn height(&self) -> u16
        ensures { result ≡ height_of_info self.now }
    {
        self.depths[3]
    }
}
