ghost use Rattle.std.specs.Prelude.{◌≡◌, ◌≤◌};
ghost use Rattle.cd_update.specs.Pairing.{upto};

use cd_cell::ChildInfo;

/// What a cell without a level above the depth shows, by what a cell shows that matches it up to there.
pub(crate) fn info_upto(info: &ChildInfo, depth: u8) -> ChildInfo
    requires { depth ≤ 3 }
    ensures { result ≡ upto depth info.now }
{
    let one = depth.min(1);
    let two = depth.min(2);
    let three = depth.min(3);
    ChildInfo {
        mask: info.mask.apply(depth),
        hashes: [
            info.hash_at(0),
            info.hash_at(one),
            info.hash_at(two),
            info.hash_at(three),
        ],
        depths: [
            info.depth_at(0),
            info.depth_at(one),
            info.depth_at(two),
            info.depth_at(three),
        ],
    }
}
