//! What holds of the machine, as contracts of functions that do nothing.
ghost use Rattle.cd_world.specs.Fitting.{FitsStay};
ghost use Rattle.cd_world.specs.Journals.{ReplayGoesOn, FollowingGoesOn, ToldReplayGoesOn, ToldFollowingGoesOn, TrailGoesOn, WorldIsReplayed, ToldFollow, StaysTidy};
ghost use Rattle.cd_world.specs.OldTrees.{OldTreeIsKnown};
ghost use Rattle.cd_world.specs.OneImage.{OneImage, OneWorld};
ghost use Rattle.cd_world.specs.Pinning.{PinStays, TreeStays};
ghost use Rattle.cd_world.specs.Preparing.{KnownOverStates, StaysClear, StandsForPrepared};
ghost use Rattle.cd_world.specs.Soundness.{StaysSound};
ghost use Rattle.cd_world.specs.ToldTrees.{ContentsTellTrees};

use cd_cell::Hash32;

/// Two journals, one after the other, are one journal: so a call that adds an entry takes its world on by a step.
pub fn a_journal_goes_on<H: Hash32>()
    ensures replay { ReplayGoesOn H }
    ensures follows { FollowingGoesOn H.digest_of H }
    ensures told_replay { ToldReplayGoesOn H.digest_of H }
    ensures told_follows { ToldFollowingGoesOn H.digest_of H }
    ensures trail { TrailGoesOn H.digest_of H }
{}

/// The world with its trees is the world: it moves alike, and what follows the one follows the other.
pub fn trees_change_no_answer_of_the_world<H: Hash32>()
    ensures world { WorldIsReplayed H.digest_of H }
    ensures follow { ToldFollow H.digest_of H }
{}

/// Whatever follows, a tidy world stays tidy.
pub fn a_tidy_world_stays_tidy<H: Hash32>()
    ensures { StaysTidy H.digest_of H }
{}

/// A block with a live pin stays, whatever follows but the end of that pin.
pub fn a_pinned_block_stays<H: Hash32>()
    ensures { PinStays H.digest_of H }
{}

/// And its tree never changes.
pub fn a_pinned_tree_stays<H: Hash32>()
    ensures { TreeStays H.digest_of H }
{}

/// What a keeper holds tells the blocks with their trees: no two sound worlds that differ in them have one image.
pub fn an_image_has_one_world<H: Hash32>()
    ensures image { OneImage H.digest_of }
    ensures contents { OneWorld H.digest_of }
{}

/// A value that was prepared over the trees of live pins fits over them as long as they are live.
pub fn a_fitting_value_still_fits<H: Hash32>()
    ensures { FitsStay H.digest_of H }
{}

/// Where each event is asked for as the calls ask it, a sound world stays sound.
pub fn a_sound_world_stays_sound<H: Hash32>()
    ensures { StaysSound H.digest_of H }
{}

/// Where a value clashes with nothing held, what is stored of it is the tree that was prepared.
pub fn a_stored_value_is_the_prepared_tree<H: Hash32>()
    ensures known { KnownOverStates H.digest_of }
    ensures clear { StaysClear H.digest_of }
    ensures stands { StandsForPrepared H.digest_of }
{}

/// What a sound world's descriptions tell of a merge's old tree is what that tree's root shows: so whether a value was
/// prepared over it is known without a tree.
pub fn a_world_knows_the_old_tree<H: Hash32>()
    ensures { OldTreeIsKnown H.digest_of }
{}

/// The trees that a keeper's contents tell, by unfolding the blocks' roots, are those of the world whose contents they
/// are.
pub fn contents_tell_the_trees<H: Hash32>()
    ensures { ContentsTellTrees H.digest_of }
{}
