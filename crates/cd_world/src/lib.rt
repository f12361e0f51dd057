//! The model of the store: its plain data with the calls that tell them, and the definitions of worlds, held cells,
//! counts, images, and the one-thread machine.
#![tactic(auto)]

mod expiring;
mod finding;
mod laws;
mod limits;
mod world;

pub use expiring::{expired, is_expired};
pub use finding::{find_block, find_kept, is_pinned, is_same_id, pin_row, pins_of};
pub use laws::{
    a_fitting_value_still_fits, a_journal_goes_on, a_pinned_block_stays, a_pinned_tree_stays,
    a_sound_world_stays_sound, a_stored_value_is_the_prepared_tree, a_tidy_world_stays_tidy,
    a_world_knows_the_old_tree, an_image_has_one_world, contents_tell_the_trees,
    trees_change_no_answer_of_the_world,
};
pub use limits::MOST_PINS;
pub use world::{PinRow, Rows, Totals, World};
