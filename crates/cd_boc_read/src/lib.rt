//! The reader of bags of cells: exactly the bags of the grammar, and else the first fault in the order of reading.
#![tactic(auto)]

mod bag_fault;
mod bag_text;
mod cell_text;
mod cells;
mod counts;
mod fields;
mod frame;
mod frame_text;
mod laws;
mod reading;
mod texts;

pub use bag_fault::BagFault;
pub use laws::{
    a_bag_has_one_list_of_trees, a_fault_holds, an_export_is_a_bag_of_its_tree, bags_have_no_fault,
};
pub use reading::read_bag;
