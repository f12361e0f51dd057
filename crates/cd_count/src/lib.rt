//! Exact reference counts of stored cells, changed cell by cell as blocks come and go.
#![tactic(auto)]

mod adding;
mod count_fault;
mod giving;
mod laws;
mod plan;
mod row_face;
mod rows;

pub use count_fault::CountFault;
pub use laws::{
    blocks_come_and_go, cells_are_nodes, counts_fall, counts_grow, new_cells_are_listed,
    plans_are_exact, plans_lead,
};
pub use plan::{Plan, plan_add, plan_drop};
