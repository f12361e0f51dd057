//! Names of shards and blocks, descriptions of stored blocks, and the rules of their lineage and expiry.
#![tactic(auto)]

mod ancestry;
mod block;
mod description;
mod expiry;
mod laws;
mod reading;
mod shard;
mod spelling;
mod writing;

pub use ancestry::{LineageFault, lineage};
pub use block::BlockId;
pub use description::{BlockIds, Descr, DescrFault};
pub use expiry::expires;
pub use laws::{
    a_key_has_one_id, a_spelling_has_one_id, a_text_has_one_description, ids_are_ordered_by_key,
};
pub use reading::decode_descr;
pub use shard::ShardId;
pub use spelling::{parse_id, print_id};
pub use writing::encode_descr;
