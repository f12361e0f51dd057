//! Looks of one hash, and what counts where a look gives no face.
#![tactic(auto)]

mod looking;

pub use looking::{face_or_empty, look_face, look_once};
