use crate::end::End;

/// How far a run comes by its words, its input and its output alone.
#[derive(Drop)]
pub enum Step {
    /// It has ended.
    Ended(End),
    /// The words ask about the database file at this path.
    Store(String),
}
