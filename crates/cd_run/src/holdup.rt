use cd_event::Who;

/// Pause points for tests round each merge. They change no answer, and lie outside every turn.
pub trait Holdup: Sync {
    /// Before the merge of this task.
    fn before_merge(&self, who: Who);

    /// After the merge of this task, whatever it answered.
    fn after_merge(&self, who: Who);
}

/// No pause.
#[derive(Clone, Copy, Debug, PartialEq, Eq)]
pub struct NoHoldup;

impl Holdup for NoHoldup {
    fn before_merge(&self, _who: Who) {}

    fn after_merge(&self, _who: Who) {}
}
