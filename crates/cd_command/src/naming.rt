use cd_event::Who;

/// Whose the events of a command are that does no feed: the first task of the first worker.
pub const FIRST_TASK: Who = Who {
    phase: 0,
    worker: 0,
    task: 0,
};
