/// Who makes an event: a task of a worker, in a phase. Each is a place, counted from 0.
#[derive(Clone, Copy, Debug, PartialEq, Eq)]
pub struct Who {
    pub phase: u16,
    pub worker: u16,
    pub task: u16,
}

/// Which of a known worker's tasks makes an event.
#[derive(Clone, Copy, Debug, PartialEq, Eq)]
pub struct At {
    pub phase: u16,
    pub task: u16,
}
