// The limits of a run of tasks: request P1.
use crate::Tasks;

impl Tasks {
    pub const COUNT: usize = 4;

    // The number that a ready task keeps: the answer of a run that can go on.
    pub const READY: usize = 1;

    // The most steps of a turn.
    pub const QUANTUM: u32 = 1000;

    // The bytes that all tasks share, and those of each task's own part above them.
    pub const SHARED: usize = 16384;

    pub const PART: usize = 4096;
}
