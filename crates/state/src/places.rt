// How many bytes each part of a state takes, and where its own parts begin: each right after the one before it.
use links::{Frame, Level, Links};
use machine::{Machine, Tasks};

pub(crate) const CELL: usize = 4;

// A stack pointer or a copy of one.
pub(crate) const POINTER: usize = 8;

// A subroutine level: locals, copy of R, return address.
pub(crate) const FRAME_R: usize = Frame::LOCALS * CELL;

pub(crate) const FRAME_ADDRESS: usize = FRAME_R + POINTER;

pub(crate) const FRAME: usize = FRAME_ADDRESS + CELL;

// An exception level: cells, copies of S and of P, throw address.
pub(crate) const LEVEL_S: usize = Level::CELLS * CELL;

pub(crate) const LEVEL_P: usize = LEVEL_S + POINTER;

pub(crate) const LEVEL_ADDRESS: usize = LEVEL_P + POINTER;

pub(crate) const LEVEL: usize = LEVEL_ADDRESS + CELL;

// The linked stacks: return cells, R, frames, S, exception levels, E.
pub(crate) const LINKS_R: usize = Links::RETURNS * CELL;

pub(crate) const LINKS_FRAMES: usize = LINKS_R + POINTER;

pub(crate) const LINKS_S: usize = LINKS_FRAMES + Links::FRAMES * FRAME;

pub(crate) const LINKS_LEVELS: usize = LINKS_S + POINTER;

pub(crate) const LINKS_E: usize = LINKS_LEVELS + Links::LEVELS * LEVEL;

pub(crate) const LINKS: usize = LINKS_E + POINTER;

// The machine: parameter cells, P, linked stacks, counter, flag, address and code of the last THROW, interrupt lines.
pub(crate) const STATE_P: usize = Machine::CELLS * CELL;

pub(crate) const STATE_LINKS: usize = STATE_P + POINTER;

pub(crate) const STATE_COUNTER: usize = STATE_LINKS + LINKS;

pub(crate) const STATE_FLAG: usize = STATE_COUNTER + CELL;

pub(crate) const STATE_THROWN_ADDRESS: usize = STATE_FLAG + CELL;

pub(crate) const STATE_THROWN_CODE: usize = STATE_THROWN_ADDRESS + CELL;

pub const MASK: usize = STATE_THROWN_CODE + CELL;

pub const WAITING: usize = MASK + CELL;

pub(crate) const STATE_BLOCK: usize = WAITING + CELL;

pub const SIZE: usize = STATE_BLOCK + CELL;

// A task: its machine, the number that it keeps.
pub(crate) const TASK_KEPT: usize = SIZE;

pub(crate) const TASK: usize = TASK_KEPT + POINTER;

// Four tasks, one after the other.
pub const TASKS: usize = Tasks::COUNT * TASK;

// What a run counted and the memory sum that it hands back: answer, steps, cycles, sum, each as wide as a pointer.
pub(crate) const RESULT_ANSWER: usize = 0;

pub(crate) const RESULT_STEPS: usize = RESULT_ANSWER + POINTER;

pub(crate) const RESULT_CYCLES: usize = RESULT_STEPS + POINTER;

pub(crate) const RESULT_SUM: usize = RESULT_CYCLES + POINTER;

pub const RESULT: usize = RESULT_SUM + POINTER;
