// Who may touch which byte: what fetches, loads and stores ask before they touch memory.
#![tactic(auto)]

mod bounds;
mod place;

pub use bounds::{barred, is_foreign};
pub use place::spot_of;

// The first of some bytes that may not be touched: one outside memory, or one in another's part.
#[derive(Clone, Copy, Debug, PartialEq, Eq)]
pub enum Bar {
    Outside,
    Foreign,
}

// Where a fetch or a store reaches: memory from this address, the own part from this address, the whole of this local of level S, the
// whole of this cell of level E, or the cells in view from this byte.
#[derive(Clone, Copy, Debug, PartialEq, Eq)]
pub enum Spot {
    Memory(usize),
    Own(usize),
    Local(usize),
    Cell(usize),
    View(usize),
}
