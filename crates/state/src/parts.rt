// The parts of a machine, each field where the one before it ends.
ghost use Rattle.std.specs.Prelude.{refl};
ghost use Rattle.state.specs.Layout as layout;

use crate::places;
use crate::stored::{self, Stored};
use links::{Frame, Level, Links};
use machine::{LastThrow, Lines, Machine};

impl Stored for u32 {
    ghost part = { layout.cell };

    ghost WIDTH = { (layout.cell).width };

    const WIDTH: usize = places::CELL;

    // The place is inside, so that there is a number.
    fn read(state: &[u8], at: usize) -> u32 {
        numbers::read::<u32>(state, at).unwrap()
    }

    fn put(&self, state: &mut [u8], at: usize) {
        numbers::write::<u32>(state, at, *self as u64).unwrap();
    }

    ghost as_wide = { refl };
}

impl Stored for usize {
    ghost part = { layout.pointer };

    ghost WIDTH = { (layout.pointer).width };

    const WIDTH: usize = places::POINTER;

    // The place is inside, as a cell's is.
    fn read(state: &[u8], at: usize) -> usize {
        numbers::read::<u64>(state, at).unwrap() as usize
    }

    fn put(&self, state: &mut [u8], at: usize) {
        numbers::write::<u64>(state, at, *self as u64).unwrap();
    }

    ghost as_wide = { refl };
}

impl Stored for Frame {
    ghost part = { layout.frame };

    ghost WIDTH = { (layout.frame).width };

    const WIDTH: usize = places::FRAME;

    fn read(state: &[u8], at: usize) -> Frame {
        let mut locals = [0u32; Frame::LOCALS];
        stored::fill(state, at, &mut locals);
        let r = usize::read(state, at + places::FRAME_R);
        let address = u32::read(state, at + places::FRAME_ADDRESS);
        Frame { locals, r, address }
    }

    fn put(&self, state: &mut [u8], at: usize) {
        stored::put_all(state, at, &self.locals);
        self.r.put(state, at + places::FRAME_R);
        self.address.put(state, at + places::FRAME_ADDRESS);
    }

    ghost as_wide = { refl };
}

impl Stored for Level {
    ghost part = { layout.level };

    ghost WIDTH = { (layout.level).width };

    const WIDTH: usize = places::LEVEL;

    fn read(state: &[u8], at: usize) -> Level {
        let mut cells = [0u32; Level::CELLS];
        stored::fill(state, at, &mut cells);
        let s = usize::read(state, at + places::LEVEL_S);
        let p = usize::read(state, at + places::LEVEL_P);
        let address = u32::read(state, at + places::LEVEL_ADDRESS);
        Level {
            cells,
            s,
            p,
            address,
        }
    }

    fn put(&self, state: &mut [u8], at: usize) {
        stored::put_all(state, at, &self.cells);
        self.s.put(state, at + places::LEVEL_S);
        self.p.put(state, at + places::LEVEL_P);
        self.address.put(state, at + places::LEVEL_ADDRESS);
    }

    ghost as_wide = { refl };
}

impl Stored for Links {
    ghost part = { layout.links };

    ghost WIDTH = { (layout.links).width };

    const WIDTH: usize = places::LINKS;

    fn read(state: &[u8], at: usize) -> Links {
        // The frames first, and not into those of fresh links, which would stand on the stack beside these (docs/DECISIONS.md).
        let mut frames = [Frame::default(); Links::FRAMES];
        stored::fill(state, at + places::LINKS_FRAMES, &mut frames);
        let mut returns = [0u32; Links::RETURNS];
        stored::fill(state, at, &mut returns);
        let r = usize::read(state, at + places::LINKS_R);
        let s = usize::read(state, at + places::LINKS_S);
        let mut levels = [Level::default(); Links::LEVELS];
        stored::fill(state, at + places::LINKS_LEVELS, &mut levels);
        let e = usize::read(state, at + places::LINKS_E);
        Links {
            returns,
            r,
            frames,
            s,
            levels,
            e,
        }
    }

    fn put(&self, state: &mut [u8], at: usize) {
        stored::put_all(state, at, &self.returns);
        self.r.put(state, at + places::LINKS_R);
        stored::put_all(state, at + places::LINKS_FRAMES, &self.frames);
        self.s.put(state, at + places::LINKS_S);
        stored::put_all(state, at + places::LINKS_LEVELS, &self.levels);
        self.e.put(state, at + places::LINKS_E);
    }

    ghost as_wide = { refl };
}

impl Stored for Machine {
    ghost part = { layout.state };

    ghost WIDTH = { (layout.state).width };

    const WIDTH: usize = places::SIZE;

    fn read(state: &[u8], at: usize) -> Machine {
        let mut cells = [0u32; Machine::CELLS];
        stored::fill(state, at, &mut cells);
        let p = usize::read(state, at + places::STATE_P);
        let counter = u32::read(state, at + places::STATE_COUNTER);
        let flag = u32::read(state, at + places::STATE_FLAG);
        let address = u32::read(state, at + places::STATE_THROWN_ADDRESS);
        let code = u32::read(state, at + places::STATE_THROWN_CODE);
        let thrown = LastThrow { address, code };
        let mask = u32::read(state, at + places::MASK);
        let waiting = u32::read(state, at + places::WAITING);
        let block = u32::read(state, at + places::STATE_BLOCK);
        let lines = Lines {
            mask,
            waiting,
            block,
        };
        // The linked stacks last (docs/DECISIONS.md).
        let links = Links::read(state, at + places::STATE_LINKS);
        Machine {
            cells,
            p,
            links,
            counter,
            flag,
            thrown,
            lines,
        }
    }

    fn put(&self, state: &mut [u8], at: usize) {
        // taken out first: where they are read inside the machine, the reader's library copies them in by memcpy, which it does without
        let cells = self.cells;
        stored::put_all(state, at, &cells);
        self.p.put(state, at + places::STATE_P);
        self.links.put(state, at + places::STATE_LINKS);
        self.counter.put(state, at + places::STATE_COUNTER);
        self.flag.put(state, at + places::STATE_FLAG);
        let thrown = &self.thrown;
        thrown.address.put(state, at + places::STATE_THROWN_ADDRESS);
        thrown.code.put(state, at + places::STATE_THROWN_CODE);
        let lines = &self.lines;
        lines.mask.put(state, at + places::MASK);
        lines.waiting.put(state, at + places::WAITING);
        lines.block.put(state, at + places::STATE_BLOCK);
    }

    ghost as_wide = { refl };
}
