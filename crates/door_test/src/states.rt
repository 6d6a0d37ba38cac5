// States that break one clause of well-formedness each, and some that break none.
use links::{Frame, Level, Links};
use machine::{LastThrow, Lines, Machine};

fn frame(r: usize) -> Frame {
    Frame {
        r,
        ..Frame::default()
    }
}

fn level(s: usize, p: usize) -> Level {
    Level {
        s,
        p,
        ..Level::default()
    }
}

// R = 4, S = 3 and E = 2, with these copies of R and of S from level 1 on, and this copy of P in the top exception level.
pub(crate) fn nested(rs: [usize; 3], ss: [usize; 2], p: usize) -> Machine {
    let mut machine = pointing(0, 4, 3, 2, 0);
    let mut links = machine.links;
    let mut frames = links.frames;
    let mut levels = links.levels;
    frames[1] = frame(rs[0]);
    frames[2] = frame(rs[1]);
    frames[3] = frame(rs[2]);
    levels[1] = level(ss[0], 0);
    levels[2] = level(ss[1], p);
    links.frames = frames;
    links.levels = levels;
    machine.links = links;
    machine
}

// A fresh machine but for these.
pub(crate) fn pointing(p: usize, r: usize, s: usize, e: usize, flag: u32) -> Machine {
    let mut links = Links::fresh();
    links.r = r;
    links.s = s;
    links.e = e;
    let mut machine = Machine::fresh();
    machine.p = p;
    machine.links = links;
    machine.flag = flag;
    machine
}

// A fresh machine but for what it notes of a throw: any two numbers will do.
pub(crate) fn noting(address: u32, code: u32) -> Machine {
    let thrown = LastThrow { address, code };
    let mut machine = Machine::fresh();
    machine.thrown = thrown;
    machine
}

// A fresh machine but for its interrupt lines.
pub(crate) fn lined(mask: u32, waiting: u32, block: u32) -> Machine {
    let lines = Lines {
        mask,
        waiting,
        block,
    };
    let mut machine = Machine::fresh();
    machine.lines = lines;
    machine
}
