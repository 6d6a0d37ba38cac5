// A machine's levels, its last THROW and its interrupt lines taken apart into the rows that the loop is lent, and a machine put together again.
ghost use Rattle.std.specs.Prelude.{◌≡◌, ◌<◌, ◌≤◌, ◌++◌, length, take, drop, slice_index_or, slice_set};
ghost use Rattle.plain.specs.All.{All};
ghost use Rattle.links.specs.Depths.{frames_count, levels_count};
ghost use Rattle.links.specs.Fits.{CellFits};
ghost use Rattle.links.specs.Linked.{no_frame, no_level};
ghost use Rattle.run_words.specs.Levels.{frames_in, levels_in, note_in, in_rows, pointers_of, pointers_in, Laid, Hold};
ghost use Rattle.run_words.specs.Notes.{with_thrown, with_lines};

use crate::linked;
use links::{Frame, Level, Links};
use machine::{LastThrow, Lines, Machine};
use run_words::{Pointers, Registers};

// So many numbers from the front of one list to the front of another.
fn copy_front(from: &[u32], to: &mut [u32], count: usize)
    requires { (count ≤ length from.now) × (count ≤ length to.old) }
    ensures { (to.new ≡ take count from.now ++ drop count to.old) × All CellFits (take count from.now) }
{
    to[..count].copy_from_slice(&from[..count]);
}

// A frame and a level have other fields, and stand in other rows and beside other copies: one function for both would
// be a trait whose methods are the four functions below.
fn put_frame(
    rows: &mut [[u32; linked::ROW]; linked::ROWS],
    copies: &mut [usize; linked::COPIES],
    n: usize,
    frame: Frame,
)
    requires { (n < frames_count) × Laid rows.old copies.old }
    ensures { Hold rows.new copies.new (slice_set (frames_in rows.old copies.old) n frame) (levels_in rows.old copies.old) (note_in rows.old) }
{
    copy_front(&frame.locals, &mut rows[n], Frame::LOCALS);
    rows[n][Frame::LOCALS] = frame.address;
    copies[n] = frame.r;
}

fn put_level(
    rows: &mut [[u32; linked::ROW]; linked::ROWS],
    copies: &mut [usize; linked::COPIES],
    n: usize,
    level: Level,
)
    requires { (n < levels_count) × Laid rows.old copies.old }
    ensures { Hold rows.new copies.new (frames_in rows.old copies.old) (slice_set (levels_in rows.old copies.old) n level) (note_in rows.old) }
{
    copy_front(&level.cells, &mut rows[Links::FRAMES + n], Level::CELLS);
    rows[Links::FRAMES + n][Frame::LOCALS] = level.address;
    copies[Links::FRAMES + n] = level.s;
    copies[Links::FRAMES + Links::LEVELS + n] = level.p;
}

fn frame_at(
    rows: &[[u32; linked::ROW]; linked::ROWS],
    copies: &[usize; linked::COPIES],
    n: usize,
) -> Frame
    requires { (n < frames_count) × Laid rows.now copies.now }
    ensures { result ≡ slice_index_or (frames_in rows.now copies.now) n no_frame }
{
    let mut locals = [0u32; Frame::LOCALS];
    locals.copy_from_slice(&rows[n][..Frame::LOCALS]);
    Frame {
        locals,
        r: copies[n],
        address: rows[n][Frame::LOCALS],
    }
}

fn level_at(
    rows: &[[u32; linked::ROW]; linked::ROWS],
    copies: &[usize; linked::COPIES],
    n: usize,
) -> Level
    requires { (n < levels_count) × Laid rows.now copies.now }
    ensures { result ≡ slice_index_or (levels_in rows.now copies.now) n no_level }
{
    let mut cells = [0u32; Level::CELLS];
    cells.copy_from_slice(&rows[Links::FRAMES + n][..Level::CELLS]);
    Level {
        cells,
        s: copies[Links::FRAMES + n],
        p: copies[Links::FRAMES + Links::LEVELS + n],
        address: rows[Links::FRAMES + n][Frame::LOCALS],
    }
}

pub fn apart(
    links: Links,
    thrown: LastThrow,
    lines: Lines,
    rows: &mut [[u32; linked::ROW]; linked::ROWS],
    copies: &mut [usize; linked::COPIES],
)
    requires { Laid rows.old copies.old }
    ensures { Hold rows.new copies.new links.frames links.levels (with_lines lines (with_thrown thrown (note_in rows.old))) }
{
    let frames = links.frames;
    for s in 0..Links::FRAMES {
        put_frame(rows, copies, s, frames[s]);
    }
    let levels = links.levels;
    for e in 0..Links::LEVELS {
        put_level(rows, copies, e, levels[e]);
    }
    linked::note(rows, thrown.address, thrown.code);
    linked::set_lines(rows, lines);
}

pub fn pointers(machine: Machine) -> Pointers
    ensures { result ≡ pointers_of machine }
{
    let links = machine.links;
    Pointers {
        p: machine.p,
        r: links.r,
        s: links.s,
        e: links.e,
        counter: machine.counter,
        flag: machine.flag,
    }
}

pub fn left_in(regs: Registers) -> Pointers
    ensures { result ≡ pointers_in regs }
{
    Pointers {
        p: regs.p,
        r: regs.r,
        s: regs.s,
        e: regs.e,
        counter: regs.counter,
        flag: regs.flag,
    }
}

// A `for` in these two and no `from_fn`, by which the levels would stand once more on the stack (GLIDECOTTON_STACK bounds it).
fn frames_whole(
    rows: &[[u32; linked::ROW]; linked::ROWS],
    copies: &[usize; linked::COPIES],
) -> [Frame; Links::FRAMES]
    requires { Laid rows.now copies.now }
    ensures { result ≡ frames_in rows.now copies.now }
{
    let mut frames = [Frame::default(); Links::FRAMES];
    for s in 0..Links::FRAMES {
        frames[s] = frame_at(rows, copies, s);
    }
    frames
}

fn levels_whole(
    rows: &[[u32; linked::ROW]; linked::ROWS],
    copies: &[usize; linked::COPIES],
) -> [Level; Links::LEVELS]
    requires { Laid rows.now copies.now }
    ensures { result ≡ levels_in rows.now copies.now }
{
    let mut levels = [Level::default(); Links::LEVELS];
    for e in 0..Links::LEVELS {
        levels[e] = level_at(rows, copies, e);
    }
    levels
}

pub fn whole(
    cells: &[u32; Machine::CELLS],
    returns: &[u32; Machine::RETURNS],
    rows: &[[u32; linked::ROW]; linked::ROWS],
    copies: &[usize; linked::COPIES],
    at: Pointers,
) -> Machine
    requires { Laid rows.now copies.now }
    ensures { result ≡ in_rows cells.now returns.now rows.now copies.now at }
{
    let frames = frames_whole(rows, copies);
    let levels = levels_whole(rows, copies);
    let links = Links {
        returns: *returns,
        r: at.r,
        frames,
        s: at.s,
        levels,
        e: at.e,
    };
    let thrown = linked::noted(rows);
    let lines = linked::lines(rows);
    Machine {
        cells: *cells,
        p: at.p,
        links,
        counter: at.counter,
        flag: at.flag,
        thrown,
        lines,
    }
}
