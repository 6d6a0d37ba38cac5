// The subroutine and the exception levels as the loop has them: a row of numbers for each level, its cells and its address; in a row
// behind them the last THROW, what the memory lost, the interrupt lines, and registers while they are parked; and the copies of R, S and P beside.
// Each further array costs a turn four to six instructions (docs/DECISIONS.md).
#![tactic(auto, using(crate::proofs::Rows::rows), unfolding(run_words::specs::Levels::note_in, run_words::specs::Levels::parked_in))]

ghost use Rattle.std.specs.Prelude.{◌≡◌, ℕ, ◌+◌, ◌*◌, ◌%◌, ◌^◌, ◌<◌, List, slice_index_or, slice_set};
ghost use Rattle.numbers.specs.Bytes.{number_at, bytes_of};
ghost use Rattle.links.specs.Actions.{called_frame};
ghost use Rattle.links.specs.Depths.{frames_count, levels_count, locals_count, level_cells, subroutines_depth, exceptions_depth};
ghost use Rattle.links.specs.Linked.{no_frame, no_level, copy_of_r, copy_of_s, copy_of_p};
ghost use Rattle.machine.specs.View.{bytes_of_cells, overwritten};
ghost use Rattle.machine.specs.Lines.{released};
ghost use Rattle.run_words.specs.Levels.{frames_in, levels_in, note_in, seen_in, parked_in, Laid, Hold, Parks, Keep};
ghost use Rattle.run_words.specs.Calm.{held_in};
ghost use Rattle.run_words.specs.Notes.{with_thrown, with_lost, with_lines, heeding};

use links::{Frame, Level, Links};
use machine::{Cycles, LastThrow, Lines, Steps};
use run_words::Registers;

// The row behind those of the subroutine levels and of the exception levels.
const NOTE: usize = Links::FRAMES + Links::LEVELS;

pub const ROWS: usize = NOTE + 1;

// 16 locals or 8 cells, and the address at the row's end.
pub const ROW: usize = Frame::LOCALS + 1;

// The copies of R, then those of S, then those of P: 51, and room up to a power of two, so that a task's place is found by a shift. The
// last four places take P, R, S and E while they are parked.
pub const COPIES: usize = 64;

pub fn copy_of_r(copies: &[usize; COPIES], s: usize) -> usize
    requires { s < frames_count }
    ensures { (rows : List (List ℕ)) → result ≡ copy_of_r (frames_in rows copies.now) s }
{
    copies[s]
}

pub fn copy_of_s(copies: &[usize; COPIES], e: usize) -> usize
    requires { e < levels_count }
    ensures { (rows : List (List ℕ)) → result ≡ copy_of_s (levels_in rows copies.now) e }
{
    copies[Links::FRAMES + e]
}

pub fn copy_of_p(copies: &[usize; COPIES], e: usize) -> usize
    requires { e < levels_count }
    ensures { (rows : List (List ℕ)) → result ≡ copy_of_p (levels_in rows copies.now) e }
{
    copies[Links::FRAMES + Links::LEVELS + e]
}

pub fn return_address(rows: &[[u32; ROW]; ROWS], s: usize) -> u32
    requires { s < frames_count }
    ensures { (copies : List ℕ) → result ≡ (slice_index_or (frames_in rows.now copies) s no_frame).address }
{
    rows[s][Frame::LOCALS]
}

pub fn throw_address(rows: &[[u32; ROW]; ROWS], e: usize) -> u32
    requires { e < levels_count }
    ensures { (copies : List ℕ) → result ≡ (slice_index_or (levels_in rows.now copies) e no_level).address }
{
    rows[Links::FRAMES + e][Frame::LOCALS]
}

pub fn noted(rows: &[[u32; ROW]; ROWS]) -> LastThrow
    ensures { result ≡ (note_in rows.now).aside.thrown }
{
    LastThrow {
        address: rows[NOTE][0],
        code: rows[NOTE][1],
    }
}

// In the registers it would cost a step one or two instructions, and a turn fifteen (docs/SPEED.md).
pub fn note(rows: &mut [[u32; ROW]; ROWS], address: u32, code: u32)
    ensures { (copies : List ℕ) → Laid rows.old copies → Hold rows.new copies (frames_in rows.old copies) (levels_in rows.old copies) (with_thrown (record { address = address; code = code }) (note_in rows.old)) }
{
    rows[NOTE][0] = address;
    rows[NOTE][1] = code;
}

// What the memory lost by the stores of the machine whose rows these are, modulo 2^32.
pub fn lost(rows: &[[u32; ROW]; ROWS]) -> u32
    ensures { result ≡ (note_in rows.now).lost }
{
    rows[NOTE][2]
}

// It lost so much more. Here too a register would cost every step (docs/SPEED.md).
pub fn lose(rows: &mut [[u32; ROW]; ROWS], more: u32)
    ensures { (copies : List ℕ) → Laid rows.old copies → Hold rows.new copies (frames_in rows.old copies) (levels_in rows.old copies) (with_lost (((note_in rows.old).lost + more) % 2 ^ 32) (note_in rows.old)) }
{
    rows[NOTE][2] = rows[NOTE][2].wrapping_add(more);
}

// The interrupt lines.
pub fn lines(rows: &[[u32; ROW]; ROWS]) -> Lines
    ensures { result ≡ (note_in rows.now).aside.lines }
{
    Lines {
        mask: rows[NOTE][3],
        waiting: rows[NOTE][4],
        block: rows[NOTE][5],
    }
}

pub fn set_lines(rows: &mut [[u32; ROW]; ROWS], lines: Lines)
    ensures { (copies : List ℕ) → Laid rows.old copies → Hold rows.new copies (frames_in rows.old copies) (levels_in rows.old copies) (with_lines lines (note_in rows.old)) }
{
    rows[NOTE][3] = lines.mask;
    rows[NOTE][4] = lines.waiting;
    rows[NOTE][5] = lines.block;
}

pub fn block(rows: &[[u32; ROW]; ROWS]) -> u32
    ensures { result ≡ (note_in rows.now).aside.lines.block }
{
    rows[NOTE][5]
}

pub fn release(rows: &mut [[u32; ROW]; ROWS])
    ensures { (copies : List ℕ) → Laid rows.old copies → Hold rows.new copies (frames_in rows.old copies) (levels_in rows.old copies) (with_lines (released (note_in rows.old).aside.lines) (note_in rows.old)) }
{
    rows[NOTE][5] = 0;
}

// Whether a line might enter in this run: it is noted once, since the loop asks often.
pub fn heed(rows: &mut [[u32; ROW]; ROWS])
    ensures { (copies : List ℕ) → Laid rows.old copies → Hold rows.new copies (frames_in rows.old copies) (levels_in rows.old copies) (heeding (note_in rows.old)) }
{
    rows[NOTE][6] = 1;
}

// A line might enter: one is heeded, and no routine is in progress. Where no line can be raised, nothing is looked up.
pub fn held(rows: &[[u32; ROW]; ROWS], lines: bool) -> bool
    ensures { result ≡ held_in lines (note_in rows.now).heeds (note_in rows.now).aside.lines }
{
    if lines {
        if rows[NOTE][6] == 0 {
            return false;
        }
        return rows[NOTE][5] == 0;
    }
    false
}

// The registers are parked between two stretches of a run, in the same row and behind the copies: as variables they would take the
// processor's own registers from the loop (docs/SPEED.md).
pub fn park(rows: &mut [[u32; ROW]; ROWS], copies: &mut [usize; COPIES], regs: Registers)
    ensures { Laid rows.old copies.old → Parks rows.old copies.old regs rows.new copies.new }
{
    let mut row = rows[NOTE];
    row[7] = regs.counter;
    row[8] = regs.flag;
    row[9] = regs.left.0;
    row[10] = regs.cycles.0;
    row[11] = regs.answer;
    row[12] = regs.unspent.0;
    rows[NOTE] = row;
    copies[60] = regs.p;
    copies[61] = regs.r;
    copies[62] = regs.s;
    copies[63] = regs.e;
}

pub fn parked(rows: &[[u32; ROW]; ROWS], copies: &[usize; COPIES]) -> Registers
    ensures { result ≡ parked_in rows.now copies.now }
{
    Registers {
        p: copies[60],
        r: copies[61],
        s: copies[62],
        e: copies[63],
        counter: rows[NOTE][7],
        flag: rows[NOTE][8],
        left: Steps(rows[NOTE][9]),
        cycles: Cycles(rows[NOTE][10]),
        answer: rows[NOTE][11],
        unspent: Steps(rows[NOTE][12]),
        again: false,
    }
}

// What is left of the budget between two stretches.
pub fn left(rows: &[[u32; ROW]; ROWS]) -> u32
    ensures { (copies : List ℕ) → result ≡ (parked_in rows.now copies).left.0 }
{
    rows[NOTE][9]
}

// A cell is four bytes in view.
pub fn local(rows: &[[u32; ROW]; ROWS], s: usize, k: usize) -> u32
    requires { (s < frames_count) × (k < locals_count) }
    ensures { (copies : List ℕ) (e : ℕ) → e < levels_count → Laid rows.now copies → result ≡ number_at 4 (bytes_of_cells (seen_in rows.now copies s e)) (4 * k) }
{
    rows[s][k]
}

pub fn cell(rows: &[[u32; ROW]; ROWS], e: usize, k: usize) -> u32
    requires { (e < levels_count) × (k < level_cells) }
    ensures { (copies : List ℕ) (s : ℕ) → s < frames_count → Laid rows.now copies → result ≡ number_at 4 (bytes_of_cells (seen_in rows.now copies s e)) (4 * (locals_count + k)) }
{
    rows[Links::FRAMES + e][k]
}

pub fn set_local(rows: &mut [[u32; ROW]; ROWS], s: usize, k: usize, value: u32)
    requires { (s < frames_count) × (k < locals_count) }
    ensures { (copies : List ℕ) (e : ℕ) → e < levels_count → Laid rows.old copies → Keep rows.old rows.new copies s e (overwritten (seen_in rows.old copies s e) (4 * k) (bytes_of 4 value)) }
{
    rows[s][k] = value;
}

pub fn set_cell(rows: &mut [[u32; ROW]; ROWS], e: usize, k: usize, value: u32)
    requires { (e < levels_count) × (k < level_cells) }
    ensures { (copies : List ℕ) (s : ℕ) → s < frames_count → Laid rows.old copies → Keep rows.old rows.new copies s e (overwritten (seen_in rows.old copies s e) (4 * (locals_count + k)) (bytes_of 4 value)) }
{
    rows[Links::FRAMES + e][k] = value;
}

// A call makes level s + 1.
pub fn called(
    rows: &mut [[u32; ROW]; ROWS],
    copies: &mut [usize; COPIES],
    r: usize,
    s: usize,
    address: u32,
)
    requires { s < subroutines_depth }
    ensures { Laid rows.old copies.old → Hold rows.new copies.new (slice_set (frames_in rows.old copies.old) (s + 1) (called_frame r address)) (levels_in rows.old copies.old) (note_in rows.old) }
{
    let mut row = [0u32; ROW];
    row[Frame::LOCALS] = address;
    rows[s + 1] = row;
    copies[s + 1] = r;
}

// A CATCH makes level e + 1, with the cells of level e.
pub fn caught(
    rows: &mut [[u32; ROW]; ROWS],
    copies: &mut [usize; COPIES],
    e: usize,
    s: usize,
    p: usize,
    address: u32,
)
    requires { e < exceptions_depth }
    ensures { Laid rows.old copies.old → Hold rows.new copies.new (frames_in rows.old copies.old) (slice_set (levels_in rows.old copies.old) (e + 1) (record { cells = (slice_index_or (levels_in rows.old copies.old) e no_level).cells; s = s; p = p; address = address })) (note_in rows.old) }
{
    let mut row = rows[Links::FRAMES + e];
    row[Frame::LOCALS] = address;
    rows[Links::FRAMES + e + 1] = row;
    copies[Links::FRAMES + e + 1] = s;
    copies[Links::FRAMES + Links::LEVELS + e + 1] = p;
}
