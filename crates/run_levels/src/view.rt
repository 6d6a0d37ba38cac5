// The cells in view as bytes: the cells in which an access lies are spelled in bytes, which are read and written as memory's are.
ghost use Rattle.std.specs.Prelude.{◌≡◌, ℕ, ◌+◌, ◌*◌, ◌<◌, ◌≤◌, List, ◌++◌, length};
ghost use Rattle.numbers.specs.Bytes.{number_at, bytes_of};
ghost use Rattle.links.specs.Depths.{frames_count, levels_count};
ghost use Rattle.machine.specs.Memory.{size};
ghost use Rattle.machine.specs.View.{bytes_of_cells, overwritten};
ghost use Rattle.reach.specs.Spots.{width_of};
ghost use Rattle.run_words.specs.Levels.{view_cells, seen_in, Laid, Keep};

use crate::linked;
use links::{Frame, Level};
use run_memory::memory;

// The last cell that has another after it.
const LAST_BUT_ONE: usize = Frame::LOCALS + Level::CELLS - 2;

// The first of the two cells: no access has more than four bytes.
fn first_of(at: usize) -> usize
    ensures { (result + 1 < view_cells) × ((4 * result ≤ at) × ((size : ℕ) → size ≤ 4 → at + size ≤ 4 * view_cells → at + size ≤ 4 * result + 8)) }
{
    if at < 4 * LAST_BUT_ONE {
        return at / 4;
    }
    LAST_BUT_ONE
}

// The locals of level S are the first of the cells in view.
fn cell_at(rows: &[[u32; linked::ROW]; linked::ROWS], s: usize, e: usize, n: usize) -> u32
    requires { (s < frames_count) × ((e < levels_count) × (n < view_cells)) }
    ensures { (copies : List ℕ) → Laid rows.now copies → result ≡ number_at 4 (bytes_of_cells (seen_in rows.now copies s e)) (4 * n) }
{
    if n < Frame::LOCALS {
        return linked::local(rows, s, n);
    }
    linked::cell(rows, e, n - Frame::LOCALS)
}

fn set_cell_at(
    rows: &mut [[u32; linked::ROW]; linked::ROWS],
    s: usize,
    e: usize,
    n: usize,
    value: u32,
)
    requires { (s < frames_count) × ((e < levels_count) × (n < view_cells)) }
    ensures { (copies : List ℕ) → Laid rows.old copies → Keep rows.old rows.new copies s e (overwritten (seen_in rows.old copies s e) (4 * n) (bytes_of 4 value)) }
{
    if n < Frame::LOCALS {
        linked::set_local(rows, s, n, value);
        return;
    }
    linked::set_cell(rows, e, n - Frame::LOCALS, value);
}

fn put_pair(bytes: &mut [u8], first: u32, second: u32)
    requires { length bytes.old ≡ 8 }
    ensures { bytes.new ≡ bytes_of 4 first ++ bytes_of 4 second }
{
    let _ = numbers::write::<u32>(bytes, 0, first as u64);
    let _ = numbers::write::<u32>(bytes, 4, second as u64);
}

fn read_two_cells(
    rows: &[[u32; linked::ROW]; linked::ROWS],
    s: usize,
    e: usize,
    at: usize,
    code: u8,
) -> u32
    requires { (s < frames_count) × ((e < levels_count) × (at + size (width_of code) ≤ 4 * view_cells)) }
    ensures { (copies : List ℕ) → Laid rows.now copies → result ≡ number_at (size (width_of code)) (bytes_of_cells (seen_in rows.now copies s e)) at }
{
    let n = first_of(at);
    let first = cell_at(rows, s, e, n);
    let second = cell_at(rows, s, e, n + 1);
    let mut bytes = [0u8; 8];
    put_pair(&mut bytes, first, second);
    memory::read_number(&bytes, at - 4 * n, code)
}

fn write_two_cells(
    rows: &mut [[u32; linked::ROW]; linked::ROWS],
    s: usize,
    e: usize,
    at: usize,
    code: u8,
    value: u32,
)
    requires { (s < frames_count) × ((e < levels_count) × (at + size (width_of code) ≤ 4 * view_cells)) }
    ensures { (copies : List ℕ) → Laid rows.old copies → Keep rows.old rows.new copies s e (overwritten (seen_in rows.old copies s e) at (bytes_of (size (width_of code)) value)) }
{
    let n = first_of(at);
    let first = cell_at(rows, s, e, n);
    let second = cell_at(rows, s, e, n + 1);
    let mut bytes = [0u8; 8];
    put_pair(&mut bytes, first, second);
    memory::write_number(&mut bytes, at - 4 * n, code, value);
    let first_after = memory::read::<4>(&bytes, 0);
    let second_after = memory::read::<4>(&bytes, 4);
    set_cell_at(rows, s, e, n, first_after);
    set_cell_at(rows, s, e, n + 1, second_after);
}

// A byte lies in one cell.
fn read_byte(rows: &[[u32; linked::ROW]; linked::ROWS], s: usize, e: usize, at: usize) -> u32
    requires { (s < frames_count) × ((e < levels_count) × (at < 4 * view_cells)) }
    ensures { (copies : List ℕ) → Laid rows.now copies → result ≡ number_at 1 (bytes_of_cells (seen_in rows.now copies s e)) at }
{
    let mut bytes = [0u8; 4];
    let _ = numbers::write::<u32>(&mut bytes, 0, cell_at(rows, s, e, at / 4) as u64);
    memory::read::<1>(&bytes, at % 4)
}

fn write_byte(
    rows: &mut [[u32; linked::ROW]; linked::ROWS],
    s: usize,
    e: usize,
    at: usize,
    value: u32,
)
    requires { (s < frames_count) × ((e < levels_count) × (at < 4 * view_cells)) }
    ensures { (copies : List ℕ) → Laid rows.old copies → Keep rows.old rows.new copies s e (overwritten (seen_in rows.old copies s e) at (bytes_of 1 value)) }
{
    let mut bytes = [0u8; 4];
    let _ = numbers::write::<u32>(&mut bytes, 0, cell_at(rows, s, e, at / 4) as u64);
    let _ = numbers::write::<u8>(&mut bytes, at % 4, value as u64);
    set_cell_at(rows, s, e, at / 4, memory::read::<4>(&bytes, 0));
}

// By the width that the code of a fetch names.
pub fn read_in_view(
    rows: &[[u32; linked::ROW]; linked::ROWS],
    s: usize,
    e: usize,
    at: usize,
    code: u8,
) -> u32
    requires { (s < frames_count) × ((e < levels_count) × (at + size (width_of code) ≤ 4 * view_cells)) }
    ensures { (copies : List ℕ) → Laid rows.now copies → result ≡ number_at (size (width_of code)) (bytes_of_cells (seen_in rows.now copies s e)) at }
{
    if 0x30 < code {
        return read_byte(rows, s, e, at);
    }
    read_two_cells(rows, s, e, at, code)
}

// The low bits of a value, as many as the code of a store names.
pub fn write_in_view(
    rows: &mut [[u32; linked::ROW]; linked::ROWS],
    s: usize,
    e: usize,
    at: usize,
    code: u8,
    value: u32,
)
    requires { (s < frames_count) × ((e < levels_count) × (at + size (width_of code) ≤ 4 * view_cells)) }
    ensures { (copies : List ℕ) → Laid rows.old copies → Keep rows.old rows.new copies s e (overwritten (seen_in rows.old copies s e) at (bytes_of (size (width_of code)) value)) }
{
    if 0x30 < code {
        write_byte(rows, s, e, at, value);
        return;
    }
    write_two_cells(rows, s, e, at, code, value);
}
