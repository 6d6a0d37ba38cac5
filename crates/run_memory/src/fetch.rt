// The instruction at the program counter: its first byte first, then the bytes that its code asks for.
ghost use Rattle.std.specs.Prelude.{◌≡◌, ◌+◌, ◌<◌, ◌≤◌, length};
ghost use Rattle.numbers.specs.Bytes.{byte_at};
ghost use Rattle.machine.specs.Limits.{memory_length};
ghost use Rattle.machine.specs.Reach.{is_foreign};
ghost use Rattle.machine.specs.Codes.{bytes_with, entry_at, number};
ghost use Rattle.machine.specs.Fetch.{instruction_at};
ghost use Rattle.reach.specs.Bars.{says_barred};
ghost use Rattle.run_words.specs.Answers.{says_fetched};
ghost use Rattle.run_words.specs.Promises.{Fetches, FetchedAt, OneByte};

use crate::memory;
use machine::{Machine, Reach, Refusal};
use reach::Bar;
use run_words::Fetched;

// A code that N bytes follow, which spell its operand: the literals, and JSL with its 24-bit address.
fn followed<const N: usize>(mem: &[u8], counter: u32, code: u8) -> Result<Fetched, Refusal>
    requires { ((counter < memory_length) × (length mem.now ≡ memory_length)) × ((N ≤ 4) × ((entry_at code).operand ≡ number N)) }
    ensures { FetchedAt code mem.now counter (says_fetched result) }
{
    let at = counter as usize;
    if Machine::MEMORY < at + 1 + N {
        return Err(Refusal::InstructionOutside);
    }
    Ok(Fetched {
        code,
        operand: memory::read::<N>(mem, at + 1),
        next: counter.wrapping_add(1 + N as u32),
    })
}

// BEQ or BRA with the address that it names.
fn branch(mem: &[u8], counter: u32, code: u8) -> Result<Fetched, Refusal>
    requires { (counter < memory_length) × ((length mem.now ≡ memory_length) × ((0x80 ≤ code) × (byte_at mem.now counter ≡ code))) }
    ensures { Fetches mem.now counter (says_fetched result) }
{
    let at = counter as usize;
    if Machine::MEMORY < at + 2 {
        return Err(Refusal::InstructionOutside);
    }
    let next = counter.wrapping_add(2);
    let offset = memory::branch_offset(memory::read::<2>(mem, at));
    Ok(Fetched {
        code,
        operand: next.wrapping_add(offset),
        next,
    })
}

// Every other code below 80 is one byte, the unknown ones too.
fn plain(mem: &[u8], counter: u32, code: u8) -> Result<Fetched, Refusal>
    requires { (counter < memory_length) × ((length mem.now ≡ memory_length) × (((code < 0x80) × OneByte code) × (byte_at mem.now counter ≡ code))) }
    ensures { Fetches mem.now counter (says_fetched result) }
{
    Ok(Fetched {
        code,
        operand: 0,
        next: counter.wrapping_add(1),
    })
}

pub fn fetch(mem: &[u8], counter: u32) -> Result<Fetched, Refusal>
    requires { length mem.now ≡ memory_length }
    ensures { Fetches mem.now counter (says_fetched result) }
{
    let at = counter as usize;
    if Machine::MEMORY <= at {
        return Err(Refusal::InstructionOutside);
    }
    let code = mem[at];
    // Most codes lie below those that bytes follow.
    if code < 0x34 {
        return plain(mem, counter, code);
    }
    if 0x7F < code {
        return branch(mem, counter, code);
    }
    match code {
        0x34 => followed::<1>(mem, counter, 0x34),
        0x35 => followed::<2>(mem, counter, 0x35),
        0x36 => followed::<4>(mem, counter, 0x36),
        0x38 => followed::<3>(mem, counter, 0x38),
        _ => plain(mem, counter, code),
    }
}

// How many bytes an instruction has.
fn length_of(code: u8) -> u8
    ensures { result ≡ bytes_with (entry_at code).operand }
{
    if 0x7F < code {
        return 2;
    }
    match code {
        0x34 => 2,
        0x35 => 3,
        0x36 => 5,
        0x38 => 4,
        _ => 1,
    }
}

// What bars the instruction at the counter: its first byte is tested before it is read.
fn barred(mem: &[u8], reach: Reach, counter: u32) -> Option<Bar>
    requires { length mem.now ≡ memory_length }
    ensures { says_barred result ≡ (instruction_at reach mem.now counter).bar }
{
    if let Some(bar) = reach::barred(reach, counter, 1) {
        return Some(bar);
    }
    reach::barred(reach, counter, length_of(mem[counter as usize]))
}

// Whether a byte of the instruction at the counter is in another's part.
pub fn foreign(mem: &[u8], reach: Reach, counter: u32) -> bool
    requires { (length mem.now ≡ memory_length) × (reach.shared ≤ memory_length) }
    ensures { result ≡ is_foreign (instruction_at reach mem.now counter).bar }
{
    // no instruction has more than five bytes
    if counter as usize + 5 <= reach.shared {
        return false;
    }
    reach::is_foreign(barred(mem, reach, counter))
}
