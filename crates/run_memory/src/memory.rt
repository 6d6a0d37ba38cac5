// Numbers in memory, the highest byte first: one function for literals, JSL's address, branches and accesses alike.
ghost use Rattle.std.specs.Prelude.{◌≡◌, ◌+◌, ◌*◌, ◌/◌, ◌%◌, ◌^◌, ◌<◌, ◌≤◌, length};
ghost use Rattle.std.proofs.lemmas.List.Edits.{sets};
ghost use Rattle.numbers.specs.Bytes.{number_at, bytes_of};
ghost use Rattle.machine.specs.Fetch.{extended};
ghost use Rattle.machine.specs.Memory.{size};
ghost use Rattle.machine.specs.Sum.{sum_of};
ghost use Rattle.reach.specs.Spots.{width_of};
ghost use Rattle.run_words.specs.Losses.{IsStore, Puts};

// The number that N bytes from a place on spell.
pub fn read<const N: usize>(mem: &[u8], at: usize) -> u32
    requires { (N ≤ 4) × (at + N ≤ length mem.now) }
    ensures { result ≡ number_at N mem.now at }
{
    let mut number = 0;
    for i in 0..N {
        number = number * 0x100 + mem[at + i] as u32;
    }
    number
}

// By the width that the code of a fetch names.
pub fn read_number(mem: &[u8], at: usize, code: u8) -> u32
    requires { at + size (width_of code) ≤ length mem.now }
    ensures { result ≡ number_at (size (width_of code)) mem.now at }
{
    match code {
        0x2D | 0x2E => read::<4>(mem, at),
        0x2F | 0x30 => read::<2>(mem, at),
        _ => read::<1>(mem, at),
    }
}

// A branch's offset, the low 14 bits of its two bytes, as a 32-bit number: half its range is added, wrapped at the range and taken off again.
pub fn branch_offset(number: u32) -> u32
    requires { number < 2 ^ 16 }
    ensures { result ≡ extended (number % 2 ^ 14) }
{
    ((number + 0x2000) % 0x4000).wrapping_sub(0x2000)
}

// The low bits of a value, as many as the code of a store names, written to a slice that is no memory.
pub fn write_number(mem: &mut [u8], at: usize, code: u8, value: u32)
    requires { at + size (width_of code) ≤ length mem.old }
    ensures { mem.new ≡ sets mem.old at (bytes_of (size (width_of code)) value) }
{
    // inside by what is asked: the error never comes
    let _ = match code {
        0x2D => numbers::write::<u32>(mem, at, value as u64),
        0x2E => numbers::write::<u32>(mem, at, value as u64),
        0x2F => numbers::write::<u16>(mem, at, value as u64),
        0x30 => numbers::write::<u16>(mem, at, value as u64),
        _ => numbers::write::<u8>(mem, at, value as u64),
    };
}

// Every second byte of a number, each in a half of its own.
fn every_second(value: u32) -> u32
    ensures { (result ≡ value % 2 ^ 8 + value / 2 ^ 16 % 2 ^ 8 * 2 ^ 16) × (result < 2 ^ 24) }
{
    value % 0x100 + value / 0x10000 % 0x100 * 0x10000
}

// What the four bytes of a number add up to: two and two, then both halves.
fn bytes_added(value: u32) -> u32
    ensures { result ≡ sum_of (bytes_of 4 value) }
{
    let pairs = every_second(value) + every_second(value / 0x100);
    pairs % 0x10000 + pairs / 0x10000
}

fn low_byte(value: u32) -> u8
    ensures { result ≡ value % 2 ^ 8 }
{
    (value % 0x100) as u8
}

// A number with a byte added, modulo 2^32.
fn with_byte(sum: u32, byte: u8) -> u32
    ensures { result ≡ (sum + byte) % 2 ^ 32 }
{
    sum.wrapping_add(byte as u32)
}

// A store of each width tells what the memory loses: the bytes that stand there, less the new ones. The bytes are known to lie inside, and
// are put one by one: a test of the place in between would cost every store (docs/SPEED.md).
fn store_long(mem: &mut [u8], at: usize, value: u32) -> u32
    requires { at + 4 ≤ length mem.old }
    ensures { Puts 4 mem.old at value mem.new result }
{
    let less = 0u32.wrapping_sub(bytes_added(value));
    let first = with_byte(less, mem[at]);
    let second = with_byte(first, mem[at + 1]);
    let third = with_byte(second, mem[at + 2]);
    let lost = with_byte(third, mem[at + 3]);
    mem[at] = low_byte(value / 0x1000000);
    mem[at + 1] = low_byte(value / 0x10000);
    mem[at + 2] = low_byte(value / 0x100);
    mem[at + 3] = low_byte(value);
    lost
}

fn store_word(mem: &mut [u8], at: usize, value: u32) -> u32
    requires { at + 2 ≤ length mem.old }
    ensures { Puts 2 mem.old at value mem.new result }
{
    let less = 0u32.wrapping_sub(value / 0x100 % 0x100 + value % 0x100);
    let first = with_byte(less, mem[at]);
    let lost = with_byte(first, mem[at + 1]);
    mem[at] = low_byte(value / 0x100);
    mem[at + 1] = low_byte(value);
    lost
}

fn store_byte(mem: &mut [u8], at: usize, value: u32) -> u32
    requires { at + 1 ≤ length mem.old }
    ensures { Puts 1 mem.old at value mem.new result }
{
    let less = 0u32.wrapping_sub(value % 0x100);
    let lost = with_byte(less, mem[at]);
    mem[at] = low_byte(value);
    lost
}

// By the width that the code of a store names.
pub fn store_number(mem: &mut [u8], at: usize, code: u8, value: u32) -> u32
    requires { IsStore code × (at + size (width_of code) ≤ length mem.old) }
    ensures { Puts (size (width_of code)) mem.old at value mem.new result }
{
    match code {
        0x2E => store_long(mem, at, value),
        0x30 => store_word(mem, at, value),
        _ => store_byte(mem, at, value),
    }
}

// The same in a part of memory, which alone is lent on.
pub fn store_own(mem: &mut [u8], own: usize, end: usize, at: usize, code: u8, value: u32) -> u32
    requires { IsStore code × ((own ≤ at) × ((at + size (width_of code) ≤ end) × (end ≤ length mem.old))) }
    ensures { Puts (size (width_of code)) mem.old at value mem.new result }
{
    store_number(&mut mem[own..end], at - own, code, value)
}
