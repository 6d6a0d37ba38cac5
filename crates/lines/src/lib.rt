// Interrupt lines for hosts in other languages that hold a whole machine as bytes: between runs a host raises a line or sets the mask.
// A state that is not well formed is the next run's matter.
#![tactic(auto)]

ghost use Rattle.std.specs.Prelude.{◌≡◌};
ghost use Rattle.state.specs.Answered.{answered};
ghost use Rattle.lines.specs.Bytes.{raised_in, masked_in};

use machine::Refusal;

// A mask has 16 bits.
const MASKS: u64 = 0x10000;

fn raise_line(state: &mut [u8], line: u64) -> Result<(), Refusal>
    ensures { record { number = answered result; state = state.new } ≡ raised_in line state.old }
{
    if state.len() != state::SIZE {
        return Err(Refusal::NotAsAsked);
    }
    // both places are inside by the length
    let waiting = numbers::read::<u32>(state, state::WAITING).unwrap();
    let after = requests::raise(waiting, line)?;
    numbers::write::<u32>(state, state::WAITING, after as u64).unwrap();
    Ok(())
}

fn set_mask(state: &mut [u8], mask: u64) -> Result<(), Refusal>
    ensures { record { number = answered result; state = state.new } ≡ masked_in mask state.old }
{
    if state.len() != state::SIZE {
        return Err(Refusal::NotAsAsked);
    }
    if MASKS <= mask {
        return Err(Refusal::NotAsAsked);
    }
    // inside by the length
    numbers::write::<u32>(state, state::MASK, mask).unwrap();
    Ok(())
}

// Raises a line from 1 to 15: its request waits until it is served, and twice is once. A call that answers 2 touches nothing.
pub fn glidecotton_raise_line(state: &mut [u8], line: u64) -> u64
    ensures { record { number = result; state = state.new } ≡ raised_in line state.old }
{
    state::answered(raise_line(state, line))
}

// Sets the mask: bit n lets line n in. A call that answers 2 touches nothing.
pub fn glidecotton_set_mask(state: &mut [u8], mask: u64) -> u64
    ensures { record { number = result; state = state.new } ≡ masked_in mask state.old }
{
    state::answered(set_mask(state, mask))
}
