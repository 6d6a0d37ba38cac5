// What liblines.a exports: interrupt lines for hosts in other languages.
#![tactic(auto)]

ghost use Rattle.std.specs.Prelude.{◌≡◌};
ghost use Rattle.lines.specs.Bytes.{raised_in, masked_in};

// Raises a line from 1 to 15. A call that answers 2 touches nothing.
#[unsafe(no_mangle)]
pub extern "C" fn glidecotton_raise_line(state: &mut [u8], line: u64) -> u64
    ensures { record { number = result; state = state.new } ≡ raised_in line state.old }
{
    lines::glidecotton_raise_line(state, line)
}

// Sets the mask: bit n lets line n in. A call that answers 2 touches nothing.
#[unsafe(no_mangle)]
pub extern "C" fn glidecotton_set_mask(state: &mut [u8], mask: u64) -> u64
    ensures { record { number = result; state = state.new } ≡ masked_in mask state.old }
{
    lines::glidecotton_set_mask(state, mask)
}
