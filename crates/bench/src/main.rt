// The bench program: an image from standard input, its text to standard output.
#![tactic(auto)]

use machine::Machine;

// One byte more than the longest good image, so that a longer file is refused and not cut to a good one.
const IMAGE: usize = image::LONGEST_FILE + 1;

fn main(rt: HostRuntime) {
    let mut image = [0u8; IMAGE];
    let Some(read) = streams::read(&rt, &mut image) else {
        return;
    };
    let mut memory = [0u8; Machine::MEMORY];
    let mut text = [0u8; report::LONGEST];
    // Only a buffer too short would be refused, and the longest text has room here.
    let Ok(count) = glidecotton::bench(&image[..read], &mut memory, &mut text) else {
        return;
    };
    streams::write(&rt, &text, count);
}
