// Says in one line what the reader meets in an image: the image from standard input, the line to standard output.
#![tactic(auto)]

// One byte more than the longest good image, as the bench program reads.
const IMAGE: usize = image::LONGEST_FILE + 1;

fn main(rt: HostRuntime) {
    let mut image = [0u8; IMAGE];
    let Some(read) = streams::read(&rt, &mut image) else {
        return;
    };
    let line = reason::reason(&image[..read]);
    let text = line.text;
    streams::write(&rt, &text, line.count);
}
