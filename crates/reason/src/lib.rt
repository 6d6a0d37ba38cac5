// What the reader meets in a file, in one line of text.
#![tactic(auto)]

mod faults;
mod words;

ghost use Rattle.std.specs.Prelude.{◌≡◌};
ghost use Rattle.reason.specs.Reason.{reason_of, line_of};

// Room for the longest line.
const ROOM: usize = 200;

// A line with its line feed: the first bytes of the text. The others are 0. Its length stands beside it, since there is no heap.
#[derive(Clone, Copy)]
pub struct Line {
    pub text: [u8; ROOM],
    pub count: usize,
}

// Why a file is refused, or that it is good: the section, the byte, what was found there and what is allowed.
pub fn reason(file: &[u8]) -> Line
    ensures { result ≡ line_of (reason_of file.now) }
{
    let mut text = [0u8; ROOM];
    let count = match image::judge(file) {
        Ok(spans) => faults::put_good(&mut text, spans),
        Err(fault) => faults::put_fault(&mut text, file, fault),
    };
    Line { text, count }
}
