// Words put after a text so far, with numbers in them. The caller knows that there is room.
ghost use Rattle.std.specs.Prelude.{◌≡◌, ◌+◌, ◌*◌, ◌≤◌, length};
ghost use Rattle.numbers.specs.Digits.{decimal, most_decimal};
ghost use Rattle.numbers.specs.Putting.{Appended};
ghost use Rattle.reason.specs.Words.{filled};

const MARK: u8 = b'#';

fn put_number(text: &mut [u8], at: usize, value: u64) -> usize
    requires { at + most_decimal ≤ length text.old }
    ensures { (result ≤ at + most_decimal) × Appended text.old at (decimal value) text.new result }
{
    numbers::write_decimal(text, at, value).unwrap()
}

// A mark stands for the next number, where one is left. Returns where the text then ends.
pub(crate) fn put(text: &mut [u8], from: usize, words: &[u8], numbers: &[u64]) -> usize
    requires { from + length words.now + length numbers.now * most_decimal ≤ length text.old }
    ensures { (result ≤ from + length words.now + length numbers.now * most_decimal) × Appended text.old from (filled words.now numbers.now) text.new result }
{
    let mut at = from;
    let mut left = numbers;
    for &letter in words {
        if letter == MARK
            && let [number, rest @ ..] = left
        {
            at = put_number(text, at, *number);
            left = rest;
            continue;
        }
        text[at] = letter;
        at += 1;
    }
    at
}
