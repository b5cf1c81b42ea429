//! Texts that are added to the end of a line in memory.
ghost use Rattle.std.specs.Prelude.{◌≡◌, ◌≤◌, ◌++◌, ℕ, List, OnOk, length};
ghost use Rattle.script.specs.Shown.{numbers_text};

use itoa::write_digits;
use std::alloc::AllocError;

/// A value that has a text.
pub trait Append {
    // The text's bytes.
    ghost text: { Self → List ℕ };

    /// Adds the text to the end of a line. Fails only where there is no memory, and may have added the text's first bytes then.
    fn append(&self, line: &mut Vec<u8>) -> Result<(), AllocError>
        ensures { OnOk result (line.new.items ≡ line.old.items ++ text self.now) };
}

// No part of a text has more numbers one after another than five.
const MOST_NUMBERS: usize = 5;

// The most bytes of a number, with a space before it.
const LONGEST_NUMBER: usize = 21;

// Adds a word, and numbers in decimal, each behind a space.
pub(crate) fn append_numbers(
    word: &[u8],
    numbers: &[u64],
    line: &mut Vec<u8>,
) -> Result<(), AllocError>
    requires { length numbers.now ≤ 5 }
    ensures { OnOk result (line.new.items ≡ line.old.items ++ (word.now ++ numbers_text numbers.now)) }
{
    // the numbers stand at the buffer's end, and are written from the last to the first
    let mut buffer = [0; MOST_NUMBERS * LONGEST_NUMBER];
    let mut start = buffer.len();
    let mut left = numbers.len();
    while left > 0 {
        left -= 1;
        start = write_digits(numbers[left], &mut buffer, start) - 1;
        buffer[start] = b' ';
    }
    line.extend_from_slice(word)?;
    line.extend_from_slice(&buffer[start..])
}
