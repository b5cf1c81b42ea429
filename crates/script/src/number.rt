//! Numbers in decimal digits.
ghost use Rattle.std.specs.Prelude.{◌≡◌};
ghost use Rattle.std.specs.Char.{is_ascii_digit};
ghost use Rattle.std.specs.List.{list_all};
ghost use Rattle.script.specs.Numbers.{parsed_number};

// The number that a word is: it has only decimal digits, and is at most 2^64 - 1.
pub(crate) fn number_in(word: &[u8]) -> Option<u64>
    ensures { result ≡ parsed_number word.now }
{
    // `parse` takes a plus too
    if !are_digits(word) {
        return None;
    }
    let text = std::str::from_utf8(word).ok()?;
    text.parse().ok()
}

// Are all these bytes decimal digits?
fn are_digits(word: &[u8]) -> bool
    ensures { result ≡ list_all is_ascii_digit word.now }
{
    word.iter().all(|byte| byte.is_ascii_digit())
}
