//! The words of a line.
ghost use Rattle.std.specs.Prelude.{◌≡◌, map, take};
ghost use Rattle.script.specs.Words.{is_space, words_of, without_end};

use arrayvec::ArrayVec;

// No line of a script has more words than six. Where a line has more, the seventh is kept, so that the line is seen to have too many.
pub(crate) const MOST_WORDS: usize = 7;

// The first words of a line, which are separated by spaces and tabs.
pub(crate) fn words_in(line: &[u8]) -> ArrayVec<&[u8], MOST_WORDS>
    ensures { map (λ word. word.now) result.items ≡ take 7 (words_of line.now) }
{
    let mut words = ArrayVec::new();
    for word in line.split(|byte| is_space(*byte)) {
        if !word.is_empty() && !words.is_full() {
            words.push(word);
        }
    }
    words
}

// Does the byte separate words?
fn is_space(byte: u8) -> bool
    ensures { result ≡ is_space byte }
{
    byte == b' ' || byte == b'\t'
}

// A line without its end: a newline, and a carriage return right before it.
pub(crate) fn without_end(line: &[u8]) -> &[u8]
    ensures { result.now ≡ without_end line.now }
{
    match line {
        [rest @ .., b'\r', b'\n'] => rest,
        [rest @ .., b'\n'] => rest,
        _ => line,
    }
}
