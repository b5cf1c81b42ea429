//! The last byte of an account.
ghost use Rattle.std.specs.Prelude.{◌≡◌};
ghost use Rattle.book.specs.Bytes.{DetectsOneChange, exclusive_or};

/// The exclusive-or of all these bytes, 0 if there are none.
pub fn last_byte(body: &[u8]) -> u8
    ensures value { result ≡ exclusive_or body.now }
    ensures detects { DetectsOneChange body.now }
{
    body.iter().fold(0, |sum, byte| sum ^ *byte)
}
