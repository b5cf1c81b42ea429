//! What a line of a script says, from its bytes.
ghost use Rattle.std.specs.Prelude.{◌≡◌, map};
ghost use Rattle.script.specs.Lines.{line_of, store_or_call, store_of};

use crate::bad_line::{BadLine, Wanted};
use crate::line::{Line, StoreKind};
use crate::request::{Operand, miscounted, request};
use crate::words::{without_end, words_in};
use snapshot::MOST_RECORDS;

/// What the line says; it may end with a newline or lack it. Any bytes are taken: a line is bad if it is neither blank,
/// nor a store's, nor a call.
pub fn parse(line: &[u8]) -> Line
    ensures { result ≡ line_of line.now }
{
    let words = words_in(without_end(line));
    let [first, others @ ..] = words.as_slice() else {
        return Line::Blank;
    };
    if first.first() == Some(&b'#') {
        return Line::Blank;
    }
    match store_or_call(first, others) {
        Ok(line) => line,
        Err(bad) => Line::Bad(bad),
    }
}

// What a line with this first word and these others says, or why it is bad.
fn store_or_call(first: &[u8], others: &[&[u8]]) -> Result<Line, BadLine>
    ensures { result ≡ store_or_call first.now (map (λ word. word.now) others.now) }
{
    if first == b"store".as_slice() {
        Ok(Line::Store(store(others)?))
    } else {
        Ok(Line::Call(request(first, others)?))
    }
}

// The store that these words name.
fn store(operands: &[&[u8]]) -> Result<StoreKind, BadLine>
    ensures { result ≡ store_of (map (λ word. word.now) operands.now) }
{
    let [kind, others @ ..] = operands else {
        return Err(miscounted(operands, Wanted::Either(2, 3)));
    };
    if *kind == b"newest".as_slice() {
        match others {
            [] => Ok(StoreKind::Newest),
            _ => Err(miscounted(operands, Wanted::Exactly(2))),
        }
    } else if *kind == b"table".as_slice() {
        match others {
            [records] => {
                let records = Operand::read(3, records)?.room(MOST_RECORDS)?;
                Ok(StoreKind::Table { records })
            }
            _ => Err(miscounted(operands, Wanted::Exactly(3))),
        }
    } else {
        Err(BadLine::UnknownWord { place: 2 })
    }
}
