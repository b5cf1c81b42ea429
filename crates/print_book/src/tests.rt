//! The listing is written before more of the input is asked for.

use crate::list_front;
use std::io::{self, ErrorKind};
use std::test::Fail;

// A reader of so many zeros that fails behind them.
#[derive(Drop)]
struct Failing {
    left: usize,
}

impl io::Read for Failing {
    fn read(&mut self, buffer: &mut [u8]) -> io::Result<usize> {
        if self.left == 0 {
            return Err(io::Error::other("the input failed"));
        }
        let count = buffer.len().min(self.left);
        buffer[..count].fill(0);
        self.left -= count;
        Ok(count)
    }
}

#[test]
fn listing_stands_where_the_input_fails_behind_it(rt: HostRuntime) -> Result<(), Fail> {
    let mut output = Vec::new(rt.alloc());
    let goes_on = list_front(rt.alloc(), Failing { left: 65_536 }, &mut output)?;
    assert!(rt; !goes_on);
    assert_eq!(rt; output.as_slice(), b"bad 19 0\n".as_slice());
    let mut output = Vec::new(rt.alloc());
    let Err(error) = list_front(rt.alloc(), Failing { left: 65_535 }, &mut output) else {
        return Err(Fail::new("accepted"));
    };
    assert_eq!(rt; error.kind(), ErrorKind::Other);
    assert!(rt; output.is_empty());
    Ok(())
}

#[test]
fn one_byte_more_is_told(rt: HostRuntime) -> Result<(), Fail> {
    for (bytes, more) in [
        (0, false),
        (65_535, false),
        (65_536, false),
        (65_537, true),
        (70_000, true),
    ] {
        let book = vec![in rt.alloc(); 0; bytes]?;
        let mut output = Vec::new(rt.alloc());
        let goes_on = list_front(rt.alloc(), book.as_slice(), &mut output)?;
        assert_eq!(rt; goes_on, more, "{bytes} bytes");
        let text = if bytes == 0 { "end 0\n" } else { "bad 19 0\n" };
        assert_eq!(rt; output.as_slice(), text.as_bytes());
    }
    Ok(())
}
