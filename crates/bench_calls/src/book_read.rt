//! A book, read account by account into two lists.

use crate::calls_made::sum_of_account;
use book::read_account;
use snapshot::{CHAIN_READINGS, NO_READING, NO_WRITE, WRITE_KEYS};

// Reads account after account, to the end of the book or to the first one that is refused, whose number and place count too.
#[unsafe(no_mangle)]
pub extern "C" fn bench_read_book(book: &[u8]) -> u64 {
    let mut readings = [NO_READING; CHAIN_READINGS];
    let mut writes = [NO_WRITE; WRITE_KEYS];
    let mut sum: u64 = 0;
    let mut start = 0;
    for _ in 0..book.len() {
        if start >= book.len() {
            break;
        }
        match read_account(book, start, &mut readings, &mut writes) {
            Ok(read) => {
                sum = sum.wrapping_add(sum_of_account(read.head, &readings, &writes));
                start = read.end;
            }
            Err(refused) => {
                let number = u64::from(refused.fault.refusal.number());
                return sum.wrapping_add(number).wrapping_add(refused.start as u64);
            }
        }
    }
    sum
}
