//! A record of the calls of devices.

use crate::row_line::RowLine;
use std::cell::RefCell;
use std::fmt::Debug;

/// Result line that devices share.
pub(crate) type Page = RefCell<RowLine>;

/// Records a call by its word, a number, the bytes of a write, and the result.
pub(crate) fn note<T: Debug>(page: &Page, call: &str, number: u64, bytes: &[u8], answer: &T) {
    if let Ok(mut page) = page.try_borrow_mut() {
        let results: &mut RowLine = &mut page;
        results.word(call);
        results.number(number);
        results.hex(bytes);
        results.debug(answer);
    }
}

/// Writes the result of a run after the calls.
pub(crate) fn tell_result<T: Debug>(page: &Page, answer: &T) {
    if let Ok(mut results) = page.try_borrow_mut() {
        results.debug(answer);
    }
}
