//! A value on which rows are played.

use crate::row_line::RowLine;
use std::alloc::{AllocError, Global};

/// Value of a layer.
pub(crate) trait Layer: Drop + Sized {
    /// Creates the value that the words of an opening row name. Returns `None` if a word is out of range.
    fn opened(alloc: Global, words: &str) -> Option<Result<Self, AllocError>>;

    /// Executes an event, and writes its result and the state of the value into the line.
    fn play(&mut self, alloc: Global, event: &str, bytes: &mut Vec<u8>, results: &mut RowLine);
}
