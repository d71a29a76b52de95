//! An item of a stream, with the bytes that it stands for.

/// The data after a line.
#[derive(Clone, Copy, Debug)]
pub enum DataBlock<'a> {
    /// All bytes before the line `/*` that ends them, at most as many as a block may have.
    Whole(&'a [u8]),
    /// More bytes than a block may have.
    TooLong,
    /// No line ended the data before the stream ended.
    Unended,
}

/// An item of a stream. Its line has neither line feed nor carriage return at its end.
#[derive(Clone, Copy, Debug)]
pub enum Item<'a> {
    /// A line that is no statement; data after it were skipped.
    NoStatement,
    /// A line without data.
    Alone(&'a [u8]),
    /// A line, and the data after it.
    WithBlock(&'a [u8], DataBlock<'a>),
}
