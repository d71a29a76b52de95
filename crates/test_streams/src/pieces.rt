//! A stream that is read in pieces.
use std::io::{self, BufRead, ErrorKind, Read};

/// Gives at most so many bytes a call.
#[derive(Drop)]
pub struct Pieces<'a> {
    /// What is left.
    pub text: &'a [u8],
    /// The most bytes of a call.
    pub most: usize,
}

impl Read for Pieces<'_> {
    fn read(&mut self, _buf: &mut [u8]) -> io::Result<usize> {
        Err(ErrorKind::Unsupported.into())
    }
}

impl BufRead for Pieces<'_> {
    fn fill_buf(&mut self) -> io::Result<&[u8]> {
        let shown = self.text.len().min(self.most);
        Ok(&self.text[..shown])
    }

    fn consume(&mut self, amount: usize) {
        let taken = self.text.len().min(amount);
        self.text = &self.text[taken..];
    }
}
