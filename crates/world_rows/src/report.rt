// A text that is put together piece by piece, whose end tells of a want of memory.
use std::alloc::{AllocError, Global};

/// A text, and whether all of its pieces were put.
#[derive(Drop)]
pub struct Report {
    text: String,
    is_whole: bool,
}

impl Report {
    pub fn new(alloc: Global) -> Report {
        Report {
            text: String::new(alloc),
            is_whole: true,
        }
    }

    fn note(&mut self, put: Result<(), AllocError>) {
        if put.is_err() {
            self.is_whole = false;
        }
    }

    pub fn put(&mut self, piece: &str) {
        let put = self.text.push_str(piece);
        self.note(put);
    }

    /// A number in decimal digits.
    pub fn count(&mut self, number: u64) {
        let put = write!(self.text, "{number}");
        self.note(put);
    }

    /// Two hexadecimal digits.
    pub fn byte(&mut self, byte: u8) {
        let put = write!(self.text, "{byte:02X}");
        self.note(put);
    }

    /// Eight hexadecimal digits.
    pub fn longword(&mut self, longword: u32) {
        let put = write!(self.text, "{longword:08X}");
        self.note(put);
    }

    /// As many hexadecimal digits as the number has.
    pub fn digits(&mut self, number: u32) {
        let put = write!(self.text, "{number:X}");
        self.note(put);
    }

    /// The text, if all of its pieces were put.
    pub fn end(self) -> Result<String, AllocError> {
        if self.is_whole {
            Ok(self.text)
        } else {
            Err(AllocError)
        }
    }
}
