// A memory of quadwords, what it begins with, and what was done to it.
use crate::calls::random::Random;
use std::alloc::{AllocError, Global};

/// A reference to a quadword, with what the quadword has behind it.
#[derive(Clone, Copy, Debug, PartialEq, Eq)]
pub struct Reference {
    pub write: bool,
    pub quad: u32,
    pub value: u64,
}

#[derive(Drop)]
pub struct Memory {
    seed: u64,
    written: Vec<(u32, u64)>,
    pub references: Vec<Reference>,
}

impl Memory {
    /// A memory whose quadwords are random.
    pub fn new(alloc: Global, seed: u64) -> Memory {
        Memory {
            seed,
            written: Vec::new(alloc),
            references: Vec::new(alloc),
        }
    }

    /// What a quadword begins with: one in three is an address of pages twice.
    fn first(&self, quad: u32) -> u64 {
        let mut random = Random::new(self.seed ^ u64::from(quad));
        let value = random.next();
        if random.comes(3) {
            (0x1000 + random.next() % 0x5000).wrapping_mul(0x1_0000_0001)
        } else {
            value
        }
    }

    pub fn read(&self, quad: u32) -> u64 {
        for (written, value) in &self.written {
            if *written == quad {
                return *value;
            }
        }
        self.first(quad)
    }

    fn write(&mut self, quad: u32, value: u64) -> Result<(), AllocError> {
        for place in 0..self.written.len() {
            if self.written[place].0 == quad {
                self.written[place] = (quad, value);
                return Ok(());
            }
        }
        self.written.push((quad, value))?;
        Ok(())
    }

    /// Notes a read of a quadword.
    pub fn note_read(&mut self, quad: u32, value: u64) -> Result<(), AllocError> {
        self.references.push(Reference {
            write: false,
            quad,
            value,
        })?;
        Ok(())
    }

    /// Writes a quadword, and notes it.
    pub fn note_write(&mut self, quad: u32, value: u64) -> Result<(), AllocError> {
        self.write(quad, value)?;
        self.references.push(Reference {
            write: true,
            quad,
            value,
        })?;
        Ok(())
    }
}

fn mask(count: u8) -> u64 {
    if count >= 8 {
        u64::MAX
    } else {
        (1u64 << (8 * u32::from(count))) - 1
    }
}

/// So many bytes of a quadword, from an address on.
pub fn field(quad: u64, at: u32, count: u8) -> u64 {
    (quad >> (8 * (at % 8))) & mask(count)
}

/// The quadword with these bytes in their place.
pub fn with_field(quad: u64, at: u32, count: u8, value: u64) -> u64 {
    let shift = 8 * (at % 8);
    (quad & !(mask(count) << shift)) | ((value & mask(count)) << shift)
}
