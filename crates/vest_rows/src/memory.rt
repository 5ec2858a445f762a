// The memory that a kept run left, by its image and its history.
use crate::call::Left;
use memory_core::{Entry, Kind};
use std::alloc::{AllocError, Global};

const QUAD_BYTES: u32 = 8;

/// Whether an access is one of memory: a byte that is put out or got has no quadword.
fn is_of_memory(entry: &Entry) -> bool {
    entry.kind != Kind::Put && entry.kind != Kind::Get
}

impl Left {
    // What the last access to each of so many quadwords left there, from the quadword at an address on.
    fn quads_left(
        &self,
        alloc: Global,
        first: u32,
        count: usize,
    ) -> Result<Vec<Option<u64>>, AllocError> {
        let mut quads = vec![in alloc; None; count]?;
        for entry in self.history() {
            let number = entry.quad.wrapping_sub(first) / QUAD_BYTES;
            if is_of_memory(entry)
                && let Some(quad) = quads.get_mut(number as usize)
            {
                *quad = Some(entry.after);
            }
        }
        Ok(quads)
    }

    // The byte at an address, where an access left its quadword so, or none was made to it.
    fn byte_left(&self, quad: Option<u64>, address: u32) -> Option<u8> {
        match quad {
            Some(quad) => Some(quad.to_le_bytes()[(address % QUAD_BYTES) as usize]),
            None => self.kept.image.as_ref()?.byte(address),
        }
    }

    /// Whether the memory has these bytes from the address on.
    pub fn has_memory(
        &self,
        alloc: Global,
        address: u32,
        wanted: &[u8],
    ) -> Result<bool, AllocError> {
        let first = address / QUAD_BYTES * QUAD_BYTES;
        let quads = self.quads_left(alloc, first, wanted.len() / QUAD_BYTES as usize + 2)?;
        let mut at = address;
        for byte in wanted {
            let number = at.wrapping_sub(first) / QUAD_BYTES;
            let quad = quads.get(number as usize).copied().flatten();
            if self.byte_left(quad, at) != Some(*byte) {
                return Ok(false);
            }
            at = at.wrapping_add(1);
        }
        Ok(true)
    }
}
