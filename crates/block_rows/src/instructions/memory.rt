// The memory of a case.
use anyhow::{Context, Result, bail};
use row_tally::{bytes, longword, pieces};
use std::alloc::{AllocError, Global};
use std::collections::BTreeMap;
use vax_form::{RefKind, Reference};

/// Bytes by their addresses; those that are not there are 0.
#[derive(Drop)]
pub struct Memory {
    bytes: BTreeMap<u32, u8>,
}

impl Memory {
    pub fn new(alloc: Global) -> Memory {
        Memory {
            bytes: BTreeMap::new(alloc),
        }
    }

    pub fn byte(&self, address: u32) -> u8 {
        self.bytes.get(&address).copied().unwrap_or(0)
    }

    /// Stores bytes from an address on.
    pub fn store(&mut self, address: u32, bytes: &[u8]) -> Result<(), AllocError> {
        let mut address = address;
        for byte in bytes {
            self.bytes.insert(address, *byte)?;
            address = address.wrapping_add(1);
        }
        Ok(())
    }

    /// Stores an area that is written as ADDRESS=BYTES.
    fn store_area(&mut self, alloc: Global, area: &str) -> Result<()> {
        let (address, spelled) = area.split_once('=').context("an area")?;
        let address = longword(address)?;
        self.store(address, &bytes(alloc, spelled)?)?;
        Ok(())
    }

    /// Stores areas with commas between.
    pub fn store_areas(&mut self, alloc: Global, areas: &str) -> Result<()> {
        for area in &pieces(alloc, areas)? {
            self.store_area(alloc, area)?;
        }
        Ok(())
    }

    /// A memory of these areas.
    pub fn of(alloc: Global, areas: &str) -> Result<Memory> {
        let mut memory = Memory::new(alloc);
        memory.store_areas(alloc, areas)?;
        Ok(memory)
    }

    /// The bytes below `N`.
    pub fn low_bytes<const N: usize>(&self) -> [u8; N] {
        let mut bytes = [0; N];
        for (address, byte) in self.bytes.iter() {
            if (*address as usize) < N {
                bytes[*address as usize] = *byte;
            }
        }
        bytes
    }

    fn quadword(&self, address: u32) -> u64 {
        let mut bytes = [0; 8];
        let mut address = address;
        for byte in &mut bytes {
            *byte = self.byte(address);
            address = address.wrapping_add(1);
        }
        u64::from_le_bytes(bytes)
    }

    /// Makes a reference, and answers its reply.
    pub fn make(&mut self, reference: Reference) -> Result<u64> {
        let count = usize::from(reference.count).min(8);
        let found = self.quadword(reference.address);
        let before = if count < 8 {
            found % (1 << (8 * count))
        } else {
            found
        };
        let (after, reply) = match reference.kind {
            RefKind::Read => return Ok(before),
            RefKind::Write(value) => (value, 0),
            RefKind::Add(addend) => (before.wrapping_add(u64::from(addend)), before),
            RefKind::SetBit(bit) => (before | 1 << (bit % 8), before),
            RefKind::ClearBit(bit) => (before & !(1 << (bit % 8)), before),
            RefKind::Put(_) | RefKind::Get => bail!("a service"),
        };
        self.store(reference.address, &after.to_le_bytes()[..count])?;
        Ok(reply)
    }
}
