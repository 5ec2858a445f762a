// Files under names.
use anyhow::{Context, Result, bail};
use std::alloc::{AllocError, Global};
use vt_outside::{Desk, DeskRead, MemoryDesk};

/// The most bytes of a file of the rows. A command takes fewer.
const MOST: usize = 67_108_864;

/// How often a file is read at most, where one call may fail.
const READS: usize = 2;

/// Files under names.
#[derive(Drop, PartialEq)]
pub struct Files {
    files: Vec<(String, Vec<u8>)>,
}

fn copied(alloc: Global, file: &(String, Vec<u8>)) -> Result<(String, Vec<u8>), AllocError> {
    let name = String::from_str(alloc, file.0.as_str())?;
    let bytes = file.1.as_slice().to_vec(alloc)?;
    Ok((name, bytes))
}

/// What the desk has under a name, if it has such a file.
fn read_back(alloc: Global, desk: &mut MemoryDesk, name: &str) -> Result<Option<Vec<u8>>> {
    for _ in 0..READS {
        match desk.read(alloc, name, MOST) {
            DeskRead::Bytes(bytes) => return Ok(Some(bytes)),
            DeskRead::Absent => return Ok(None),
            _ => {}
        }
    }
    bail!("a file that can't be read")
}

impl Files {
    pub fn none(alloc: Global) -> Files {
        Files {
            files: Vec::new(alloc),
        }
    }

    pub fn find(&self, name: &str) -> Option<&[u8]> {
        for file in &self.files {
            if file.0.as_str() == name {
                return Some(file.1.as_slice());
            }
        }
        None
    }

    pub fn get(&self, name: &str) -> Result<&[u8]> {
        self.find(name).context("no such file")
    }

    pub fn copy(&self, alloc: Global) -> Result<Files, AllocError> {
        let mut files = Vec::new(alloc);
        for file in &self.files {
            files.push(copied(alloc, file)?)?;
        }
        Ok(Files { files })
    }

    /// In the place of what the name had.
    pub fn put(&mut self, alloc: Global, name: &str, bytes: Vec<u8>) -> Result<()> {
        for file in &mut self.files {
            if file.0.as_str() == name {
                file.1 = bytes;
                return Ok(());
            }
        }
        self.files.push((String::from_str(alloc, name)?, bytes))?;
        Ok(())
    }

    /// A desk with these files, whose calls of those numbers fail.
    pub fn desk(&self, alloc: Global, fails: Vec<u64>) -> Result<MemoryDesk, AllocError> {
        Ok(MemoryDesk::new(self.copy(alloc)?.files, fails))
    }

    fn take_known(&mut self, alloc: Global, desk: &mut MemoryDesk) -> Result<()> {
        for file in &mut self.files {
            file.1 = read_back(alloc, desk, file.0.as_str())?.context("a file is gone")?;
        }
        Ok(())
    }

    fn take_named(&mut self, alloc: Global, desk: &mut MemoryDesk, names: &[String]) -> Result<()> {
        for name in names {
            if let Some(bytes) = read_back(alloc, desk, name.as_str())? {
                self.put(alloc, name.as_str(), bytes)?;
            }
        }
        Ok(())
    }

    /// Takes what a desk has under the names of these files, and then under those names.
    pub fn take(&mut self, alloc: Global, desk: &mut MemoryDesk, names: &[String]) -> Result<()> {
        self.take_known(alloc, desk)?;
        self.take_named(alloc, desk, names)
    }
}
