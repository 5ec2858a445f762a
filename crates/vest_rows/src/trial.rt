// Calls beside that of a row, over a copy of its files.
use crate::call::{Left, Line, call};
use crate::lent::Lent;
use anyhow::Result;
use row_files::Files;
use std::alloc::{AllocError, Global};
use std::sync::Wait;
use std::thread::Threads;

/// Files, what is lent where nothing fails and nothing is held, what a first call left, and what the last one left.
#[derive(Drop)]
pub struct Trial {
    pub files: Files,
    pub sound: Lent,
    pub first: Left,
    pub last: Left,
}

impl Trial {
    pub fn empty(alloc: Global) -> Trial {
        Trial {
            files: Files::none(alloc),
            sound: Lent::sound(alloc),
            first: Left::nothing(alloc),
            last: Left::nothing(alloc),
        }
    }

    /// Takes a copy of the files.
    pub fn begin(&mut self, alloc: Global, files: &Files) -> Result<(), AllocError> {
        self.files = files.copy(alloc)?;
        Ok(())
    }

    /// The last call, where nothing fails.
    pub fn call<R: Threads + Wait + Sync>(
        &mut self,
        rt: &R,
        alloc: Global,
        line: Line<'_>,
    ) -> Result<()> {
        call(
            rt,
            alloc,
            &self.sound,
            &mut self.files,
            &mut self.last,
            line,
        )
    }
}
