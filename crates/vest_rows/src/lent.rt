// What a call is lent beside the files.
ghost use Rattle.std.specs.Prelude.{◌≤◌};

use crate::gates::{Access, Holds, Pair};
use anyhow::{Result, bail};
use row_files::parted;
use row_tally::number;
use std::alloc::{AllocError, Global};
use vt_outside::{MemorySink, MemorySource};

/// The bytes that a sink has room for.
const ROOM: usize = 65_536;

/// The most bytes that a call of a source gives, or a call of a sink takes, where it is not one.
const MOST: usize = 4096;

/// What a call may ask of the outside.
#[derive(Clone, Copy, PartialEq, Eq)]
pub enum Object {
    Desk,
    Input,
    Out,
    Report,
}

/// A call of an object that is to fail, counted from 0.
#[derive(Clone, Copy)]
pub struct Fault {
    pub object: Object,
    pub call: u64,
}

/// The input, the calls that fail, the accesses that are held, and whether sources give and sinks take one byte a call.
#[derive(Drop)]
pub struct Lent {
    pub input: Vec<u8>,
    pub bytewise: bool,
    faults: Vec<Fault>,
    holds: Vec<Pair>,
}

pub fn object_of(name: &str) -> Result<Object> {
    match name {
        "desk" => Ok(Object::Desk),
        "input" => Ok(Object::Input),
        "out" => Ok(Object::Out),
        "report" => Ok(Object::Report),
        _ => bail!("an unknown object"),
    }
}

/// PROCESSOR.NUMBER.
fn access_of(text: &str) -> Result<Access> {
    let (processor, count) = parted(text, ".")?;
    Ok(Access {
        processor: (number(processor)? % 256) as u8,
        number: number(count)?,
    })
}

impl Lent {
    /// Nothing fails and nothing is held.
    pub fn sound(alloc: Global) -> Lent {
        Lent {
            input: Vec::new(alloc),
            bytewise: false,
            faults: Vec::new(alloc),
            holds: Vec::new(alloc),
        }
    }

    /// No other call is to fail.
    pub fn fail_alone(&mut self, fault: Fault) -> Result<(), AllocError> {
        self.faults.clear();
        self.faults.push(fault)?;
        Ok(())
    }

    /// OBJECT CALL.
    pub fn add_fault(&mut self, text: &str) -> Result<()> {
        let (object, call) = parted(text, " ")?;
        let fault = Fault {
            object: object_of(object)?,
            call: number(call)?,
        };
        self.faults.push(fault)?;
        Ok(())
    }

    /// HELD UNTIL.
    pub fn add_hold(&mut self, text: &str) -> Result<()> {
        let (held, until) = parted(text, " ")?;
        let pair = Pair {
            held: access_of(held)?,
            until: access_of(until)?,
        };
        self.holds.push(pair)?;
        Ok(())
    }

    /// Whether some call is to fail.
    pub fn may_fail(&self) -> bool {
        !self.faults.is_empty()
    }

    pub fn fails_of(&self, alloc: Global, object: Object) -> Result<Vec<u64>, AllocError> {
        let mut fails = Vec::new(alloc);
        for fault in &self.faults {
            if fault.object == object {
                fails.push(fault.call)?;
            }
        }
        Ok(fails)
    }

    fn most(&self) -> usize
        ensures { 1 ≤ result }
    {
        if self.bytewise { 1 } else { MOST }
    }

    pub fn source(&self, alloc: Global) -> Result<MemorySource, AllocError> {
        let input = self.input.as_slice().to_vec(alloc)?;
        let fails = self.fails_of(alloc, Object::Input)?;
        Ok(MemorySource::new(input, fails, self.most()))
    }

    pub fn sink(&self, alloc: Global, object: Object) -> Result<MemorySink, AllocError> {
        let room = Vec::with_capacity(alloc, ROOM)?;
        let fails = self.fails_of(alloc, object)?;
        Ok(MemorySink::slow(room, fails, self.most()))
    }

    pub fn gate(&self, alloc: Global) -> Result<Holds, AllocError> {
        Holds::of(alloc, &self.holds)
    }
}
