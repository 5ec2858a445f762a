// Two threads that increment one byte: histories of their accesses, and of others.
ghost use Rattle.std.specs.Prelude.{◌<◌};
ghost use Rattle.image_file.specs.Whole.{IsWhole};

use crate::histories::matches;
use crate::images::image_of;
use crate::machine::{Machine, with_byte};
use anyhow::Result;
use image_file::Image;
use row_tally::Tally;
use std::alloc::Global;

/// Two threads that start at 200 with SP 1200.
const STARTS: &str = "200=1200,200=1200";

/// INCB @#1000; CHMK #1
const CODE: &str = "969F00100000BC01";

// What a processor that increments the byte loaded.
#[derive(Clone, Copy)]
struct Incrementer {
    processor: u8,
    loaded: Option<u64>,
    ghost known: { processor < 2 },
}

impl Incrementer {
    fn new(processor: u8) -> Incrementer
        requires { processor < 2 }
    {
        Incrementer {
            processor,
            loaded: None,
        }
    }

    // Its next reference: it loads the quadword, and then it stores the byte, so much more, by a load-locked access and a
    // store conditional.
    fn turn(&mut self, machine: &mut Machine, more: u8) {
        let Some(loaded) = self.loaded else {
            self.loaded = machine.load(self.processor);
            return;
        };
        let byte = loaded.to_le_bytes()[0].wrapping_add(more);
        let found = machine.lock(self.processor).unwrap_or(0);
        machine.store(self.processor, with_byte(found, byte));
    }
}

// Two processors increment the byte by so much: the first makes both its references, then the second.
fn increment_by(machine: &mut Machine, more: u8) {
    let mut first = Incrementer::new(0);
    let mut second = Incrementer::new(1);
    first.turn(machine, more);
    first.turn(machine, more);
    second.turn(machine, more);
    second.turn(machine, more);
}

// Each processor adds 1 to the byte by one load-locked access and one store conditional, and loads nothing before.
fn increment_at_once(machine: &mut Machine) {
    for processor in 0..2 {
        let found = machine.lock(processor).unwrap_or(0);
        machine.store(processor, found.wrapping_add(1));
    }
}

// Whether the history of increments by so much matches.
fn match_by(alloc: Global, image: &Image, more: u8) -> Result<bool>
    requires { IsWhole image.now }
{
    let mut machine = Machine::new(alloc, image)?;
    increment_by(&mut machine, more);
    Ok(matches(alloc, image, &machine)?)
}

// Whether that of increments in one access each matches.
fn match_at_once(alloc: Global, image: &Image) -> Result<bool>
    requires { IsWhole image.now }
{
    let mut machine = Machine::new(alloc, image)?;
    increment_at_once(&mut machine);
    Ok(matches(alloc, image, &machine)?)
}

/// The threads increment the byte by 1, each by a read and a write: that history matches. One in which they add 2 doesn't, nor one
/// in which each increments it in one access.
pub fn increments(rt: &(impl Print + AllocGlobal)) -> Result<Tally> {
    let image = image_of(rt.alloc(), STARTS, CODE, "-")?;
    let mut tally = Tally::NONE;
    tally.check(rt, "increments", &match_by(rt.alloc(), &image, 1)?, &true)?;
    tally.check(
        rt,
        "increments by two",
        &match_by(rt.alloc(), &image, 2)?,
        &false,
    )?;
    tally.check(
        rt,
        "increments in one access",
        &match_at_once(rt.alloc(), &image)?,
        &false,
    )?;
    tally.print(rt, "histories")?;
    Ok(tally)
}
