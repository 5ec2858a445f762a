// The input of a run.
ghost use Rattle.std.specs.Prelude.{◌≡◌, IfOk, IfErr, OnOk, []};
ghost use Rattle.vest_runs.specs.Input.{ReadsAll, StopsAtInput};
ghost use Rattle.vest_runs.specs.Limits as stated;

use std::alloc::Global;
use vest_stops::Stop;
use vt_outside::{Got, Source};

/// The most bytes of input.
pub const INPUT_LIMIT: usize = 65_536;

/// The limit is the one that the definitions state in figures.
pub fn input_limit_is_as_stated()
    ensures { INPUT_LIMIT ≡ stated.INPUT_LIMIT }
{}

/// The most bytes of one call.
const AT_ONCE: usize = 1024;

/// The most bytes that are read: one more than there may be tells that there are too many.
const MOST: usize = INPUT_LIMIT + 1;

/// Reads the input to its end, or its first 65,537 bytes and no more.
pub fn read_input<I: Source>(alloc: Global, input: &mut I) -> Result<Vec<u8>, Stop>
    ensures ok { IfOk result (λ bytes. ReadsAll (I.meaning input.old) (I.meaning input.new) bytes.items) }
    ensures err { IfErr result (λ stop. StopsAtInput stop (I.meaning input.old) (I.meaning input.new)) }
{
    let mut bytes = Vec::new(alloc);
    read_all(input, &mut bytes)?;
    Ok(bytes)
}

// The list has no byte yet.
fn read_all<I: Source>(input: &mut I, bytes: &mut Vec<u8>) -> Result<(), Stop>
    requires { bytes.old.items ≡ [] }
    ensures ok { OnOk result (ReadsAll (I.meaning input.old) (I.meaning input.new) bytes.new.items) }
    ensures err { IfErr result (λ stop. StopsAtInput stop (I.meaning input.old) (I.meaning input.new)) }
{
    let mut buffer = [0; AT_ONCE];
    // Each call takes a byte at least.
    for turn in 0..MOST {
        let room = (MOST - bytes.len()).min(AT_ONCE);
        let into = &mut buffer[..room];
        match input.read(into) {
            Got::Bytes(count) => bytes.extend_from_slice(&into[..count])?,
            Got::End => return Ok(()),
            Got::Failed => return Err(Stop::ReadFault),
        }
        if bytes.len() > INPUT_LIMIT {
            return Err(Stop::TooLong);
        }
    }
    Err(Stop::TooLong)
}
