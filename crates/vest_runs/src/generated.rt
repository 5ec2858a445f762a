// The lines on what `generate` ran, and on what it left.
ghost use Rattle.std.specs.Prelude.{◌≡◌, ◌≤◌};
ghost use Rattle.vest_runs.specs.Generate.{lines_of, memory_sum};

use memory_core::MemState;
use report_text::{Line, MOST_GROUPS, generated_bytes, generated_lines};
use system_model::Translation;

/// Where the writable section of a generated image begins.
const MEMORY: u32 = 0x1000;

/// The bytes of that section.
const MEMORY_BYTES: u32 = 2048;

// The sum of the bytes of that section.
fn memory_sum(memory: &MemState) -> u32
    ensures { result ≡ memory_sum memory.now.set_up memory.now.history }
{
    let mut sum = 0;
    for place in 0..MEMORY_BYTES {
        sum += u32::from(memory.byte(MEMORY + place).unwrap_or(0));
    }
    sum
}

/// What `out` takes: the length of the image's file, how many addresses are mapped, and the sum of the memory that the run left.
pub fn lines_of(number: u32, translation: &Translation, memory: &MemState) -> Line
    requires few { number ≤ MOST_GROUPS }
    ensures { result ≡ lines_of number translation.now memory.now.set_up memory.now.history }
{
    let mapped = translation.map.pairs().len() as u64;
    generated_lines(number, generated_bytes(number), mapped, memory_sum(memory))
}
