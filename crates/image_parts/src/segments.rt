// What a program's segments have in memory.
ghost use Rattle.std.specs.Prelude.{◌≡◌};
ghost use Rattle.image_parts.specs.Segments.{segment_has, segment_byte, program_byte};

use elf_file::Segment;

fn has(segment: &Segment, address: u32) -> bool
    ensures { result ≡ segment_has address segment.now }
{
    let end = u64::from(segment.address) + u64::from(segment.size);
    segment.address <= address && u64::from(address) < end
}

fn byte_of(segment: &Segment, address: u32) -> u8
    ensures { result ≡ segment_byte address segment.now }
{
    let place = address.saturating_sub(segment.address) as usize;
    segment.stored.get(place).copied().unwrap_or(0)
}

/// The byte of the first segment that has the address, and 0 where none has it.
pub fn program_byte(segments: &[Segment], address: u32) -> u8
    ensures { result ≡ program_byte segments.now address }
{
    for segment in segments {
        if has(segment, address) {
            return byte_of(segment, address);
        }
    }
    0
}
