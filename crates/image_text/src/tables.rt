// The lines of an image's tables, and of hints.
ghost use Rattle.std.specs.Prelude.{◌≡◌, ◌<◌, ◌^◌, ◌+◌, ◌++◌, All, OnOk};
ghost use Rattle.image_file.specs.Whole.{IsWhole};
ghost use Rattle.image_text.specs.Lines.{address_line, numbered, register_text, rights_text, section_line, thread_line};
ghost use Rattle.image_text.specs.Text.{image_line, tables_text};

use crate::put::{Piece, put_pieces};
use image_file::{Image, Section, Start, image_length};
use std::alloc::AllocError;

fn put_image(out: &mut Vec<u8>, image: &Image) -> Result<(), AllocError>
    requires { IsWhole image.now }
    ensures { OnOk result (out.new.items ≡ out.old.items ++ image_line image.now) }
{
    put_pieces(
        out,
        &[
            Piece::Text(b"image version"),
            Piece::Number(u64::from(image.version)),
            Piece::Text(b" bytes"),
            Piece::Number(image_length(image) as u64),
            Piece::Text(b"\n"),
        ],
    )
}

fn put_register(out: &mut Vec<u8>, number: u64, value: u32) -> Result<(), AllocError>
    ensures { OnOk result (out.new.items ≡ out.old.items ++ register_text number value) }
{
    if value == 0 {
        return Ok(());
    }
    put_pieces(
        out,
        &[
            Piece::Text(b" R"),
            Piece::Digits(number),
            Piece::Address(value),
        ],
    )
}

fn put_registers(out: &mut Vec<u8>, values: &[u32]) -> Result<(), AllocError>
    ensures { OnOk result (out.new.items ≡ out.old.items ++ numbered register_text 0 values.now) }
{
    for (number, value) in values.iter().enumerate() {
        put_register(out, number as u64, *value)?;
    }
    Ok(())
}

fn put_thread(out: &mut Vec<u8>, number: u64, thread: &Start) -> Result<(), AllocError>
    ensures { OnOk result (out.new.items ≡ out.old.items ++ thread_line number thread.now) }
{
    put_pieces(
        out,
        &[
            Piece::Text(b"thread"),
            Piece::Number(number),
            Piece::Text(b" pc"),
            Piece::Address(thread.pc),
            Piece::Text(b" sp"),
            Piece::Address(thread.sp),
        ],
    )?;
    put_registers(out, &thread.first)?;
    out.push(b'\n')?;
    Ok(())
}

fn rights_text(writable: bool) -> &'static [u8]
    ensures { result.now ≡ rights_text writable }
{
    if writable {
        b" writable stored"
    } else {
        b" read-only stored"
    }
}

fn put_section(out: &mut Vec<u8>, number: u64, section: &Section) -> Result<(), AllocError>
    requires { section.now.start + section.now.size < 2 ^ 32 }
    ensures { OnOk result (out.new.items ≡ out.old.items ++ section_line number section.now) }
{
    let last = (section.start + section.size).saturating_sub(1);
    put_pieces(
        out,
        &[
            Piece::Text(b"section"),
            Piece::Number(number),
            Piece::Address(section.start),
            Piece::Text(b" to"),
            Piece::Address(last),
            Piece::Text(rights_text(section.writable)),
            Piece::Number(section.stored.len() as u64),
            Piece::Text(b"\n"),
        ],
    )
}

fn put_address_line(
    out: &mut Vec<u8>,
    table: &[u8],
    number: u64,
    address: u32,
) -> Result<(), AllocError>
    ensures { OnOk result (out.new.items ≡ out.old.items ++ address_line table.now number address) }
{
    put_pieces(
        out,
        &[
            Piece::Text(table),
            Piece::Number(number),
            Piece::Address(address),
            Piece::Text(b"\n"),
        ],
    )
}

fn put_threads(out: &mut Vec<u8>, threads: &[Start]) -> Result<(), AllocError>
    ensures { OnOk result (out.new.items ≡ out.old.items ++ numbered thread_line 0 threads.now) }
{
    for (number, thread) in threads.iter().enumerate() {
        put_thread(out, number as u64, thread)?;
    }
    Ok(())
}

fn put_sections(out: &mut Vec<u8>, sections: &[Section]) -> Result<(), AllocError>
    requires { All (λ s. s.start + s.size < 2 ^ 32) sections.now }
    ensures { OnOk result (out.new.items ≡ out.old.items ++ numbered section_line 0 sections.now) }
{
    for (number, section) in sections.iter().enumerate() {
        put_section(out, number as u64, section)?;
    }
    Ok(())
}

// The lines of a table of addresses.
fn put_address_lines(out: &mut Vec<u8>, table: &[u8], addresses: &[u32]) -> Result<(), AllocError>
    ensures { OnOk result (out.new.items ≡ out.old.items ++ numbered (address_line table.now) 0 addresses.now) }
{
    for (number, address) in addresses.iter().enumerate() {
        put_address_line(out, table, number as u64, *address)?;
    }
    Ok(())
}

/// The lines of the image, of its tables, and of hints.
#[tactic(auto, unfolding(crate::specs::Text::tables_text))]
pub fn put_tables(out: &mut Vec<u8>, image: &Image, hints: &[u32]) -> Result<(), AllocError>
    requires { IsWhole image.now }
    ensures { OnOk result (out.new.items ≡ out.old.items ++ tables_text image.now hints.now) }
{
    put_image(out, image)?;
    put_threads(out, &image.threads)?;
    put_sections(out, &image.sections)?;
    put_address_lines(out, b"entry", &image.entries)?;
    put_address_lines(out, b"hint", hints)
}
