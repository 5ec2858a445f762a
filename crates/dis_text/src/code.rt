// The Alpha words of a block.
ghost use Rattle.std.specs.Prelude.{◌≡◌, ◌++◌, OnOk};
ghost use Rattle.alpha_text.specs.Text.{word_text};
ghost use Rattle.report_text.specs.Digits.{eight_digits};
ghost use Rattle.dis_text.specs.Words.{alpha_line, behind_blanks, block_lines, block_text, call_name, lines_behind, note_by, note_of, to_text};

use crate::put::put_longword;
use address_map::AddressMap;
use alpha_encode::{AlphaInstr, decode, pal};
use alpha_text::word_text;
use std::alloc::AllocError;

/// The words of a translation, the map of its blocks, and whether the words are listed.
#[derive(Clone, Copy)]
pub struct Code<'a> {
    pub words: &'a [u32],
    pub map: &'a AddressMap,
    pub is_told: bool,
}

fn call_name(call: u8) -> &'static [u8]
    ensures { result.now ≡ call_name call }
{
    match call {
        pal::PROBE => b" ; probe",
        pal::LOOK_UP => b" ; look up",
        pal::SERVE => b" ; service",
        pal::RAISE => b" ; exception",
        pal::TRAP => b" ; trap",
        pal::INTERPRET => b" ; interpret",
        pal::SWITCH => b" ; switch",
        _ => b"",
    }
}

fn put_to(out: &mut Vec<u8>, address: Option<u32>) -> Result<(), AllocError>
    ensures { OnOk result (out.new.items ≡ out.old.items ++ to_text address) }
{
    if let Some(address) = address {
        out.extend_from_slice(b" ; to ")?;
        put_longword(out, u64::from(address))?;
    }
    Ok(())
}

fn put_note_by(
    out: &mut Vec<u8>,
    map: &AddressMap,
    number: u32,
    instr: AlphaInstr,
) -> Result<(), AllocError>
    ensures { OnOk result (out.new.items ≡ out.old.items ++ note_by map.now number instr) }
{
    match instr {
        AlphaInstr::Pal(call) => out.extend_from_slice(call_name(call)),
        AlphaInstr::Branch { disp, .. } => {
            let target = number.wrapping_add(1).wrapping_add(disp.cast_unsigned());
            put_to(out, map.vax_of(target))
        }
        AlphaInstr::Memory { .. } | AlphaInstr::Operate { .. } | AlphaInstr::Jump { .. } => Ok(()),
    }
}

fn put_note(out: &mut Vec<u8>, map: &AddressMap, number: u32, word: u32) -> Result<(), AllocError>
    ensures { OnOk result (out.new.items ≡ out.old.items ++ note_of map.now number word) }
{
    match decode(word) {
        Some(instr) => put_note_by(out, map, number, instr),
        None => Ok(()),
    }
}

fn put_number(out: &mut Vec<u8>, number: u32) -> Result<(), AllocError>
    ensures { OnOk result (out.new.items ≡ out.old.items ++ behind_blanks (eight_digits number)) }
{
    out.extend_from_slice(b"  ")?;
    put_longword(out, u64::from(number))?;
    Ok(())
}

fn put_word_text(out: &mut Vec<u8>, word: u32) -> Result<(), AllocError>
    ensures { OnOk result (out.new.items ≡ out.old.items ++ behind_blanks (word_text word)) }
{
    out.extend_from_slice(b"  ")?;
    out.extend_from_slice(word_text(word).as_slice())?;
    Ok(())
}

fn put_word(out: &mut Vec<u8>, map: &AddressMap, number: u32, word: u32) -> Result<(), AllocError>
    ensures { OnOk result (out.new.items ≡ out.old.items ++ alpha_line map.now number word) }
{
    put_number(out, number)?;
    put_number(out, word)?;
    put_word_text(out, word)?;
    put_note(out, map, number, word)?;
    out.push(b'\n')?;
    Ok(())
}

fn put_words_behind(
    out: &mut Vec<u8>,
    map: &AddressMap,
    first: u32,
    words: &[u32],
) -> Result<(), AllocError>
    ensures { OnOk result (out.new.items ≡ out.old.items ++ lines_behind map.now first words.now) }
{
    let mut number = first;
    for word in words {
        if map.vax_of(number).is_some() {
            return Ok(());
        }
        put_word(out, map, number, *word)?;
        number = number.wrapping_add(1);
    }
    Ok(())
}

fn put_block(
    out: &mut Vec<u8>,
    map: &AddressMap,
    first: u32,
    words: &[u32],
) -> Result<(), AllocError>
    ensures { OnOk result (out.new.items ≡ out.old.items ++ block_lines map.now first words.now) }
{
    match words {
        [] => Ok(()),
        [word, more @ ..] => {
            put_word(out, map, first, *word)?;
            put_words_behind(out, map, first.wrapping_add(1), more)
        }
    }
}

/// The words of the block that begins with that one.
pub fn put_block_text(
    out: &mut Vec<u8>,
    code: &Code<'_>,
    first: Option<u32>,
) -> Result<(), AllocError>
    ensures { OnOk result (out.new.items ≡ out.old.items ++ block_text code.now.words.now code.now.map.now first) }
{
    match first {
        Some(first) if (first as usize) < code.words.len() => {
            put_block(out, code.map, first, &code.words[first as usize..])
        }
        _ => Ok(()),
    }
}
