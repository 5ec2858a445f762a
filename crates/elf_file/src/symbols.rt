// The functions that an ELF file's symbols name.
ghost use Rattle.std.specs.Prelude.{◌≡◌, ◌≤◌, ◌+◌, length, drop, IfOk, not, false};
ghost use Rattle.elf_file.specs.Refusal.{Gives};
ghost use Rattle.elf_file.specs.Fields.{is_cut};
ghost use Rattle.elf_file.specs.Symbols.{section_header_in, symbol_in, symbols_in, is_function, functions_in, functions_of, functions_named};

use crate::fields::{half_at, is_cut};
use crate::figures::*;
use crate::header::header_of;
use crate::refusal::ElfRefusal;
use crate::sections::{
    SectionHeader, is_read_only, is_section_cut, lacks_sections, section_header_at,
    section_headers, symbol_table,
};
use image_file::word_at;
use std::alloc::{AllocError, Global};

/// A symbol: its value, its type among other information, and the number of the section that defines it.
#[derive(Clone, Copy)]
pub struct Symbol {
    pub value: u32,
    pub info: u8,
    pub section: u16,
}

fn symbol_at(bytes: &[u8], at: usize) -> Symbol
    requires { at + SYMBOL ≤ length bytes.now }
    ensures { result ≡ symbol_in (drop at bytes.now) }
{
    Symbol {
        value: word_at(bytes, at + 4),
        info: bytes[at + 12],
        section: half_at(bytes, at + 14),
    }
}

fn is_function(sections: &[SectionHeader], symbol: &Symbol) -> bool
    ensures { result ≡ is_function sections.now symbol.now }
{
    symbol.info % SYMBOL_TYPES == FUNCTION
        && symbol.section != UNDEFINED
        && is_read_only(sections, symbol.section)
}

/// The values of a table's functions. All of the table is there.
fn functions_in(
    alloc: Global,
    bytes: &[u8],
    sections: &[SectionHeader],
    table: &SectionHeader,
) -> Result<Vec<u32>, AllocError>
    requires { is_cut table.now.offset table.now.size bytes.now ≡ false }
    ensures { IfOk result (λ v. v.items ≡ functions_in sections.now (symbols_in table.now bytes.now)) }
{
    let mut values = Vec::new(alloc);
    for place in 0..table.size as usize / SYMBOL {
        let symbol = symbol_at(bytes, table.offset as usize + SYMBOL * place);
        if is_function(sections, &symbol) {
            values.push(symbol.value)?;
        }
    }
    Ok(values)
}

/// The functions of the symbol table whose section header stands at that place.
#[tactic(auto, unfolding(crate::specs::Symbols::functions_of))]
fn functions_of(
    alloc: Global,
    bytes: &[u8],
    sections: &[SectionHeader],
    at: usize,
) -> Result<Vec<u32>, ElfRefusal>
    requires { at + SECTION_HEADER ≤ length bytes.now }
    ensures { Gives (λ v. v.items) result (functions_of sections.now bytes.now at) }
{
    let table = section_header_at(bytes, at);
    if is_cut(bytes, table.offset as usize, table.size as usize)
        || is_section_cut(bytes, sections, table.link)
    {
        return Err(ElfRefusal::SymbolsCut { at: at as u64 });
    }
    Ok(functions_in(alloc, bytes, sections, &table)?)
}

/// The values of the symbols that are functions in a read-only section, in the order of the file's symbol table.
#[tactic(auto, unfolding(crate::specs::Symbols::functions_named))]
pub fn function_symbols(alloc: Global, bytes: &[u8]) -> Result<Vec<u32>, ElfRefusal>
    ensures { Gives (λ v. v.items) result (functions_named bytes.now) }
{
    let header = header_of(bytes)?;
    let sections_at = header.sections_at as usize;
    if lacks_sections(&header, bytes) {
        let at = sections_at as u64;
        return Err(ElfRefusal::SymbolsCut { at });
    }
    let sections = section_headers(alloc, &header, bytes)?;
    match symbol_table(&sections) {
        None => Ok(Vec::new(alloc)),
        Some(place) => {
            let at = sections_at + SECTION_HEADER * place;
            functions_of(alloc, bytes, &sections, at)
        }
    }
}
