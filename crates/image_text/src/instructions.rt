// What is told of one instruction.
ghost use Rattle.std.specs.Prelude.{◌≡◌, ◌++◌, IfOk, OnOk};
ghost use Rattle.std.specs.List.{flat_map};
ghost use Rattle.vax_decode.specs.Decoded.{found_of};
ghost use Rattle.image_text.specs.Instructions.{asks_service, ends_thread, fixed_value, is_exit, is_followed, is_open, is_open_by, is_service};
ghost use Rattle.image_text.specs.Lines.{code_text, open_line, service_line, stop_kind, stop_line, stop_lines, stop_text};
ghost use Rattle.image_text.specs.Pieces.{piece_text};

use crate::put::{Piece, put_pieces};
use flow_discovery::goes_on;
use service_codes::EXIT;
use std::alloc::{AllocError, Global};
use vax_decode::{Decoded, decode_at};
use vax_form::{
    Instr, LongOperation, Operand, Operation, Pages, WantOfMemory, call_of, jump_of, operation_of,
};
use vax_text::name_of;

/// A CASE whose limit is this or more is not followed.
const TABLE_LIMIT: u64 = 4_096;

fn is_followed(base: &Operand, limit: &Operand) -> bool
    ensures { result ≡ is_followed base.now limit.now }
{
    match (*base, *limit) {
        (Operand::Value(_), Operand::Value(limit)) => limit < TABLE_LIMIT,
        _ => false,
    }
}

#[tactic(auto, unfolding(crate::specs::Instructions::is_open_by))]
fn is_open_by(instr: &Instr, operation: Operation) -> bool
    ensures { result ≡ is_open_by instr.now operation }
{
    match operation {
        Operation::Jump | Operation::JumpToSubroutine => jump_of(instr).is_none(),
        Operation::Long(LongOperation::CallGeneral | LongOperation::CallStack) => {
            call_of(instr).is_none()
        }
        Operation::Case(_) => !is_followed(&instr.operands[1], &instr.operands[2]),
        _ => false,
    }
}

/// Whether the instruction goes to an address which its code doesn't fix.
#[tactic(auto, unfolding(crate::specs::Instructions::is_open))]
fn is_open(instr: &Instr) -> bool
    ensures { result ≡ is_open instr.now }
{
    match operation_of(instr.opcode) {
        Some(operation) => is_open_by(instr, operation),
        None => false,
    }
}

#[tactic(auto, unfolding(crate::specs::Instructions::is_service))]
fn is_service(operation: Operation) -> bool
    ensures { result ≡ is_service operation }
{
    matches!(operation, Operation::ChangeMode)
}

/// Whether the instruction is CHMK.
#[tactic(auto, unfolding(crate::specs::Instructions::asks_service))]
fn asks_service(instr: &Instr) -> bool
    ensures { result ≡ asks_service instr.now }
{
    match operation_of(instr.opcode) {
        Some(operation) => is_service(operation),
        None => false,
    }
}

fn fixed_value(operand: &Operand) -> Option<u64>
    ensures { result ≡ fixed_value operand.now }
{
    match *operand {
        Operand::Value(value) => Some(value),
        _ => None,
    }
}

fn is_exit(code: Option<u64>) -> bool
    ensures { result ≡ is_exit code }
{
    match code {
        Some(code) => code == EXIT,
        None => false,
    }
}

/// Whether the instruction asks for the service that ends the thread.
fn ends_thread(instr: &Instr) -> bool
    ensures { result ≡ ends_thread instr.now }
{
    asks_service(instr) && is_exit(fixed_value(&instr.operands[0]))
}

/// The line of an instruction that is open.
pub fn put_open(out: &mut Vec<u8>, instr: &Instr) -> Result<(), AllocError>
    ensures { OnOk result (out.new.items ≡ out.old.items ++ open_line instr.now) }
{
    if !is_open(instr) {
        return Ok(());
    }
    put_pieces(
        out,
        &[
            Piece::Text(b"open"),
            Piece::Address(instr.at),
            Piece::Text(b" "),
            Piece::Text(name_of(instr.opcode)),
            Piece::Text(b"\n"),
        ],
    )
}

fn code_text(code: Option<u64>) -> Piece<'static>
    ensures { piece_text result ≡ code_text code }
{
    match code {
        Some(code) => Piece::Number(code),
        None => Piece::Text(b""),
    }
}

/// The line of an instruction that asks for a service.
pub fn put_service(out: &mut Vec<u8>, instr: &Instr) -> Result<(), AllocError>
    ensures { OnOk result (out.new.items ≡ out.old.items ++ service_line instr.now) }
{
    if !asks_service(instr) {
        return Ok(());
    }
    put_pieces(
        out,
        &[
            Piece::Text(b"service"),
            code_text(fixed_value(&instr.operands[0])),
            Piece::Text(b" at"),
            Piece::Address(instr.at),
            Piece::Text(b"\n"),
        ],
    )
}

fn put_stop_text(out: &mut Vec<u8>, from: u32, address: u32, kind: &[u8]) -> Result<(), AllocError>
    ensures { OnOk result (out.new.items ≡ out.old.items ++ stop_text from address (Some kind.now)) }
{
    put_pieces(
        out,
        &[
            Piece::Text(b"stop"),
            Piece::Address(address),
            Piece::Text(b" from"),
            Piece::Address(from),
            Piece::Text(kind),
            Piece::Text(b"\n"),
        ],
    )
}

fn put_stop(out: &mut Vec<u8>, pages: &Pages, from: u32, address: u32) -> Result<(), AllocError>
    ensures { OnOk result (out.new.items ≡ out.old.items ++ stop_line pages.now from address) }
{
    match decode_at(pages, address) {
        Decoded::Instr(_) => Ok(()),
        Decoded::Reserved => put_stop_text(out, from, address, b" reserved"),
        Decoded::BadMode => put_stop_text(out, from, address, b" mode"),
        Decoded::Past(_) => put_stop_text(out, from, address, b" past"),
    }
}

/// A line for each of the addresses at which no instruction stands.
fn put_stops_at(
    out: &mut Vec<u8>,
    pages: &Pages,
    from: u32,
    addresses: &[u32],
) -> Result<(), WantOfMemory>
    ensures { OnOk result (out.new.items ≡ out.old.items ++ flat_map (stop_line pages.now from) addresses.now) }
{
    for address in addresses {
        put_stop(out, pages, from, *address)?;
    }
    Ok(())
}

/// A line for each address to which the instruction goes on, and where none stands.
pub fn put_stops(
    alloc: Global,
    out: &mut Vec<u8>,
    pages: &Pages,
    instr: &Instr,
) -> Result<(), WantOfMemory>
    ensures { OnOk result (out.new.items ≡ out.old.items ++ stop_lines pages.now instr.now) }
{
    if ends_thread(instr) {
        return Ok(());
    }
    let addresses = goes_on(alloc, pages, instr)?;
    put_stops_at(out, pages, instr.at, &addresses)
}
