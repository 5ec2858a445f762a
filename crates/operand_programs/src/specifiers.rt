// Operand specifiers as micro operations, with the steps that they add to registers.
ghost use Rattle.std.specs.Prelude.{◌≡◌, ◌≤◌, ◌++◌, [], IfOk, OnErr, OnOk, ◌*◌, length, slice_index, All, ◌<◌};
ghost use Rattle.vax_form.specs.Size.{bytes_of};
ghost use Rattle.operand_programs.specs.Fronts.{IsFrontOf};
ghost use Rattle.operand_programs.specs.Specifiers.{with_step, steps_behind, pointer_of, sum_into, address_program, scaled, index_program, place_program, steps_behind_operand, upper_half_program, low_bytes_program, register_program, read_program};

use micro_ops::{Arg, Micro, MicroOp};
use std::alloc::AllocError;
use vax_form::{Base, Operand, Size};

/// Where a base points: at a register plus an offset, or at an address that the code fixes. Where it is deferred, the
/// longword there is the address of the operand.
#[derive(Clone, Copy, Debug, PartialEq, Eq)]
pub struct Pointer {
    pub register: Option<u8>,
    pub offset: u32,
    pub deferred: bool,
}

/// What the specifiers so far add to each register.
pub type Steps = [u32; 15];

/// What was added to a register.
pub(crate) fn step(steps: &Steps, number: u8) -> u32
    ensures { result ≡ slice_index steps.now number }
{
    if number < 15 {
        steps[number as usize]
    } else {
        0
    }
}

/// Adds to a register.
pub(crate) fn add_step(steps: &mut Steps, number: u8, addend: u32)
    ensures { steps.new ≡ with_step number addend steps.old }
{
    if number < 15 {
        steps[number as usize] = steps[number as usize].wrapping_add(addend);
    }
}

/// Where a base points, for an operand of that many bytes.
fn pointer_of(base: Base, bytes: u32, steps: &Steps) -> Pointer
    requires { bytes ≤ 8 }
    ensures { result ≡ pointer_of base bytes steps.now }
{
    let at = |register: u8, offset: u32, deferred: bool| -> Pointer {
        Pointer {
            register: Some(register),
            offset,
            deferred,
        }
    };
    match base {
        Base::Deferred(n) | Base::Increment(n) => at(n, step(steps, n), false),
        Base::Decrement(n) => at(n, step(steps, n).wrapping_sub(bytes), false),
        Base::IncrementDeferred(n) => at(n, step(steps, n), true),
        Base::Offset {
            register,
            offset,
            deferred,
        } => at(
            register,
            step(steps, register).wrapping_add(offset),
            deferred,
        ),
        Base::Fixed { address, deferred } => Pointer {
            register: None,
            offset: address,
            deferred,
        },
    }
}

/// Adds what a base adds to its register.
fn pass(base: Base, bytes: u32, steps: &mut Steps)
    requires { bytes ≤ 8 }
    ensures { steps.new ≡ steps_behind base bytes steps.old }
{
    match base {
        Base::Decrement(n) => add_step(steps, n, 0u32.wrapping_sub(bytes)),
        Base::Increment(n) => add_step(steps, n, bytes),
        Base::IncrementDeferred(n) => add_step(steps, n, 4),
        Base::Deferred(_) | Base::Offset { .. } | Base::Fixed { .. } => {}
    }
}

/// A computation on longwords.
pub(crate) fn long(to: u8, op: MicroOp, a: Arg, b: Arg) -> Micro
    ensures { result ≡ Micro.Compute to op Size.Long a b }
{
    Micro::Compute {
        to,
        op,
        size: Size::Long,
        a,
        b,
    }
}

/// A computation on quadwords.
pub(crate) fn quad(to: u8, op: MicroOp, a: Arg, b: Arg) -> Micro
    ensures { result ≡ Micro.Compute to op Size.Quad a b }
{
    Micro::Compute {
        to,
        op,
        size: Size::Quad,
        a,
        b,
    }
}

/// A register plus an offset, in a temporary.
pub(crate) fn sum_into(to: u8, register: Option<u8>, offset: u32) -> Micro
    ensures { result ≡ sum_into to register offset }
{
    let offset_arg = Arg::Const(u64::from(offset));
    match register {
        None => long(to, MicroOp::Move, offset_arg, Arg::Const(0)),
        Some(n) if offset == 0 => long(to, MicroOp::Move, Arg::Register(n), Arg::Const(0)),
        Some(n) => long(to, MicroOp::Add, Arg::Register(n), offset_arg),
    }
}

/// The address of a base goes into the place; a deferred one is read by an address in the spare temporary.
fn put_address(
    program: &mut Vec<Micro>,
    pointer: Pointer,
    place: u8,
    spare: u8,
) -> Result<(), AllocError>
    ensures program { OnOk result (program.new.items ≡ program.old.items ++ address_program pointer place spare) }
    ensures refused { OnErr result (IsFrontOf program.old.items program.new.items) }
{
    if pointer.deferred {
        program.push(sum_into(spare, pointer.register, pointer.offset))?;
        program.push(Micro::Probe {
            place: spare,
            count: 4,
            write: false,
        })?;
        program.push(Micro::Read {
            to: place,
            place: spare,
            count: 4,
        })?;
    } else {
        program.push(sum_into(place, pointer.register, pointer.offset))?;
    }
    Ok(())
}

/// Adds the index, which counts operands.
fn put_index(
    program: &mut Vec<Micro>,
    index: Option<u8>,
    size: Size,
    steps: &Steps,
    place: u8,
) -> Result<(), AllocError>
    ensures program { OnOk result (program.new.items ≡ program.old.items ++ index_program index size steps.now place) }
    ensures refused { OnErr result (IsFrontOf program.old.items program.new.items) }
{
    if let Some(x) = index {
        program.push(sum_into(4, Some(x), step(steps, x)))?;
        if !matches!(size, Size::Byte) {
            let bytes = Arg::Const(u64::from(size.bytes()));
            program.push(quad(4, MicroOp::Mul, Arg::Temp(4), bytes))?;
        }
        program.push(long(place, MicroOp::Add, Arg::Temp(place), Arg::Temp(4)))?;
    }
    Ok(())
}

/// The address of an operand in memory goes into the place. The spare temporary and temporary 4 change too.
pub(crate) fn put_place(
    program: &mut Vec<Micro>,
    base: Base,
    index: Option<u8>,
    size: Size,
    steps: &mut Steps,
    place: u8,
    spare: u8,
) -> Result<(), AllocError>
    ensures program { OnOk result (program.new.items ≡ program.old.items ++ place_program base index size steps.old place spare) }
    ensures steps { OnOk result (steps.new ≡ steps_behind base (bytes_of size) steps.old) }
    ensures refused { OnErr result (IsFrontOf program.old.items program.new.items) }
{
    put_address(program, pointer_of(base, size.bytes(), steps), place, spare)?;
    pass(base, size.bytes(), steps);
    put_index(program, index, size, steps, place)
}

/// The low bytes of an argument.
fn low_bytes(to: u8, size: Size, a: Arg) -> Micro
    ensures { result ≡ Micro.Compute to MicroOp.ZeroExtend size a (Arg.Const 0) }
{
    Micro::Compute {
        to,
        op: MicroOp::ZeroExtend,
        size,
        a,
        b: Arg::Const(0),
    }
}

/// The low bytes of a register plus an offset.
fn put_low_bytes(
    program: &mut Vec<Micro>,
    number: u8,
    size: Size,
    offset: u32,
    to: u8,
) -> Result<(), AllocError>
    ensures program { OnOk result (program.new.items ≡ program.old.items ++ low_bytes_program number size offset to) }
    ensures refused { OnErr result (IsFrontOf program.old.items program.new.items) }
{
    if offset == 0 {
        program.push(low_bytes(to, size, Arg::Register(number)))?;
    } else {
        program.push(sum_into(to, Some(number), offset))?;
        program.push(low_bytes(to, size, Arg::Temp(to)))?;
    }
    Ok(())
}

/// The value of a register, at its size.
pub(crate) fn put_register(
    program: &mut Vec<Micro>,
    number: u8,
    size: Size,
    steps: &Steps,
    to: u8,
) -> Result<(), AllocError>
    ensures program { OnOk result (program.new.items ≡ program.old.items ++ register_program number size steps.now to) }
    ensures refused { OnErr result (IsFrontOf program.old.items program.new.items) }
{
    let offset = step(steps, number);
    match size {
        Size::Byte | Size::Word => put_low_bytes(program, number, size, offset, to)?,
        Size::Long => program.push(sum_into(to, Some(number), offset))?,
        Size::Quad => {
            program.push(sum_into(to, Some(number), offset))?;
            put_upper_half(program, number.saturating_add(1), steps, to)?
        }
    }
    Ok(())
}

/// Adds a register as the upper half of a quadword.
fn put_upper_half(
    program: &mut Vec<Micro>,
    number: u8,
    steps: &Steps,
    to: u8,
) -> Result<(), AllocError>
    ensures program { OnOk result (program.new.items ≡ program.old.items ++ upper_half_program number steps.now to) }
    ensures refused { OnErr result (IsFrontOf program.old.items program.new.items) }
{
    program.push(sum_into(4, Some(number), step(steps, number)))?;
    let upper = Arg::Const(0x1_0000_0000);
    program.push(quad(4, MicroOp::Mul, Arg::Temp(4), upper))?;
    program.push(quad(to, MicroOp::Add, Arg::Temp(to), Arg::Temp(4)))?;
    Ok(())
}

/// The value of an operand that is read goes into a temporary; its address goes into the place.
pub(crate) fn put_read(
    program: &mut Vec<Micro>,
    operand: Operand,
    size: Size,
    steps: &mut Steps,
    to: u8,
    place: u8,
) -> Result<(), AllocError>
    ensures program { OnOk result (program.new.items ≡ program.old.items ++ read_program operand size steps.old to place) }
    ensures steps { OnOk result (steps.new ≡ steps_behind_operand operand size steps.old) }
    ensures refused { OnErr result (IsFrontOf program.old.items program.new.items) }
{
    match operand {
        Operand::Value(value) => program.push(Micro::Compute {
            to,
            op: MicroOp::Move,
            size,
            a: Arg::Const(value),
            b: Arg::Const(0),
        })?,
        Operand::Register(number) => put_register(program, number, size, steps, to)?,
        Operand::Place { base, index } => {
            put_place(program, base, index, size, steps, place, to)?;
            let count = size.bytes() as u8;
            program.push(Micro::Probe {
                place,
                count,
                write: false,
            })?;
            program.push(Micro::Read { to, place, count })?;
        }
        Operand::Unused | Operand::Target(_) => {}
    }
    Ok(())
}
