// An operand, evaluated by the way in which its instruction uses it.
ghost use Rattle.std.specs.Prelude.{◌≡◌, ◌++◌, OnErr, OnOk};
ghost use Rattle.operand_programs.specs.Fronts.{IsFrontOf};
ghost use Rattle.operand_programs.specs.Specifiers.{locate_program, modify_program, steps_behind_operand};
ghost use Rattle.operand_programs.specs.Operands.{modified_program, field_program, operand_program, steps_behind_specifier, IsPlaced, EvaluatesOne};

use crate::specifiers::{Steps, put_place, put_read, put_register};
use micro_ops::Micro;
use std::alloc::AllocError;
use vax_form::{Access, Operand, Size, WantOfMemory};

/// An operand specifier, with the temporaries for the operand's value and for its address. An address that is the value
/// goes into `to`, and an operand that is written needs `to` for the time in which its address is found.
#[derive(Clone, Copy, Debug, PartialEq, Eq)]
pub struct Specifier {
    pub access: Access,
    pub size: Size,
    pub operand: Operand,
    pub to: u8,
    pub place: u8,
}

/// The address of an operand in memory goes into the place.
fn put_located(
    program: &mut Vec<Micro>,
    operand: Operand,
    size: Size,
    steps: &mut Steps,
    place: u8,
    spare: u8,
) -> Result<(), AllocError>
    ensures program { OnOk result (program.new.items ≡ program.old.items ++ locate_program operand size steps.old place spare) }
    ensures steps { OnOk result (steps.new ≡ steps_behind_operand operand size steps.old) }
    ensures refused { OnErr result (IsFrontOf program.old.items program.new.items) }
{
    match operand {
        Operand::Place { base, index } => {
            put_place(program, base, index, size, steps, place, spare)
        }
        Operand::Unused | Operand::Value(_) | Operand::Register(_) | Operand::Target(_) => Ok(()),
    }
}

/// The operand at the place is checked with write intent and read.
fn put_modify(program: &mut Vec<Micro>, size: Size, to: u8, place: u8) -> Result<(), AllocError>
    ensures program { OnOk result (program.new.items ≡ program.old.items ++ modify_program size to place) }
    ensures refused { OnErr result (IsFrontOf program.old.items program.new.items) }
{
    let count = size.bytes() as u8;
    program.push(Micro::Probe {
        place,
        count,
        write: true,
    })?;
    program.push(Micro::Read { to, place, count })?;
    Ok(())
}

/// An operand that is read and written.
fn put_modified(
    program: &mut Vec<Micro>,
    operand: Operand,
    size: Size,
    steps: &mut Steps,
    to: u8,
    place: u8,
) -> Result<(), AllocError>
    ensures program { OnOk result (program.new.items ≡ program.old.items ++ modified_program operand size steps.old to place) }
    ensures steps { OnOk result (steps.new ≡ steps_behind_operand operand size steps.old) }
    ensures refused { OnErr result (IsFrontOf program.old.items program.new.items) }
{
    match operand {
        Operand::Register(number) => put_register(program, number, size, steps, to),
        Operand::Place { base, index } => {
            put_place(program, base, index, size, steps, place, to)?;
            put_modify(program, size, to, place)
        }
        Operand::Unused | Operand::Value(_) | Operand::Target(_) => Ok(()),
    }
}

/// The base of a field.
fn put_field(
    program: &mut Vec<Micro>,
    operand: Operand,
    size: Size,
    steps: &mut Steps,
    to: u8,
    place: u8,
) -> Result<(), AllocError>
    ensures program { OnOk result (program.new.items ≡ program.old.items ++ field_program operand size steps.old to place) }
    ensures steps { OnOk result (steps.new ≡ steps_behind_operand operand size steps.old) }
    ensures refused { OnErr result (IsFrontOf program.old.items program.new.items) }
{
    match operand {
        Operand::Register(number) => put_register(program, number, Size::Long, steps, to),
        _ => put_located(program, operand, size, steps, place, to),
    }
}

fn put_access(
    program: &mut Vec<Micro>,
    specifier: Specifier,
    steps: &mut Steps,
) -> Result<(), AllocError>
    ensures program { OnOk result (program.new.items ≡ program.old.items ++ operand_program specifier steps.old) }
    ensures steps { OnOk result (steps.new ≡ steps_behind_specifier specifier steps.old) }
    ensures refused { OnErr result (IsFrontOf program.old.items program.new.items) }
{
    let Specifier {
        access,
        size,
        operand,
        to,
        place,
    } = specifier;
    match access {
        Access::Read => put_read(program, operand, size, steps, to, place),
        Access::Write => put_located(program, operand, size, steps, place, to),
        Access::Modify => put_modified(program, operand, size, steps, to, place),
        Access::Address => put_located(program, operand, size, steps, to, place),
        Access::Field => put_field(program, operand, size, steps, to, place),
        Access::Branch => Ok(()),
    }
}

/// Evaluates an operand behind others that added the steps to the registers. Its value and its address go into its
/// temporaries; temporary 4 changes too. Where memory is wanting, some of its operations may have been added.
pub fn put_operand(
    program: &mut Vec<Micro>,
    specifier: Specifier,
    steps: &mut Steps,
) -> Result<(), WantOfMemory>
    ensures evaluates { IsPlaced specifier → EvaluatesOne specifier steps.old (operand_program specifier steps.old) }
    ensures program { OnOk result (program.new.items ≡ program.old.items ++ operand_program specifier steps.old) }
    ensures steps { OnOk result (steps.new ≡ steps_behind_specifier specifier steps.old) }
    ensures refused { OnErr result (IsFrontOf program.old.items program.new.items) }
    ensures kept { OnErr result (steps.new ≡ steps.old) }
{
    let mut behind = *steps;
    put_access(program, specifier, &mut behind)?;
    *steps = behind;
    Ok(())
}
