// A call whose destination the code fixes: what its words are made from, and its operands.
ghost use Rattle.std.specs.Prelude.{◌≡◌, IfOk};
ghost use Rattle.program_codegen.specs.Calls.{argument_temp, call_at, destination_of, first_specifier, front_program, is_on_stack, list_base, list_program, list_specifier, steps_left, steps_of};
ghost use Rattle.program_codegen.specs.CallPromises.{AreLongOperands};

use micro_ops::Micro;
use operand_programs::{Specifier, Steps, put_operand, put_steps};
use std::alloc::Global;
use vax_form::{
    AP, Access, Base, FP, Instr, LongOperation, Operand, Pages, SP, Size, WantOfMemory,
    fixed_address,
};
use vax_long::{code_word, long_operation_of};

/// The temporary of the count of CALLS, or of the address of CALLG's list.
pub(crate) const FIRST_TEMP: u8 = 0;
/// The temporary of a value that is pushed.
pub(crate) const VALUE_TEMP: u8 = 1;
/// The temporary of where CALLS pushes the count, or of SP.
pub(crate) const LIST_TEMP: u8 = 2;
/// The temporary of that aligned.
pub(crate) const FRAME_TEMP: u8 = 3;

/// What a push adds to SP.
const BELOW: u32 = 0xFFFF_FFFC;

/// The first operand, whether the arguments are on the stack, as those of CALLS are, the entry mask, and the address behind
/// it.
#[derive(Clone, Copy)]
pub(crate) struct Call {
    pub(crate) first: Operand,
    pub(crate) stack: bool,
    pub(crate) mask: u16,
    pub(crate) entry: u32,
}

fn destination_of(instr: &Instr) -> u32
    ensures { result ≡ destination_of instr.now }
{
    fixed_address(&instr.operands[1]).unwrap_or(0)
}

fn is_on_stack(operation: Option<LongOperation>) -> bool
    ensures { result ≡ is_on_stack operation }
{
    matches!(operation, Some(LongOperation::CallStack))
}

pub(crate) fn call_at(instr: &Instr, pages: &Pages) -> Call
    ensures value { result ≡ call_at instr.now pages.now }
    ensures long { AreLongOperands instr.now }
{
    let (first, _second) = (instr.operands[0], instr.operands[1]);
    let destination = destination_of(instr);
    Call {
        first,
        stack: is_on_stack(long_operation_of(instr.opcode)),
        mask: code_word(pages, destination).unwrap_or(0),
        entry: destination.wrapping_add(2),
    }
}

fn first_specifier(stack: bool, operand: Operand) -> Specifier
    ensures { result ≡ first_specifier stack operand }
{
    let (access, size) = if stack {
        (Access::Read, Size::Long)
    } else {
        (Access::Address, Size::Byte)
    };
    Specifier {
        access,
        size,
        operand,
        to: FIRST_TEMP,
        place: VALUE_TEMP,
    }
}

fn list_base(stack: bool) -> Base
    ensures { result ≡ list_base stack }
{
    if stack {
        Base::Offset {
            register: SP,
            offset: BELOW,
            deferred: false,
        }
    } else {
        Base::Deferred(SP)
    }
}

fn list_specifier(stack: bool) -> Specifier
    ensures { result ≡ list_specifier stack }
{
    Specifier {
        access: Access::Address,
        size: Size::Long,
        operand: Operand::Place {
            base: list_base(stack),
            index: None,
        },
        to: LIST_TEMP,
        place: FRAME_TEMP,
    }
}

/// The operands, and the check of the push of the count; what they add to the registers stands beside.
pub(crate) fn front_program(alloc: Global, call: Call) -> Result<(Vec<Micro>, Steps), WantOfMemory>
    ensures { IfOk result (λ front. (front.0.items ≡ front_program call) × (front.1 ≡ steps_of call)) }
{
    let mut program = Vec::new(alloc);
    let mut steps = [0; 15];
    put_operand(
        &mut program,
        first_specifier(call.stack, call.first),
        &mut steps,
    )?;
    put_operand(&mut program, list_specifier(call.stack), &mut steps)?;
    if call.stack {
        program.extend_from_slice(&[Micro::Probe {
            place: LIST_TEMP,
            count: 4,
            write: true,
        }])?;
    }
    Ok((program, steps))
}

fn steps_left(steps: &Steps) -> Steps
    ensures { result ≡ steps_left steps.now }
{
    let mut left = *steps;
    left[AP as usize] = 0;
    left[FP as usize] = 0;
    left[SP as usize] = 0;
    left
}

fn argument_temp(stack: bool) -> u8
    ensures { result ≡ argument_temp stack }
{
    if stack { LIST_TEMP } else { FIRST_TEMP }
}

/// What the operands added to R0 to R11 goes into them, and the place of the list into AP.
pub(crate) fn list_program(
    alloc: Global,
    stack: bool,
    steps: &Steps,
) -> Result<Vec<Micro>, WantOfMemory>
    ensures { IfOk result (λ program. program.items ≡ list_program stack steps.now) }
{
    let mut program = Vec::new(alloc);
    put_steps(&mut program, &steps_left(steps))?;
    program.extend_from_slice(&[Micro::Commit {
        register: AP,
        from: argument_temp(stack),
    }])?;
    Ok(program)
}
