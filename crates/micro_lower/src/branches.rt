// Instructions that evaluate no operand specifier.
// VAX Architecture Reference Manual, "Control Instructions".
ghost use Rattle.std.specs.Prelude.{◌≡◌, ◌∷◌, [], IfOk, MatchOption};
ghost use Rattle.vax_meaning.specs.Branches.{target};
ghost use Rattle.vax_meaning.specs.Evaluation.{operand};
ghost use Rattle.micro_lower.specs.Programs.{flags_of, is_negated, flag_test, condition_exit, branch_if_program, subroutine_program, return_program, plain_program_of};

use crate::micros::{binary, unary};
use micro_ops::{Arg, Exit, Micro, MicroOp};
use std::alloc::{AllocError, Global};
use vax_form::{Condition, Instr, Operation, SP, Size};
use vax_meaning::target;

/// The flags that a condition is made from, by their numbers: one, or either of two.
fn flags_of(condition: Condition) -> (u8, Option<u8>)
    ensures { result ≡ flags_of condition }
{
    use Condition::{Equal, Greater, GreaterUnsigned, LessOrEqual, LessOrEqualUnsigned, NotEqual};
    match condition {
        NotEqual | Equal => (1, None),
        Greater | LessOrEqual => (0, Some(1)),
        Condition::GreaterOrEqual | Condition::Less => (0, None),
        GreaterUnsigned | LessOrEqualUnsigned => (3, Some(1)),
        Condition::OverflowClear | Condition::OverflowSet => (2, None),
        Condition::CarryClear | Condition::CarrySet => (3, None),
    }
}

/// Whether the condition holds where none of its flags is set.
fn is_negated(condition: Condition) -> bool
    ensures { result ≡ is_negated condition }
{
    matches!(
        condition,
        Condition::NotEqual
            | Condition::Greater
            | Condition::GreaterOrEqual
            | Condition::GreaterUnsigned
            | Condition::OverflowClear
            | Condition::CarryClear
    )
}

/// Puts the flags of a condition into temporary 0.
fn flag_test(flags: (u8, Option<u8>)) -> Micro
    ensures { result ≡ flag_test flags }
{
    match flags {
        (first, None) => unary!(0, MicroOp::Move, Size::Byte, Arg::Flag(first)),
        (first, Some(second)) => binary!(
            0,
            MicroOp::Or,
            Size::Byte,
            Arg::Flag(first),
            Arg::Flag(second),
        ),
    }
}

/// An exit alone.
fn leave(alloc: Global, exit: Exit) -> Result<Vec<Micro>, AllocError>
    ensures { IfOk result (λ p. p.items ≡ Micro.Leave exit ∷ []) }
{
    Ok(vec![in alloc; Micro::Leave(exit)]?)
}

/// A condition that holds where none of its flags is set goes elsewhere where one is.
fn condition_exit(condition: Condition, target: u32, after: u32) -> Exit
    ensures { result ≡ condition_exit condition target after }
{
    let (taken, other) = if is_negated(condition) {
        (after, target)
    } else {
        (target, after)
    };
    Exit::Choice {
        when: 0,
        taken,
        other,
    }
}

/// BNEQ to BCS.
fn conditional_branch(
    alloc: Global,
    condition: Condition,
    instr: &Instr,
) -> Result<Vec<Micro>, AllocError>
    ensures { IfOk result (λ p. p.items ≡ branch_if_program condition (target (operand instr.now 0)) instr.now.after) }
{
    let test = flag_test(flags_of(condition));
    let exit = condition_exit(condition, target(instr.operands[0]), instr.after);
    Ok(vec![in alloc; test, Micro::Leave(exit)]?)
}

const STACK: Arg = Arg::Register(SP);

/// The place below the top of the stack goes into 1.
const BELOW: Micro = binary!(1, MicroOp::Add, Size::Long, STACK, Arg::Const(0xFFFF_FFFC));

const CHECKED: Micro = Micro::Probe {
    place: 1,
    count: 4,
    write: true,
};

const PUSHED: Micro = Micro::Write {
    place: 1,
    count: 4,
    from: 2,
};

const COMMITTED: Micro = Micro::Commit {
    register: SP,
    from: 1,
};

/// BSB: the address behind the instruction is pushed.
fn subroutine_branch(alloc: Global, instr: &Instr) -> Result<Vec<Micro>, AllocError>
    ensures { IfOk result (λ p. p.items ≡ subroutine_program (target (operand instr.now 0)) instr.now.after) }
{
    let after = Arg::Const(u64::from(instr.after));
    Ok(vec![in alloc;
        BELOW,
        unary!(2, MicroOp::Move, Size::Long, after),
        CHECKED,
        PUSHED,
        COMMITTED,
        Micro::Leave(Exit::Fixed(target(instr.operands[0]))),
    ]?)
}

const RETURN: [Micro; 6] = [
    unary!(1, MicroOp::Move, Size::Long, STACK),
    Micro::Probe {
        place: 1,
        count: 4,
        write: false,
    },
    Micro::Read {
        to: 0,
        place: 1,
        count: 4,
    },
    binary!(5, MicroOp::Add, Size::Long, STACK, Arg::Const(4)),
    Micro::Commit {
        register: SP,
        from: 5,
    },
    Micro::Leave(Exit::Computed(0)),
];

/// RSB: the PC is popped.
fn subroutine_return(alloc: Global) -> Result<Vec<Micro>, AllocError>
    ensures { IfOk result (λ p. p.items ≡ return_program) }
{
    Ok(Vec::from_array(alloc, RETURN)?)
}

/// The program of an operation that evaluates no operand specifier; None for any other.
#[tactic(auto, unfolding(crate::specs::Programs::plain_program_of))]
pub(crate) fn lower_plain(
    alloc: Global,
    operation: Operation,
    instr: &Instr,
) -> Option<Result<Vec<Micro>, AllocError>>
    ensures { MatchOption result (plain_program_of operation instr.now ≡ None) (λ made. IfOk made (λ p. plain_program_of operation instr.now ≡ Some p.items)) }
{
    match operation {
        Operation::NoOperation => Some(leave(alloc, Exit::Next)),
        Operation::Breakpoint => Some(leave(alloc, Exit::Breakpoint)),
        Operation::Branch(_) => Some(leave(alloc, Exit::Fixed(target(instr.operands[0])))),
        Operation::BranchIf(condition) => Some(conditional_branch(alloc, condition, instr)),
        Operation::BranchToSubroutine(_) => Some(subroutine_branch(alloc, instr)),
        Operation::ReturnFromSubroutine => Some(subroutine_return(alloc)),
        _ => None,
    }
}
