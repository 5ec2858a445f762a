// Arithmetic and logical instructions, and tests.
// VAX Architecture Reference Manual, "Integer Arithmetic and Logical Instructions".
ghost use Rattle.std.specs.Prelude.{◌≡◌, ◌≤◌, IfOk, length};
ghost use Rattle.vax_form.specs.Size.{size_of};
ghost use Rattle.micro_lower.specs.Plans.{plan_of, program_of};
ghost use Rattle.micro_lower.specs.Rows.{compare_plan, test_plan, bit_test_plan, micro_of, made_size, behind_binary, two_operands_plan, three_operands_plan, by_one_plan, add_with_carry_plan, subtract_with_carry_plan, aligned_slot, add_aligned_plan};

use crate::micros::{binary, unary};
use crate::plans::{Plan, Slot, Target, assemble};
use crate::rows::{modified, operand, overflow_by, read, register_target, slot, written};
use micro_ops::{Arg, CodeSources, Exit, LockedOp, Micro, MicroOp};
use std::alloc::Global;
use vax_form::{Access, BinaryOperation, Instr, Operand, Size, WantOfMemory, Width};

/// CMP.
pub(crate) fn compare(
    alloc: Global,
    codes: CodeSources,
    instr: &Instr,
    width: Width,
) -> Result<Vec<Micro>, WantOfMemory>
    ensures { IfOk result (λ p. p.items ≡ program_of codes (compare_plan width) instr.now) }
{
    let plan = Plan {
        slots: &[read(width.size(), 0, 1), read(width.size(), 1, 2)],
        before: &[],
        target: Target::Nowhere,
        behind: &[],
        exit: Exit::Next,
    };
    assemble(alloc, codes, plan, instr)
}

/// TST.
pub(crate) fn test_value(
    alloc: Global,
    codes: CodeSources,
    instr: &Instr,
    width: Width,
) -> Result<Vec<Micro>, WantOfMemory>
    ensures { IfOk result (λ p. p.items ≡ program_of codes (test_plan width) instr.now) }
{
    let plan = Plan {
        slots: &[read(width.size(), 2, 1)],
        before: &[],
        target: Target::Nowhere,
        behind: &[],
        exit: Exit::Next,
    };
    assemble(alloc, codes, plan, instr)
}

/// BIT.
pub(crate) fn bit_test(
    alloc: Global,
    codes: CodeSources,
    instr: &Instr,
    width: Width,
) -> Result<Vec<Micro>, WantOfMemory>
    ensures { IfOk result (λ p. p.items ≡ program_of codes (bit_test_plan width) instr.now) }
{
    let size = width.size();
    let plan = Plan {
        slots: &[read(size, 0, 1), read(size, 1, 2)],
        before: &[],
        target: Target::Nowhere,
        behind: &[binary!(2, MicroOp::And, Size::Quad, Arg::Temp(0), Arg::Temp(1))],
        exit: Exit::Next,
    };
    assemble(alloc, codes, plan, instr)
}

/// What makes the result; a division has no program.
fn micro_of(operation: BinaryOperation) -> MicroOp
    ensures { result ≡ micro_of operation }
{
    match operation {
        BinaryOperation::Add => MicroOp::Add,
        BinaryOperation::Subtract => MicroOp::Sub,
        BinaryOperation::Multiply | BinaryOperation::Divide => MicroOp::Mul,
        BinaryOperation::BitSet => MicroOp::Or,
        BinaryOperation::BitClear => MicroOp::AndNot,
        BinaryOperation::ExclusiveOr => MicroOp::Xor,
    }
}

/// The size at which the result is made: a logical one of two numbers of a size is one of that size, and nothing is masked.
fn made_size(operation: BinaryOperation, size: Size) -> Size
    ensures { result ≡ made_size operation size }
{
    match operation {
        BinaryOperation::BitSet | BinaryOperation::BitClear | BinaryOperation::ExclusiveOr => {
            Size::Quad
        }
        BinaryOperation::Add
        | BinaryOperation::Subtract
        | BinaryOperation::Multiply
        | BinaryOperation::Divide => size,
    }
}

/// What makes the result of the operands in 0 and 1.
fn made(operation: BinaryOperation, size: Size) -> Micro
    ensures { result ≡ Micro.Compute 2 (micro_of operation) (made_size operation size) (Arg.Temp 0) (Arg.Temp 1) }
{
    binary!(
        2,
        micro_of(operation),
        made_size(operation, size),
        Arg::Temp(0),
        Arg::Temp(1),
    )
}

/// V of a product whose operands are in 0 and 1.
fn product_overflow(size: Size) -> [Micro; 6]
    ensures { result ≡ behind_binary BinaryOperation.Multiply size }
{
    let [extended, equal, overflows] = overflow_by(size);
    [
        unary!(4, MicroOp::SignExtend, size, Arg::Temp(0)),
        unary!(5, MicroOp::SignExtend, size, Arg::Temp(1)),
        binary!(4, MicroOp::Mul, Size::Quad, Arg::Temp(4), Arg::Temp(5)),
        extended,
        equal,
        overflows,
    ]
}

/// A row with two operands in 0 and 1: V of a product is computed.
fn assemble_binary(
    alloc: Global,
    operation: BinaryOperation,
    size: Size,
    plan: Plan<'_>,
    codes: CodeSources,
    instr: &Instr,
) -> Result<Vec<Micro>, WantOfMemory>
    requires { length plan.slots.now ≤ 6 }
    ensures { IfOk result (λ p. p.items ≡ program_of codes (record (plan_of plan.entry) { behind = behind_binary operation size }) instr.now) }
{
    let overflow = product_overflow(size);
    let behind: &[Micro] = match operation {
        BinaryOperation::Multiply => &overflow,
        _ => &[],
    };
    assemble(alloc, codes, Plan { behind, ..plan }, instr)
}

/// ADD2, SUB2, MUL2, BIS2, BIC2, XOR2.
pub(crate) fn two_operands(
    alloc: Global,
    codes: CodeSources,
    instr: &Instr,
    operation: BinaryOperation,
    width: Width,
) -> Result<Vec<Micro>, WantOfMemory>
    ensures { IfOk result (λ p. p.items ≡ program_of codes (two_operands_plan operation width instr.now) instr.now) }
{
    let size = width.size();
    let plan = Plan {
        slots: &[read(size, 1, 2), modified(size, 0)],
        before: &[made(operation, size)],
        target: Target::Replacement {
            operand: operand(instr, 1),
            size,
        },
        behind: &[],
        exit: Exit::Next,
    };
    assemble_binary(alloc, operation, size, plan, codes, instr)
}

/// ADD3, SUB3, MUL3, BIS3, BIC3, XOR3.
pub(crate) fn three_operands(
    alloc: Global,
    codes: CodeSources,
    instr: &Instr,
    operation: BinaryOperation,
    width: Width,
) -> Result<Vec<Micro>, WantOfMemory>
    ensures { IfOk result (λ p. p.items ≡ program_of codes (three_operands_plan operation width instr.now) instr.now) }
{
    let size = width.size();
    let plan = Plan {
        slots: &[read(size, 1, 2), read(size, 0, 2), written(size)],
        before: &[made(operation, size)],
        target: Target::Result {
            operand: operand(instr, 2),
            size,
        },
        behind: &[],
        exit: Exit::Next,
    };
    assemble_binary(alloc, operation, size, plan, codes, instr)
}

/// 1 into 1.
const ONE: Micro = unary!(1, MicroOp::Move, Size::Byte, Arg::Const(1));

/// INC, DEC.
pub(crate) fn by_one(
    alloc: Global,
    codes: CodeSources,
    instr: &Instr,
    op: MicroOp,
    width: Width,
) -> Result<Vec<Micro>, WantOfMemory>
    ensures { IfOk result (λ p. p.items ≡ program_of codes (by_one_plan op width instr.now) instr.now) }
{
    let size = width.size();
    let plan = Plan {
        slots: &[modified(size, 0)],
        before: &[binary!(2, op, size, Arg::Temp(0), Arg::Const(1))],
        target: Target::Replacement {
            operand: operand(instr, 0),
            size,
        },
        behind: &[ONE],
        exit: Exit::Next,
    };
    assemble(alloc, codes, plan, instr)
}

/// A carry, as an addend.
const CARRY: Arg = Arg::Flag(3);

/// V into 3: the number in 4 is not the longword in 2 extended.
const LONG_EXTENDED: Micro = unary!(5, MicroOp::SignExtend, Size::Long, Arg::Temp(2));

const IS_EXTENDED: Micro = binary!(3, MicroOp::Equal, Size::Quad, Arg::Temp(4), Arg::Temp(5));

pub(crate) const OVERFLOWS: Micro = binary!(
    3,
    MicroOp::Xor,
    Size::Byte,
    Arg::Temp(3),
    Arg::Const(1)
);

const SUM_WITH_CARRY: [Micro; 2] = [
    binary!(2, MicroOp::Add, Size::Long, Arg::Temp(0), Arg::Temp(1)),
    binary!(2, MicroOp::Add, Size::Long, Arg::Temp(2), CARRY),
];

/// V, and C, which is bit 32 of the sum.
const CODES_OF_SUM: [Micro; 10] = [
    unary!(4, MicroOp::SignExtend, Size::Long, Arg::Temp(0)),
    unary!(5, MicroOp::SignExtend, Size::Long, Arg::Temp(1)),
    binary!(4, MicroOp::Add, Size::Quad, Arg::Temp(4), Arg::Temp(5)),
    binary!(4, MicroOp::Add, Size::Quad, Arg::Temp(4), CARRY),
    LONG_EXTENDED,
    IS_EXTENDED,
    OVERFLOWS,
    binary!(4, MicroOp::Add, Size::Quad, Arg::Temp(0), Arg::Temp(1)),
    binary!(4, MicroOp::Add, Size::Quad, Arg::Temp(4), CARRY),
    binary!(
        4,
        MicroOp::ShiftRight,
        Size::Quad,
        Arg::Temp(4),
        Arg::Const(32)
    ),
];

/// The second is modified.
const LONGWORDS: [Slot; 2] = [
    slot!(Access::Read, Size::Long, 1, 2),
    slot!(Access::Modify, Size::Long, 0, 3),
];

/// ADWC.
pub(crate) fn add_with_carry(
    alloc: Global,
    codes: CodeSources,
    instr: &Instr,
) -> Result<Vec<Micro>, WantOfMemory>
    ensures { IfOk result (λ p. p.items ≡ program_of codes (add_with_carry_plan instr.now) instr.now) }
{
    let plan = Plan {
        slots: &LONGWORDS,
        before: &SUM_WITH_CARRY,
        target: Target::Replacement {
            operand: operand(instr, 1),
            size: Size::Long,
        },
        behind: &CODES_OF_SUM,
        exit: Exit::Next,
    };
    assemble(alloc, codes, plan, instr)
}

const DIFFERENCE_WITH_CARRY: [Micro; 2] = [
    binary!(2, MicroOp::Sub, Size::Long, Arg::Temp(0), Arg::Temp(1)),
    binary!(2, MicroOp::Sub, Size::Long, Arg::Temp(2), CARRY),
];

/// V, and C, which says that the first is below the second with C.
const CODES_OF_DIFFERENCE: [Micro; 9] = [
    unary!(4, MicroOp::SignExtend, Size::Long, Arg::Temp(0)),
    unary!(5, MicroOp::SignExtend, Size::Long, Arg::Temp(1)),
    binary!(4, MicroOp::Sub, Size::Quad, Arg::Temp(4), Arg::Temp(5)),
    binary!(4, MicroOp::Sub, Size::Quad, Arg::Temp(4), CARRY),
    LONG_EXTENDED,
    IS_EXTENDED,
    OVERFLOWS,
    binary!(4, MicroOp::Add, Size::Quad, Arg::Temp(1), CARRY),
    binary!(
        4,
        MicroOp::LessUnsigned,
        Size::Quad,
        Arg::Temp(0),
        Arg::Temp(4)
    ),
];

/// SBWC.
pub(crate) fn subtract_with_carry(
    alloc: Global,
    codes: CodeSources,
    instr: &Instr,
) -> Result<Vec<Micro>, WantOfMemory>
    ensures { IfOk result (λ p. p.items ≡ program_of codes (subtract_with_carry_plan instr.now) instr.now) }
{
    let plan = Plan {
        slots: &LONGWORDS,
        before: &DIFFERENCE_WITH_CARRY,
        target: Target::Replacement {
            operand: operand(instr, 1),
            size: Size::Long,
        },
        behind: &CODES_OF_DIFFERENCE,
        exit: Exit::Next,
    };
    assemble(alloc, codes, plan, instr)
}

/// A register is modified, and in memory the one reference stands behind all operands.
fn aligned_slot(base: Operand) -> Slot
    ensures { result ≡ aligned_slot base }
{
    match base {
        Operand::Register(_) => modified(Size::Word, 0),
        Operand::Unused | Operand::Value(_) | Operand::Place { .. } | Operand::Target(_) => {
            written(Size::Word)
        }
    }
}

/// The sum of the words in 0 and 1 goes into 2.
const WORD_ADDED: Micro = binary!(2, MicroOp::Add, Size::Word, Arg::Temp(0), Arg::Temp(1));

const IN_A_REGISTER: [Micro; 1] = [WORD_ADDED];

const CHECKED: Micro = Micro::Probe {
    place: 3,
    count: 2,
    write: true,
};

/// An odd address is refused, before it is checked.
const ALIGNED_REFERENCE: [Micro; 5] = [
    binary!(4, MicroOp::And, Size::Byte, Arg::Temp(3), Arg::Const(1)),
    Micro::Refuse { when: 4 },
    CHECKED,
    Micro::Locked {
        to: 0,
        place: 3,
        kind: LockedOp::AddWord,
        from: 1,
    },
    WORD_ADDED,
];

/// ADAWI.
pub(crate) fn add_aligned_word(
    alloc: Global,
    codes: CodeSources,
    instr: &Instr,
) -> Result<Vec<Micro>, WantOfMemory>
    ensures { IfOk result (λ p. p.items ≡ program_of codes (add_aligned_plan instr.now) instr.now) }
{
    let base = operand(instr, 1);
    let before: &[Micro] = match base {
        Operand::Register(_) => &IN_A_REGISTER,
        Operand::Unused | Operand::Value(_) | Operand::Place { .. } | Operand::Target(_) => {
            &ALIGNED_REFERENCE
        }
    };
    let plan = Plan {
        slots: &[read(Size::Word, 1, 2), aligned_slot(base)],
        before,
        target: register_target(base, Size::Word),
        behind: &[],
        exit: Exit::Next,
    };
    assemble(alloc, codes, plan, instr)
}
