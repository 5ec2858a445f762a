// Branches on a bit.
// VAX Architecture Reference Manual, "Control Instructions": Branch on Bit.
ghost use Rattle.std.specs.Prelude.{◌≡◌, ◌<◌, ◌^◌, ◌++◌, ◌∷◌, [], nat_lt, IfOk, OnOk};
ghost use Rattle.micro_lower.specs.Plans.{program_of};
ghost use Rattle.micro_lower.specs.Rows.{bit_tested, storing, with_bit_into, bit_stored, locked_op, byte_program, before_bit, bit_target, is_plain, literal_position, masked, with_mask_into, mask_stored, mask_program, byte_of, before_literal, bit_branch_plan};

use crate::micros::{add, binary, unary};
use crate::plans::{Plan, Slot, Target, assemble};
use crate::rows::{BIT, operand, register_target, slot, test_exit};
use micro_ops::{Arg, CodeSources, LockedOp, Micro, MicroOp};
use std::alloc::Global;
use vax_form::{Access, BitBranch, BitStore, Instr, Operand, Size, WantOfMemory};

/// The greatest number of a bit in a register, and in a byte.
const LAST_BIT: u64 = 31;

const LAST_BIT_OF_BYTE: u64 = 7;

/// Bytes to the number of bits: the power of two.
const BITS_OF_BYTE: u64 = 3;

/// The bit of that number in 0 of the value in 1.
fn put_bit_tested(program: &mut Vec<Micro>, size: Size) -> Result<(), WantOfMemory>
    ensures { OnOk result (program.new.items ≡ program.old.items ++ bit_tested size) }
{
    let shifted = binary!(0, MicroOp::ShiftRight, size, Arg::Temp(1), Arg::Temp(0));
    add(program, &[shifted, BIT])
}

/// Sets a bit, or clears it.
fn storing(value: bool) -> MicroOp
    ensures { result ≡ storing value }
{
    if value { MicroOp::Or } else { MicroOp::AndNot }
}

/// The value in 1 with another bit.
fn with_bit_into(to: u8, size: Size, value: bool) -> [Micro; 2]
    ensures { result ≡ with_bit_into to size value }
{
    [
        binary!(3, MicroOp::ShiftLeft, size, Arg::Const(1), Arg::Temp(0)),
        binary!(to, storing(value), size, Arg::Temp(1), Arg::Temp(3)),
    ]
}

const ABOVE: Micro = binary!(
    4,
    MicroOp::LessUnsigned,
    Size::Long,
    Arg::Const(LAST_BIT),
    Arg::Temp(0)
);

const REFUSED: Micro = Micro::Refuse { when: 4 };

/// A position above 31 is no bit of a register. What is left in the register goes into 2.
fn put_bit_stored(program: &mut Vec<Micro>, store: BitStore) -> Result<(), WantOfMemory>
    ensures { OnOk result (program.new.items ≡ program.old.items ++ (Micro.Compute 4 MicroOp.LessUnsigned Size.Long (Arg.Const 31) (Arg.Temp 0) ∷ Micro.Refuse 4 ∷ bit_stored store)) }
{
    match store {
        BitStore::Nothing => add(program, &[ABOVE, REFUSED]),
        BitStore::Plain(value) | BitStore::Interlocked(value) => {
            let [unit, made] = with_bit_into(2, Size::Long, value);
            add(program, &[ABOVE, REFUSED, unit, made])
        }
    }
}

fn locked_op(value: bool) -> LockedOp
    ensures { result ≡ locked_op value }
{
    if value {
        LockedOp::SetBit
    } else {
        LockedOp::ClearBit
    }
}

const CHECKED_FOR_READ: Micro = Micro::Probe {
    place: 2,
    count: 1,
    write: false,
};

const CHECKED_FOR_WRITE: Micro = Micro::Probe {
    place: 2,
    count: 1,
    write: true,
};

const FOUND: Micro = Micro::Read {
    to: 1,
    place: 2,
    count: 1,
};

const WRITTEN: Micro = Micro::Write {
    place: 2,
    count: 1,
    from: 3,
};

/// The bit of the number in 0, by one interlocked reference.
fn locked(value: bool) -> Micro
    ensures { result ≡ Micro.Locked 1 2 (locked_op value) 0 }
{
    Micro::Locked {
        to: 1,
        place: 2,
        kind: locked_op(value),
        from: 0,
    }
}

/// The byte at the address in 2 goes into 1, and the bit in it is left so.
fn put_byte(program: &mut Vec<Micro>, store: BitStore) -> Result<(), WantOfMemory>
    ensures { OnOk result (program.new.items ≡ program.old.items ++ byte_program store) }
{
    match store {
        BitStore::Nothing => add(program, &[CHECKED_FOR_READ, FOUND]),
        BitStore::Plain(value) => {
            let [unit, made] = with_bit_into(3, Size::Byte, value);
            add(program, &[CHECKED_FOR_WRITE, FOUND, unit, made, WRITTEN])
        }
        BitStore::Interlocked(value) => add(program, &[CHECKED_FOR_WRITE, locked(value)]),
    }
}

const POSITION: [Micro; 3] = [
    binary!(
        4,
        MicroOp::ShiftSigned,
        Size::Long,
        Arg::Temp(0),
        Arg::Const(BITS_OF_BYTE)
    ),
    binary!(2, MicroOp::Add, Size::Long, Arg::Temp(2), Arg::Temp(4)),
    binary!(
        0,
        MicroOp::And,
        Size::Byte,
        Arg::Temp(0),
        Arg::Const(LAST_BIT_OF_BYTE)
    ),
];

/// The position is a signed number of bits from the address in 2: the byte that has the bit, and its number there.
fn put_position(program: &mut Vec<Micro>) -> Result<(), WantOfMemory>
    ensures { OnOk result (program.new.items ≡ program.old.items ++ (Micro.Compute 4 MicroOp.ShiftSigned Size.Long (Arg.Temp 0) (Arg.Const 3) ∷ Micro.Compute 2 MicroOp.Add Size.Long (Arg.Temp 2) (Arg.Temp 4) ∷ Micro.Compute 0 MicroOp.And Size.Byte (Arg.Temp 0) (Arg.Const 7) ∷ [])) }
{
    add(program, &POSITION)
}

/// A bit of a register, or of memory.
fn put_before_bit(
    program: &mut Vec<Micro>,
    base: Operand,
    store: BitStore,
) -> Result<(), WantOfMemory>
    ensures { OnOk result (program.new.items ≡ program.old.items ++ before_bit base store) }
{
    match base {
        Operand::Register(_) => {
            put_bit_stored(program, store)?;
            put_bit_tested(program, Size::Long)
        }
        Operand::Unused | Operand::Value(_) | Operand::Place { .. } | Operand::Target(_) => {
            put_position(program)?;
            put_byte(program, store)?;
            put_bit_tested(program, Size::Byte)
        }
    }
}

fn bit_target(base: Operand, store: BitStore) -> Target
    ensures { result ≡ bit_target base store }
{
    match store {
        BitStore::Nothing => Target::Nowhere,
        BitStore::Plain(_) | BitStore::Interlocked(_) => register_target(base, Size::Long),
    }
}

/// The longwords that there are.
const LONGWORDS: u64 = 1 << 32;

/// The bits of a longword, and of a byte.
const BITS_OF_LONGWORD: u32 = 32;

const BITS: u32 = 8;

/// From here on a longword is negative.
const NEGATIVE: u32 = 0x8000_0000;

fn is_plain(base: Operand, position: u32) -> bool
    ensures { result ≡ is_plain base position }
{
    match base {
        Operand::Register(_) => position < BITS_OF_LONGWORD,
        Operand::Unused | Operand::Value(_) | Operand::Place { .. } | Operand::Target(_) => {
            position < NEGATIVE
        }
    }
}

/// A literal position: of a register a bit that it has, and in memory one that is not negative.
fn literal_position(position: Operand, base: Operand) -> Option<u32>
    ensures { result ≡ literal_position position base }
{
    match position {
        Operand::Value(number) => {
            let position = (number % LONGWORDS) as u32;
            if is_plain(base, position) {
                Some(position)
            } else {
                None
            }
        }
        Operand::Unused | Operand::Register(_) | Operand::Place { .. } | Operand::Target(_) => None,
    }
}

/// The bit of that number alone.
fn mask_of(bit: u32) -> u64
    requires { bit < 64 }
    ensures { result ≡ 2 ^ bit }
{
    1 << bit
}

/// The bit that a literal numbers, of the value in 1.
fn masked(size: Size, mask: u64) -> Micro
    ensures { result ≡ masked size mask }
{
    binary!(0, MicroOp::And, size, Arg::Temp(1), Arg::Const(mask))
}

/// The value in 1 with that bit set, or cleared.
fn with_mask_into(to: u8, size: Size, value: bool, mask: u64) -> Micro
    ensures { result ≡ with_mask_into to size value mask }
{
    binary!(to, storing(value), size, Arg::Temp(1), Arg::Const(mask))
}

/// What is left in the register goes into 2.
fn put_mask_stored(program: &mut Vec<Micro>, store: BitStore, mask: u64) -> Result<(), WantOfMemory>
    ensures { OnOk result (program.new.items ≡ program.old.items ++ mask_stored store mask) }
{
    match store {
        BitStore::Nothing => Ok(()),
        BitStore::Plain(value) | BitStore::Interlocked(value) => {
            add(program, &[with_mask_into(2, Size::Long, value, mask)])
        }
    }
}

/// The byte at the address in 2 goes into 1, and the bit of the number in 0 is left so.
fn put_mask_program(
    program: &mut Vec<Micro>,
    store: BitStore,
    mask: u64,
) -> Result<(), WantOfMemory>
    ensures { OnOk result (program.new.items ≡ program.old.items ++ mask_program store mask) }
{
    match store {
        BitStore::Nothing => add(program, &[CHECKED_FOR_READ, FOUND]),
        BitStore::Plain(value) => {
            let made = with_mask_into(3, Size::Byte, value, mask);
            add(program, &[CHECKED_FOR_WRITE, FOUND, made, WRITTEN])
        }
        BitStore::Interlocked(value) => add(program, &[CHECKED_FOR_WRITE, locked(value)]),
    }
}

/// Behind the first byte, others are passed over.
fn put_byte_of(program: &mut Vec<Micro>, first: bool, position: u32) -> Result<(), WantOfMemory>
    ensures { OnOk result (program.new.items ≡ program.old.items ++ byte_of first position) }
{
    if first {
        Ok(())
    } else {
        let bytes = Arg::Const(u64::from(position / BITS));
        let number = Arg::Const(u64::from(position % BITS));
        add(
            program,
            &[
                binary!(2, MicroOp::Add, Size::Long, Arg::Temp(2), bytes),
                unary!(0, MicroOp::Move, Size::Byte, number),
            ],
        )
    }
}

/// A bit of a literal position, of a register or of memory.
fn put_before_literal(
    program: &mut Vec<Micro>,
    base: Operand,
    position: u32,
    store: BitStore,
) -> Result<(), WantOfMemory>
    ensures { OnOk result (program.new.items ≡ program.old.items ++ before_literal base (nat_lt position 8) position store) }
{
    match base {
        Operand::Register(_) => {
            let mask = mask_of(position % BITS_OF_LONGWORD);
            put_mask_stored(program, store, mask)?;
            add(program, &[masked(Size::Long, mask)])
        }
        Operand::Unused | Operand::Value(_) | Operand::Place { .. } | Operand::Target(_) => {
            let mask = mask_of(position % BITS);
            put_byte_of(program, position < BITS, position)?;
            put_mask_program(program, store, mask)?;
            add(program, &[masked(Size::Byte, mask)])
        }
    }
}

/// The position, the base and the target.
const BIT_AND_TARGET: [Slot; 3] = [
    slot!(Access::Read, Size::Long, 0, 1),
    slot!(Access::Field, Size::Byte, 1, 2),
    slot!(Access::Branch, Size::Byte, 0, 1),
];

/// BBS, BBC, BBSS, BBCS, BBSC, BBCC, BBSSI, BBCCI.
pub(crate) fn branch_on_bit(
    alloc: Global,
    codes: CodeSources,
    instr: &Instr,
    branch: BitBranch,
) -> Result<Vec<Micro>, WantOfMemory>
    ensures { IfOk result (λ p. p.items ≡ program_of codes (bit_branch_plan branch instr.now) instr.now) }
{
    let base = operand(instr, 1);
    let mut before = Vec::new(alloc);
    match literal_position(operand(instr, 0), base) {
        Some(position) => put_before_literal(&mut before, base, position, branch.store)?,
        None => put_before_bit(&mut before, base, branch.store)?,
    }
    let plan = Plan {
        slots: &BIT_AND_TARGET,
        before: &before,
        target: bit_target(base, branch.store),
        behind: &[],
        exit: test_exit(branch.state, instr, 2),
    };
    assemble(alloc, codes, plan, instr)
}
