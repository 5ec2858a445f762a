// The operations that set the condition codes, by where these come from.
ghost use Rattle.std.specs.Prelude.{◌≡◌, ◌++◌, ◌∷◌, [], OnOk};
ghost use Rattle.micro_lower.specs.Plans.{unary, signs_by, signs_of_two, overflow_of, signs_program, carry_program, overflow_temp, carry_temp, codes_from, codes_program};

use crate::micros::{add, binary, unary};
use micro_ops::{Arg, CodeSource, CodeSources, Micro, MicroOp};
use vax_form::{Size, WantOfMemory};

/// N and Z by a temporary.
fn signs_by(temp: u8, size: Size) -> [Micro; 2]
    ensures { result ≡ signs_by temp size }
{
    let (value, none) = (Arg::Temp(temp), Arg::Const(0));
    [
        binary!(6, MicroOp::Less, size, value, none),
        binary!(7, MicroOp::Equal, size, value, none),
    ]
}

const NO_OVERFLOW: Micro = unary!(8, MicroOp::Move, Size::Byte, Arg::Const(0));

const NO_CARRY: Micro = unary!(9, MicroOp::Move, Size::Byte, Arg::Const(0));

/// The numbers in 8 and 9 are the same.
const SAME: Micro = binary!(8, MicroOp::Equal, Size::Quad, Arg::Temp(8), Arg::Temp(9));

/// V for its opposite.
const OTHERWISE: Micro = binary!(8, MicroOp::Xor, Size::Byte, Arg::Temp(8), Arg::Const(1));

/// N and Z by comparing the first operand with the second.
fn put_signs_of_two(program: &mut Vec<Micro>, size: Size) -> Result<(), WantOfMemory>
    ensures { OnOk result (program.new.items ≡ program.old.items ++ signs_of_two size) }
{
    let (first, second) = (Arg::Temp(0), Arg::Temp(1));
    let operations = [
        binary!(6, MicroOp::Less, size, first, second),
        binary!(7, MicroOp::Equal, size, first, second),
        NO_OVERFLOW,
    ];
    add(program, &operations)
}

/// N and Z by the result, and V: the operands as signed quadwords give another number than that.
fn put_overflow(program: &mut Vec<Micro>, op: MicroOp, size: Size) -> Result<(), WantOfMemory>
    ensures { OnOk result (program.new.items ≡ program.old.items ++ (signs_by 2 size ++ overflow_of op size)) }
{
    let (made, other) = (Arg::Temp(8), Arg::Temp(9));
    let [negative, zero] = signs_by(2, size);
    let operations = [
        negative,
        zero,
        unary!(8, MicroOp::SignExtend, size, Arg::Temp(0)),
        unary!(9, MicroOp::SignExtend, size, Arg::Temp(1)),
        binary!(8, op, Size::Quad, made, other),
        unary!(9, MicroOp::SignExtend, size, Arg::Temp(2)),
        SAME,
        OTHERWISE,
    ];
    add(program, &operations)
}

fn put_signs(program: &mut Vec<Micro>, nzv: CodeSource) -> Result<(), WantOfMemory>
    ensures { OnOk result (program.new.items ≡ program.old.items ++ signs_program nzv) }
{
    match nzv {
        CodeSource::Result(size) => {
            let [negative, zero] = signs_by(2, size);
            add(program, &[negative, zero, NO_OVERFLOW])
        }
        CodeSource::Add(size) => put_overflow(program, MicroOp::Add, size),
        CodeSource::Sub(size) => put_overflow(program, MicroOp::Sub, size),
        CodeSource::Compare(size) => put_signs_of_two(program, size),
        CodeSource::Computed(size) => add(program, &signs_by(2, size)),
        CodeSource::Kept | CodeSource::Zero | CodeSource::Psw => Ok(()),
    }
}

/// C where one temporary is below another.
fn below(size: Size, a: u8, b: u8) -> Micro
    ensures { result ≡ Micro.Compute 9 MicroOp.LessUnsigned size (Arg.Temp a) (Arg.Temp b) }
{
    binary!(9, MicroOp::LessUnsigned, size, Arg::Temp(a), Arg::Temp(b))
}

/// C: a sum is below an addend, a subtrahend above.
fn put_carry(program: &mut Vec<Micro>, c: CodeSource) -> Result<(), WantOfMemory>
    ensures { OnOk result (program.new.items ≡ program.old.items ++ carry_program c) }
{
    match c {
        CodeSource::Zero => add(program, &[NO_CARRY]),
        CodeSource::Add(size) => add(program, &[below(size, 2, 0)]),
        CodeSource::Sub(size) | CodeSource::Compare(size) => add(program, &[below(size, 0, 1)]),
        CodeSource::Kept | CodeSource::Result(_) | CodeSource::Computed(_) | CodeSource::Psw => Ok(
            (),
        ),
    }
}

/// Where V is: a computed one is in 3.
fn overflow_temp(nzv: CodeSource) -> u8
    ensures { result ≡ overflow_temp nzv }
{
    match nzv {
        CodeSource::Computed(_) => 3,
        _ => 8,
    }
}

/// Where C is, if it is set: a computed one is in 4.
fn carry_temp(c: CodeSource) -> Option<u8>
    ensures { result ≡ carry_temp c }
{
    match c {
        CodeSource::Kept => None,
        CodeSource::Computed(_) => Some(4),
        _ => Some(9),
    }
}

fn put_values(program: &mut Vec<Micro>, codes: CodeSources) -> Result<(), WantOfMemory>
    ensures { OnOk result (program.new.items ≡ program.old.items ++ (signs_program codes.nzv ++ carry_program codes.c ++ Micro.Codes 6 7 (overflow_temp codes.nzv) (carry_temp codes.c) ∷ [])) }
{
    put_signs(program, codes.nzv)?;
    put_carry(program, codes.c)?;
    let set = Micro::Codes {
        n: 6,
        z: 7,
        v: overflow_temp(codes.nzv),
        c: carry_temp(codes.c),
    };
    add(program, &[set])
}

/// Sets the codes by where they come from; a new PSW is in 2.
pub(crate) fn put_codes(program: &mut Vec<Micro>, codes: CodeSources) -> Result<(), WantOfMemory>
    ensures { OnOk result (program.new.items ≡ program.old.items ++ codes_program codes) }
{
    match codes.nzv {
        CodeSource::Kept => Ok(()),
        CodeSource::Psw => add(program, &[Micro::SetPsw { from: 2 }]),
        _ => put_values(program, codes),
    }
}
