// Alpha instructions, a row each: the manual's mnemonic with its code, and the mnemonic again in the
// list below the enum. The decoder reads that list, since a discriminant has no way back to its
// variant. The definitions have the manual's table; a code that differs from it, or a row that is
// missing in the list, is refused.

/// Memory format: loads, stores and load address, with the opcode. `L` behind the size is load-locked, `C` store conditional.
#[derive(Clone, Copy, PartialEq, Eq, Debug)]
pub enum MemoryOp {
    Lda = 0x08,
    Ldah = 0x09,
    Ldbu = 0x0a,
    LdqU = 0x0b,
    Ldwu = 0x0c,
    Stw = 0x0d,
    Stb = 0x0e,
    Ldl = 0x28,
    Ldq = 0x29,
    LdlL = 0x2a,
    LdqL = 0x2b,
    Stl = 0x2c,
    Stq = 0x2d,
    StlC = 0x2e,
    StqC = 0x2f,
}

macro_rules! memory_rows {
    ($($want:tt)*) => {
        rows!($($want)*; MemoryOp; Lda Ldah Ldbu LdqU Ldwu Stw Stb Ldl Ldq LdlL LdqL Stl Stq StlC StqC)
    };
}

/// Branch format, with the opcode.
#[derive(Clone, Copy, PartialEq, Eq, Debug)]
pub enum BranchOp {
    Br = 0x30,
    Bsr = 0x34,
    Blbc = 0x38,
    Beq = 0x39,
    Blt = 0x3a,
    Ble = 0x3b,
    Blbs = 0x3c,
    Bne = 0x3d,
    Bge = 0x3e,
    Bgt = 0x3f,
}

macro_rules! branch_rows {
    ($($want:tt)*) => {
        rows!($($want)*; BranchOp; Br Bsr Blbc Beq Blt Ble Blbs Bne Bge Bgt)
    };
}

/// Operate format: integer arithmetic, logical, shift and byte instructions. The manual's 10.2D, opcode and function, is `0x102d`.
#[derive(Clone, Copy, PartialEq, Eq, Debug)]
pub enum OperateOp {
    Addl = 0x1000,
    Subl = 0x1009,
    Cmpult = 0x101d,
    Addq = 0x1020,
    S4addq = 0x1022,
    Subq = 0x1029,
    Cmpeq = 0x102d,
    S8addq = 0x1032,
    Cmpule = 0x103d,
    Cmplt = 0x104d,
    Cmple = 0x106d,
    And = 0x1100,
    Bic = 0x1108,
    Bis = 0x1120,
    Cmoveq = 0x1124,
    Cmovne = 0x1126,
    Ornot = 0x1128,
    Xor = 0x1140,
    Eqv = 0x1148,
    Mskbl = 0x1202,
    Extbl = 0x1206,
    Insbl = 0x120b,
    Mskwl = 0x1212,
    Extwl = 0x1216,
    Inswl = 0x121b,
    Mskll = 0x1222,
    Extll = 0x1226,
    Insll = 0x122b,
    Zap = 0x1230,
    Zapnot = 0x1231,
    Mskql = 0x1232,
    Srl = 0x1234,
    Extql = 0x1236,
    Sll = 0x1239,
    Insql = 0x123b,
    Sra = 0x123c,
    Mskwh = 0x1252,
    Inswh = 0x1257,
    Extwh = 0x125a,
    Msklh = 0x1262,
    Inslh = 0x1267,
    Extlh = 0x126a,
    Mskqh = 0x1272,
    Insqh = 0x1277,
    Extqh = 0x127a,
    Mull = 0x1300,
    Mulq = 0x1320,
    Umulh = 0x1330,
    Sextb = 0x1c00,
    Sextw = 0x1c01,
}

macro_rules! operate_rows {
    ($($want:tt)*) => {
        rows!($($want)*; OperateOp;
            Addl Subl Cmpult Addq S4addq Subq Cmpeq S8addq Cmpule Cmplt Cmple
            And Bic Bis Cmoveq Cmovne Ornot Xor Eqv
            Mskbl Extbl Insbl Mskwl Extwl Inswl Mskll Extll Insll Zap Zapnot Mskql Srl Extql Sll
            Insql Sra Mskwh Inswh Extwh Msklh Inslh Extlh Mskqh Insqh Extqh
            Mull Mulq Umulh
            Sextb Sextw)
    };
}

/// The opcode of the arithmetic rows.
pub(crate) const INTA: u32 = 0x10;
/// Of the logical ones.
pub(crate) const INTL: u32 = 0x11;
/// Of shifts and bytes.
pub(crate) const INTS: u32 = 0x12;
/// Of products.
pub(crate) const INTM: u32 = 0x13;
/// Of the rows with one operand, Rb: R31 is their Ra.
pub(crate) const FPTI: u32 = 0x1c;
/// Of JMP, which isn't among the rows.
pub(crate) const JSR: u32 = 0x1a;

/// The second operand of an operate instruction: register Rb, or an unsigned 8-bit literal.
#[derive(Clone, Copy, PartialEq, Eq, Debug)]
pub enum Second {
    Register(u8),
    Literal(u8),
}

/// An instruction with its operands. Registers are numbered 0 to 31.
///
/// Displacements are signed: bytes from Rb in the memory format, words from the next word in the
/// branch format, where they have 21 bits. `Jump` is JMP, without a hint. `Pal` is a CALL_PAL of
/// this project, numbered 80 to 86 hexadecimal.
#[derive(Clone, Copy, PartialEq, Eq, Debug)]
pub enum AlphaInstr {
    Memory {
        op: MemoryOp,
        ra: u8,
        rb: u8,
        disp: i16,
    },
    Branch {
        op: BranchOp,
        ra: u8,
        disp: i32,
    },
    Operate {
        op: OperateOp,
        ra: u8,
        rb: Second,
        rc: u8,
    },
    Jump {
        ra: u8,
        rb: u8,
    },
    Pal(u8),
}

pub(crate) use branch_rows;
pub(crate) use memory_rows;
pub(crate) use operate_rows;
