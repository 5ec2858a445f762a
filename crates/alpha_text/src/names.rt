// The mnemonics of the instructions.
ghost use Rattle.std.specs.Prelude.{◌≡◌, ◌≤◌, length};
ghost use Rattle.alpha_text.specs.Names.{branch_name, memory_name, operate_name};

use alpha_encode::{BranchOp, MemoryOp, OperateOp};

#[tactic(auto, unfolding(crate::specs::Names::memory_name))]
pub(crate) fn memory_name(op: MemoryOp) -> &'static [u8]
    ensures name { result.now ≡ memory_name op }
    ensures short { length result.now ≤ 6 }
{
    match op {
        MemoryOp::Lda => b"lda",
        MemoryOp::Ldah => b"ldah",
        MemoryOp::Ldbu => b"ldbu",
        MemoryOp::LdqU => b"ldq_u",
        MemoryOp::Ldwu => b"ldwu",
        MemoryOp::Stw => b"stw",
        MemoryOp::Stb => b"stb",
        MemoryOp::Ldl => b"ldl",
        MemoryOp::Ldq => b"ldq",
        MemoryOp::LdlL => b"ldl_l",
        MemoryOp::LdqL => b"ldq_l",
        MemoryOp::Stl => b"stl",
        MemoryOp::Stq => b"stq",
        MemoryOp::StlC => b"stl_c",
        MemoryOp::StqC => b"stq_c",
    }
}

#[tactic(auto, unfolding(crate::specs::Names::branch_name))]
pub(crate) fn branch_name(op: BranchOp) -> &'static [u8]
    ensures name { result.now ≡ branch_name op }
    ensures short { length result.now ≤ 6 }
{
    match op {
        BranchOp::Br => b"br",
        BranchOp::Bsr => b"bsr",
        BranchOp::Blbc => b"blbc",
        BranchOp::Beq => b"beq",
        BranchOp::Blt => b"blt",
        BranchOp::Ble => b"ble",
        BranchOp::Blbs => b"blbs",
        BranchOp::Bne => b"bne",
        BranchOp::Bge => b"bge",
        BranchOp::Bgt => b"bgt",
    }
}

#[tactic(auto, unfolding(crate::specs::Names::operate_name))]
pub(crate) fn operate_name(op: OperateOp) -> &'static [u8]
    ensures name { result.now ≡ operate_name op }
    ensures short { length result.now ≤ 6 }
{
    match op {
        OperateOp::Addl => b"addl",
        OperateOp::Subl => b"subl",
        OperateOp::Cmpult => b"cmpult",
        OperateOp::Addq => b"addq",
        OperateOp::S4addq => b"s4addq",
        OperateOp::Subq => b"subq",
        OperateOp::Cmpeq => b"cmpeq",
        OperateOp::S8addq => b"s8addq",
        OperateOp::Cmpule => b"cmpule",
        OperateOp::Cmplt => b"cmplt",
        OperateOp::Cmple => b"cmple",
        OperateOp::And => b"and",
        OperateOp::Bic => b"bic",
        OperateOp::Bis => b"bis",
        OperateOp::Cmoveq => b"cmoveq",
        OperateOp::Cmovne => b"cmovne",
        OperateOp::Ornot => b"ornot",
        OperateOp::Xor => b"xor",
        OperateOp::Eqv => b"eqv",
        OperateOp::Mskbl => b"mskbl",
        OperateOp::Extbl => b"extbl",
        OperateOp::Insbl => b"insbl",
        OperateOp::Mskwl => b"mskwl",
        OperateOp::Extwl => b"extwl",
        OperateOp::Inswl => b"inswl",
        OperateOp::Mskll => b"mskll",
        OperateOp::Extll => b"extll",
        OperateOp::Insll => b"insll",
        OperateOp::Zap => b"zap",
        OperateOp::Zapnot => b"zapnot",
        OperateOp::Mskql => b"mskql",
        OperateOp::Srl => b"srl",
        OperateOp::Extql => b"extql",
        OperateOp::Sll => b"sll",
        OperateOp::Insql => b"insql",
        OperateOp::Sra => b"sra",
        OperateOp::Mskwh => b"mskwh",
        OperateOp::Inswh => b"inswh",
        OperateOp::Extwh => b"extwh",
        OperateOp::Msklh => b"msklh",
        OperateOp::Inslh => b"inslh",
        OperateOp::Extlh => b"extlh",
        OperateOp::Mskqh => b"mskqh",
        OperateOp::Insqh => b"insqh",
        OperateOp::Extqh => b"extqh",
        OperateOp::Mull => b"mull",
        OperateOp::Mulq => b"mulq",
        OperateOp::Umulh => b"umulh",
        OperateOp::Sextb => b"sextb",
        OperateOp::Sextw => b"sextw",
    }
}
