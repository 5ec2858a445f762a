// The tables of the formats, from the lists of rows in instr.rt.
ghost use Rattle.std.specs.Prelude.{◌≡◌, ◌^◌, ◌<◌};
ghost use Rattle.alpha_encode.specs.Rows.{memory_at, branch_at, operate_at, row_at};
ghost use Rattle.alpha_encode.specs.Table.{memory_rows, branch_rows, operate_rows};

use crate::instr::{BranchOp, MemoryOp, OperateOp, branch_rows, memory_rows, operate_rows};

/// `table`: the codes with their rows. `find code`: the row that has the code.
macro_rules! rows {
    (table; $type:ident; $($row:ident)*) => {
        &[$(($type::$row as u32, $type::$row)),*]
    };
    (find $code:ident; $type:ident; $($row:ident)*) => {
        match $code {
            $(code if code == $type::$row as u32 => Some($type::$row),)*
            _ => None,
        }
    };
}

/// Each opcode with its row.
pub const MEMORY_ROWS: &[(u32, MemoryOp)] = memory_rows!(table);

/// Each opcode with its row.
pub const BRANCH_ROWS: &[(u32, BranchOp)] = branch_rows!(table);

/// Each opcode (bits 15:8) and function (bits 7:0) with its row.
pub const OPERATE_ROWS: &[(u32, OperateOp)] = operate_rows!(table);

pub fn memory_op(opcode: u32) -> Option<MemoryOp>
    ensures { result ≡ memory_at opcode }
{
    memory_rows!(find opcode)
}

pub fn branch_op(opcode: u32) -> Option<BranchOp>
    ensures { result ≡ branch_at opcode }
{
    branch_rows!(find opcode)
}

/// Of the opcode in bits 15:8 and the function in 7:0. In place of a call: a caller's opcode leaves only its own rows to be looked through.
#[inline(always)]
fn operate_row(code: u32) -> Option<OperateOp>
    ensures { result ≡ row_at operate_rows code }
{
    operate_rows!(find code)
}

#[inline(always)]
pub fn operate_op(opcode: u32, function: u32) -> Option<OperateOp>
    requires opcode { opcode < 2 ^ 6 }
    requires function { function < 2 ^ 7 }
    ensures { result ≡ operate_at opcode function }
{
    operate_row(opcode * (1 << 8) + function)
}

/// The tables are the manual's, row by row.
pub fn tables_are_the_manuals()
    ensures memory { MEMORY_ROWS.now ≡ memory_rows }
    ensures branch { BRANCH_ROWS.now ≡ branch_rows }
    ensures operate { OPERATE_ROWS.now ≡ operate_rows }
{}
