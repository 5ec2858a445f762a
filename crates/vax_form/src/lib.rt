//! VAX instructions in decoded form, what each opcode's operands are, which pages an image has, and the
//! types in which the meaning of an instruction is said.
#![tactic(auto)]

mod grammar;
mod instr;
mod mode;
mod operation;
mod pages;
mod row;
mod script;
mod state;
mod targets;

pub use grammar::grammar_laws;
pub use instr::{Access, Base, Instr, Operand, Size, Width};
pub use mode::Mode;
pub use operation::{
    BinaryOperation, BitBranch, BitStore, Condition, LongOperation, Operation, operation_of,
};
pub use pages::{PAGE_SIZE, PageRange, Pages};
pub use row::{Class, Row, class_of, is_long, row_of};
pub use script::{End, Stop, laws_of_after, laws_of_handlers, tree_laws};
pub use state::{
    AP, Exception, FP, Flags, Outcome, Pending, Pick, RefKind, Reference, SP, USER_MODE, VaxState,
    WantOfMemory,
};
pub use targets::{branch_target, call_of, fixed_address, jump_of};
