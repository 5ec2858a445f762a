// Where the condition codes of an instruction come from.
use vax_form::Size;

/// Where an instruction's codes come from when it leaves. The operands of a rule of two are in the temporaries 0 and
/// 1, and a result is in 2.
#[derive(Clone, Copy, Debug, PartialEq, Eq)]
pub enum CodeSource {
    /// They stay as the instruction found them.
    Kept,
    /// 0.
    Zero,
    /// N and Z by the result in temporary 2, which is the operand of the rule; V is 0.
    Result(Size),
    /// Those of temporary 0 plus temporary 1.
    Add(Size),
    /// Those of temporary 0 minus temporary 1.
    Sub(Size),
    /// N, Z and C by comparing temporary 0 with temporary 1; V is 0.
    Compare(Size),
    /// By no rule: N and Z by the result in temporary 2, V is in 3 and C in 4.
    Computed(Size),
    /// All from the new PSW in temporary 2.
    Psw,
}

/// The source of N, Z and V, which are written together, and that of C.
#[derive(Clone, Copy, Debug, PartialEq, Eq)]
pub struct CodeSources {
    pub nzv: CodeSource,
    pub c: CodeSource,
}
