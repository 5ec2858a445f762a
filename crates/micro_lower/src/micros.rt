// Operations behind others, and computations of one and two arguments.
ghost use Rattle.std.specs.Prelude.{◌≡◌, ◌++◌, OnOk};

use micro_ops::Micro;
use vax_form::WantOfMemory;

pub(crate) fn add(program: &mut Vec<Micro>, operations: &[Micro]) -> Result<(), WantOfMemory>
    ensures { OnOk result (program.new.items ≡ program.old.items ++ operations.now) }
{
    program.extend_from_slice(operations)?;
    Ok(())
}

/// A computation of one argument.
macro_rules! unary {
    ($to:expr, $op:expr, $size:expr, $a:expr $(,)?) => {
        binary!($to, $op, $size, $a, Arg::Const(0))
    };
}

/// A computation of two arguments.
macro_rules! binary {
    ($to:expr, $op:expr, $size:expr, $a:expr, $b:expr $(,)?) => {
        Micro::Compute {
            to: $to,
            op: $op,
            size: $size,
            a: $a,
            b: $b,
        }
    };
}

pub(crate) use binary;
pub(crate) use unary;
