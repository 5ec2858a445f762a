// The byte manipulation instructions by the number of bytes of the operand. A byte never crosses to the next quadword.
ghost use Rattle.std.specs.Prelude.{◌≡◌};
ghost use Rattle.vt_words.specs.Quad.{IsCount};
ghost use Rattle.byte_sequences.specs.Words.{insert_low, insert_high, mask_low, mask_high};

use alpha_encode::OperateOp;

pub(crate) fn insert_low(count: u8) -> OperateOp
    ensures { result ≡ insert_low count }
{
    match count {
        1 => OperateOp::Insbl,
        2 => OperateOp::Inswl,
        4 => OperateOp::Insll,
        _ => OperateOp::Insql,
    }
}

pub(crate) fn insert_high(count: u8) -> OperateOp
    ensures { result ≡ insert_high count }
{
    match count {
        1 | 2 => OperateOp::Inswh,
        4 => OperateOp::Inslh,
        _ => OperateOp::Insqh,
    }
}

pub(crate) fn mask_low(count: u8) -> OperateOp
    ensures { result ≡ mask_low count }
{
    match count {
        1 => OperateOp::Mskbl,
        2 => OperateOp::Mskwl,
        4 => OperateOp::Mskll,
        _ => OperateOp::Mskql,
    }
}

pub(crate) fn mask_high(count: u8) -> OperateOp
    ensures { result ≡ mask_high count }
{
    match count {
        1 | 2 => OperateOp::Mskwh,
        4 => OperateOp::Msklh,
        _ => OperateOp::Mskqh,
    }
}
