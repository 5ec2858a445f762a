// What byte manipulation makes of an operand in one quadword or in two.
ghost use Rattle.alpha_meaning.specs.ByteLaws.{Extracts, Joins, Replaces, ReplacesFirst, ReplacesSecond};

use alpha_encode::OperateOp;

/// EXTxL gives the bytes of an operand that lie in a quadword.
pub fn extract_bytes()
    ensures byte { Extracts OperateOp.Extbl 1 }
    ensures word { Extracts OperateOp.Extwl 2 }
    ensures longword { Extracts OperateOp.Extll 4 }
    ensures quadword { Extracts OperateOp.Extql 8 }
{}

/// EXTxL and EXTxH join an operand that crosses from one quadword to the next.
pub fn join_bytes()
    ensures word { Joins OperateOp.Extwl OperateOp.Extwh 2 }
    ensures longword { Joins OperateOp.Extll OperateOp.Extlh 4 }
    ensures quadword { Joins OperateOp.Extql OperateOp.Extqh 8 }
{}

/// INSxL and MSKxL replace just the bytes of an operand that lies in a quadword.
pub fn replace_bytes()
    ensures byte { Replaces OperateOp.Insbl OperateOp.Mskbl 1 }
    ensures word { Replaces OperateOp.Inswl OperateOp.Mskwl 2 }
    ensures longword { Replaces OperateOp.Insll OperateOp.Mskll 4 }
    ensures quadword { Replaces OperateOp.Insql OperateOp.Mskql 8 }
{}

/// Where it crosses, they replace just its bytes in the first quadword, and INSxH and MSKxH those in the second.
pub fn replace_crossing_bytes()
    ensures word_first { ReplacesFirst OperateOp.Inswl OperateOp.Mskwl 2 }
    ensures word_second { ReplacesSecond OperateOp.Inswh OperateOp.Mskwh 2 }
    ensures longword_first { ReplacesFirst OperateOp.Insll OperateOp.Mskll 4 }
    ensures longword_second { ReplacesSecond OperateOp.Inslh OperateOp.Msklh 4 }
    ensures quadword_first { ReplacesFirst OperateOp.Insql OperateOp.Mskql 8 }
    ensures quadword_second { ReplacesSecond OperateOp.Insqh OperateOp.Mskqh 8 }
{}
