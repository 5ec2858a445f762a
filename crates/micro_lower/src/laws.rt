// Laws of what has a program, of where an instruction ends, and of what it writes.
ghost use Rattle.micro_lower.specs.Ends.{EndsWhereItGoes};
ghost use Rattle.micro_lower.specs.Lowering.{ProgramsAreTranslated, ProgramsWriteOperands};

/// An instruction has a program just where it is translated.
pub fn translated_law()
    ensures { ProgramsAreTranslated }
{}

/// An instruction ends where its program leaves, if that computes no address and asks for no service.
pub fn ending_law()
    ensures { EndsWhereItGoes }
{}

/// Each write of the program of an instruction, interlocked ones aside, has as many bytes as the one operand that the
/// instruction's operation writes.
pub fn written_law()
    ensures { ProgramsWriteOperands }
{}
