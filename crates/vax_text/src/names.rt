// The names of opcodes and registers.
ghost use Rattle.std.specs.Prelude.{◌≡◌, ◌<◌, ◌≤◌, length};
ghost use Rattle.vax_text.specs.Names.{NamesWhole, byte_names, high_names, long_names, low_names, name_in, name_of, word_names};
ghost use Rattle.vax_text.specs.Operands.{register_name};

// Opcodes below 40.
#[tactic(auto, unfolding(crate::specs::Names::low_names))]
fn low_name(opcode: u8) -> &'static [u8]
    ensures name { result.now ≡ name_in low_names opcode }
    ensures short { length result.now ≤ 6 }
{
    match opcode {
        0x01 => b"NOP",
        0x03 => b"BPT",
        0x04 => b"RET",
        0x05 => b"RSB",
        0x0A => b"INDEX",
        0x10 => b"BSBB",
        0x11 => b"BRB",
        0x12 => b"BNEQ",
        0x13 => b"BEQL",
        0x14 => b"BGTR",
        0x15 => b"BLEQ",
        0x16 => b"JSB",
        0x17 => b"JMP",
        0x18 => b"BGEQ",
        0x19 => b"BLSS",
        0x1A => b"BGTRU",
        0x1B => b"BLEQU",
        0x1C => b"BVC",
        0x1D => b"BVS",
        0x1E => b"BCC",
        0x1F => b"BCS",
        0x28 => b"MOVC3",
        0x29 => b"CMPC3",
        0x2C => b"MOVC5",
        0x30 => b"BSBW",
        0x31 => b"BRW",
        0x32 => b"CVTWL",
        0x33 => b"CVTWB",
        0x3A => b"LOCC",
        0x3B => b"SKPC",
        0x3C => b"MOVZWL",
        0x3D => b"ACBW",
        0x3E => b"MOVAW",
        0x3F => b"PUSHAW",
        _ => b"",
    }
}

// Opcodes from 40 to 97.
#[tactic(auto, unfolding(crate::specs::Names::byte_names))]
fn byte_name(opcode: u8) -> &'static [u8]
    ensures name { result.now ≡ name_in byte_names opcode }
    ensures short { length result.now ≤ 6 }
{
    match opcode {
        0x58 => b"ADAWI",
        0x78 => b"ASHL",
        0x7A => b"EMUL",
        0x7C => b"CLRQ",
        0x7D => b"MOVQ",
        0x7E => b"MOVAQ",
        0x7F => b"PUSHAQ",
        0x80 => b"ADDB2",
        0x81 => b"ADDB3",
        0x82 => b"SUBB2",
        0x83 => b"SUBB3",
        0x84 => b"MULB2",
        0x85 => b"MULB3",
        0x86 => b"DIVB2",
        0x87 => b"DIVB3",
        0x88 => b"BISB2",
        0x89 => b"BISB3",
        0x8A => b"BICB2",
        0x8B => b"BICB3",
        0x8C => b"XORB2",
        0x8D => b"XORB3",
        0x8E => b"MNEGB",
        0x8F => b"CASEB",
        0x90 => b"MOVB",
        0x91 => b"CMPB",
        0x92 => b"MCOMB",
        0x93 => b"BITB",
        0x94 => b"CLRB",
        0x95 => b"TSTB",
        0x96 => b"INCB",
        0x97 => b"DECB",
        _ => b"",
    }
}

// Opcodes from 98 to B7.
#[tactic(auto, unfolding(crate::specs::Names::word_names))]
fn word_name(opcode: u8) -> &'static [u8]
    ensures name { result.now ≡ name_in word_names opcode }
    ensures short { length result.now ≤ 6 }
{
    match opcode {
        0x98 => b"CVTBL",
        0x99 => b"CVTBW",
        0x9A => b"MOVZBL",
        0x9B => b"MOVZBW",
        0x9C => b"ROTL",
        0x9D => b"ACBB",
        0x9E => b"MOVAB",
        0x9F => b"PUSHAB",
        0xA0 => b"ADDW2",
        0xA1 => b"ADDW3",
        0xA2 => b"SUBW2",
        0xA3 => b"SUBW3",
        0xA4 => b"MULW2",
        0xA5 => b"MULW3",
        0xA6 => b"DIVW2",
        0xA7 => b"DIVW3",
        0xA8 => b"BISW2",
        0xA9 => b"BISW3",
        0xAA => b"BICW2",
        0xAB => b"BICW3",
        0xAC => b"XORW2",
        0xAD => b"XORW3",
        0xAE => b"MNEGW",
        0xAF => b"CASEW",
        0xB0 => b"MOVW",
        0xB1 => b"CMPW",
        0xB2 => b"MCOMW",
        0xB3 => b"BITW",
        0xB4 => b"CLRW",
        0xB5 => b"TSTW",
        0xB6 => b"INCW",
        0xB7 => b"DECW",
        _ => b"",
    }
}

// Opcodes from B8 to D7.
#[tactic(auto, unfolding(crate::specs::Names::long_names))]
fn long_name(opcode: u8) -> &'static [u8]
    ensures name { result.now ≡ name_in long_names opcode }
    ensures short { length result.now ≤ 6 }
{
    match opcode {
        0xB8 => b"BISPSW",
        0xB9 => b"BICPSW",
        0xBA => b"POPR",
        0xBB => b"PUSHR",
        0xBC => b"CHMK",
        0xC0 => b"ADDL2",
        0xC1 => b"ADDL3",
        0xC2 => b"SUBL2",
        0xC3 => b"SUBL3",
        0xC4 => b"MULL2",
        0xC5 => b"MULL3",
        0xC6 => b"DIVL2",
        0xC7 => b"DIVL3",
        0xC8 => b"BISL2",
        0xC9 => b"BISL3",
        0xCA => b"BICL2",
        0xCB => b"BICL3",
        0xCC => b"XORL2",
        0xCD => b"XORL3",
        0xCE => b"MNEGL",
        0xCF => b"CASEL",
        0xD0 => b"MOVL",
        0xD1 => b"CMPL",
        0xD2 => b"MCOML",
        0xD3 => b"BITL",
        0xD4 => b"CLRL",
        0xD5 => b"TSTL",
        0xD6 => b"INCL",
        0xD7 => b"DECL",
        _ => b"",
    }
}

// Opcodes from D8 on.
#[tactic(auto, unfolding(crate::specs::Names::high_names))]
fn high_name(opcode: u8) -> &'static [u8]
    ensures name { result.now ≡ name_in high_names opcode }
    ensures short { length result.now ≤ 6 }
{
    match opcode {
        0xD8 => b"ADWC",
        0xD9 => b"SBWC",
        0xDC => b"MOVPSL",
        0xDD => b"PUSHL",
        0xDE => b"MOVAL",
        0xDF => b"PUSHAL",
        0xE0 => b"BBS",
        0xE1 => b"BBC",
        0xE2 => b"BBSS",
        0xE3 => b"BBCS",
        0xE4 => b"BBSC",
        0xE5 => b"BBCC",
        0xE6 => b"BBSSI",
        0xE7 => b"BBCCI",
        0xE8 => b"BLBS",
        0xE9 => b"BLBC",
        0xEE => b"EXTV",
        0xEF => b"EXTZV",
        0xF0 => b"INSV",
        0xF1 => b"ACBL",
        0xF2 => b"AOBLSS",
        0xF3 => b"AOBLEQ",
        0xF4 => b"SOBGEQ",
        0xF5 => b"SOBGTR",
        0xF6 => b"CVTLB",
        0xF7 => b"CVTLW",
        0xFA => b"CALLG",
        0xFB => b"CALLS",
        _ => b"",
    }
}

/// The name of an opcode; nothing for a reserved one.
#[tactic(auto, unfolding(crate::specs::Names::name_of))]
pub fn name_of(opcode: u8) -> &'static [u8]
    ensures name { result.now ≡ name_of opcode }
    ensures short { length result.now ≤ 6 }
{
    match opcode {
        0x00..0x40 => low_name(opcode),
        0x40..0x98 => byte_name(opcode),
        0x98..0xB8 => word_name(opcode),
        0xB8..0xD8 => long_name(opcode),
        _ => high_name(opcode),
    }
}

/// Each opcode that is not reserved has a name.
pub fn names_are_whole()
    ensures { NamesWhole }
{}

/// The name of a register.
pub(crate) fn register_name(register: u8) -> &'static [u8]
    requires { register < 16 }
    ensures name { result.now ≡ register_name register }
    ensures short { length result.now ≤ 3 }
{
    match register {
        0 => b"R0",
        1 => b"R1",
        2 => b"R2",
        3 => b"R3",
        4 => b"R4",
        5 => b"R5",
        6 => b"R6",
        7 => b"R7",
        8 => b"R8",
        9 => b"R9",
        10 => b"R10",
        11 => b"R11",
        12 => b"AP",
        13 => b"FP",
        14 => b"SP",
        _ => b"PC",
    }
}
