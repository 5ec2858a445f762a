// Memory instructions: their addresses, and the accesses that they ask for.
ghost use Rattle.std.specs.Prelude.{◌≡◌, ◌<◌, ◌≤◌};
ghost use Rattle.vt_words.specs.Quad.{IsCount};
ghost use Rattle.alpha_meaning.specs.Memory.{kind_of, bytes_of, extension_of, drops_low_bits, scale_of, address_of, access_of, extended};

use crate::access::{AlphaAccess, AlphaKind, Extension, stores};
use alpha_encode::MemoryOp;
use vt_words::{field, sign_extend};

/// The kind of access that a memory instruction asks for. None: its address itself goes into Ra.
pub fn kind_of(op: MemoryOp) -> Option<AlphaKind>
    ensures { result ≡ kind_of op }
{
    match op {
        MemoryOp::Lda | MemoryOp::Ldah => None,
        MemoryOp::Ldbu | MemoryOp::Ldwu | MemoryOp::LdqU | MemoryOp::Ldl | MemoryOp::Ldq => {
            Some(AlphaKind::Load)
        }
        MemoryOp::LdlL | MemoryOp::LdqL => Some(AlphaKind::LoadLocked),
        MemoryOp::Stb | MemoryOp::Stw | MemoryOp::Stl | MemoryOp::Stq => Some(AlphaKind::Store),
        MemoryOp::StlC | MemoryOp::StqC => Some(AlphaKind::StoreConditional),
    }
}

/// The number of bytes of the access, which is also its alignment; 8 where there is none.
pub fn bytes_of(op: MemoryOp) -> u8
    ensures value { result ≡ bytes_of op }
    ensures count { IsCount result }
{
    match op {
        MemoryOp::Ldbu | MemoryOp::Stb => 1,
        MemoryOp::Ldwu | MemoryOp::Stw => 2,
        MemoryOp::Ldl | MemoryOp::LdlL | MemoryOp::Stl | MemoryOp::StlC => 4,
        MemoryOp::Lda
        | MemoryOp::Ldah
        | MemoryOp::LdqU
        | MemoryOp::Ldq
        | MemoryOp::LdqL
        | MemoryOp::Stq
        | MemoryOp::StqC => 8,
    }
}

/// How the loaded bytes fill the register.
pub fn extension_of(op: MemoryOp) -> Extension
    ensures { result ≡ extension_of op }
{
    match op {
        MemoryOp::Ldl | MemoryOp::LdlL => Extension::Sign,
        _ => Extension::Zero,
    }
}

/// Whether the address drops its low three bits.
pub fn drops_low_bits(op: MemoryOp) -> bool
    ensures { result ≡ drops_low_bits op }
{
    matches!(op, MemoryOp::LdqU)
}

/// What the displacement is multiplied by.
pub fn scale_of(op: MemoryOp) -> u64
    ensures { result ≡ scale_of op }
{
    match op {
        MemoryOp::Ldah => 65536,
        _ => 1,
    }
}

/// The address of a memory instruction for Rb and the displacement in bytes.
pub fn address_of(op: MemoryOp, base: u64, disp: i16) -> u64
    ensures { result ≡ address_of op base disp }
{
    let offset = i64::from(disp).cast_unsigned();
    let sum = base.wrapping_add(offset.wrapping_mul(scale_of(op)));
    if drops_low_bits(op) { sum / 8 * 8 } else { sum }
}

/// The access of a memory instruction of that kind, for its address and the value of Ra.
pub fn access_of(op: MemoryOp, kind: AlphaKind, address: u64, register: u64) -> AlphaAccess
    ensures value { result ≡ access_of op kind address register }
    ensures count { IsCount result.bytes }
{
    let bytes = bytes_of(op);
    let value = if stores(kind) {
        field(register, 0, u32::from(bytes))
    } else {
        0
    };
    AlphaAccess {
        kind,
        address,
        bytes,
        value,
    }
}

/// The register for so many loaded bytes, which come right-aligned.
pub fn extended(extension: Extension, bytes: u8, value: u64) -> u64
    requires some { 1 ≤ bytes }
    requires within { bytes ≤ 8 }
    ensures { result ≡ extended extension bytes value }
{
    match extension {
        Extension::Zero => value,
        Extension::Sign => sign_extend(value, 8 * u32::from(bytes)),
    }
}
