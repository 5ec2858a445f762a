// Bytes of a quadword: masks, fields and byte manipulation.
ghost use Rattle.std.specs.Prelude.{◌≡◌, ◌+◌, ◌*◌, ◌/◌, ◌%◌, ◌^◌, ◌<◌, ◌≤◌};
ghost use Rattle.vt_words.specs.Quad.{spread, kept, cleared, ext_low, ext_high, ins_low, ins_high, msk_low, msk_high, field_of, sign_extended};

// The sum of 2^(7 k) for k below 8: a product with it has bit k of a number below 128 at bit 8 k.
const STEPS_OF_SEVEN: u64 = 0x0002_0408_1020_4081;

// Bit 0 of each byte.
const LOWEST_BITS: u64 = 0x0101_0101_0101_0101;

/// All the bits of each byte that a bit of the mask names.
#[inline(always)]
pub fn spread(mask: u8) -> u64
    ensures { result ≡ spread mask }
{
    let low = u64::from(mask % 128) * STEPS_OF_SEVEN & LOWEST_BITS;
    let high = u64::from(mask / 128) << 56;
    (low + high) * 0xff
}

/// The bytes that a bit of the mask names, the others 0: ZAPNOT.
#[inline(always)]
pub fn kept(mask: u8, quad: u64) -> u64
    ensures { result ≡ kept mask quad }
{
    quad & spread(mask)
}

/// The bytes that no bit of the mask names, the others 0: ZAP.
#[inline(always)]
pub fn cleared(mask: u8, quad: u64) -> u64
    ensures { result ≡ cleared mask quad }
{
    quad & !spread(mask)
}

/// EXTxL. The mask is 0x01, 0x03, 0x0f or 0xff for a byte, word, longword or quadword; the low three
/// bits of b name the byte offset.
#[inline(always)]
pub fn extract_low(mask: u8, a: u64, b: u64) -> u64
    ensures { result ≡ ext_low mask a b }
{
    let shift = 8 * (b % 8);
    kept(mask, a >> shift)
}

/// EXTxH, with a mask as for EXTxL.
#[inline(always)]
pub fn extract_high(mask: u8, a: u64, b: u64) -> u64
    ensures { result ≡ ext_high mask a b }
{
    let shift = (64 - 8 * (b % 8)) % 64;
    kept(mask, a << shift)
}

/// INSxL, with a mask as for EXTxL.
#[inline(always)]
pub fn insert_low(mask: u8, a: u64, b: u64) -> u64
    ensures { result ≡ ins_low mask a b }
{
    let at = b % 8;
    kept(mask << at, a << (8 * at))
}

/// INSxH, with a mask as for EXTxL.
#[inline(always)]
pub fn insert_high(mask: u8, a: u64, b: u64) -> u64
    ensures { result ≡ ins_high mask a b }
{
    let at = b % 8;
    let shift = (64 - 8 * at) % 64;
    kept((u16::from(mask) << at).to_le_bytes()[1], a >> shift)
}

/// MSKxL, with a mask as for EXTxL.
#[inline(always)]
pub fn mask_low(mask: u8, a: u64, b: u64) -> u64
    ensures { result ≡ msk_low mask a b }
{
    let at = b % 8;
    cleared(mask << at, a)
}

/// MSKxH, with a mask as for EXTxL.
#[inline(always)]
pub fn mask_high(mask: u8, a: u64, b: u64) -> u64
    ensures { result ≡ msk_high mask a b }
{
    let at = b % 8;
    cleared(((u16::from(mask) << at) >> 8) as u8, a)
}

/// Bytes of a quadword: `count` of them from byte `at` on, byte 0 the lowest.
pub fn field(quad: u64, at: u32, count: u32) -> u64
    requires some { 1 ≤ count }
    requires within { at + count ≤ 8 }
    ensures { result ≡ field_of quad at count }
{
    let shifted = quad >> (8 * at);
    if count == 8 {
        shifted
    } else {
        shifted % (1 << (8 * count))
    }
}

/// The low bits of a number, with the highest of them in all bits above.
pub fn sign_extend(value: u64, bits: u32) -> u64
    requires some { 1 ≤ bits }
    requires within { bits ≤ 64 }
    ensures { result ≡ sign_extended value bits }
{
    if bits == 64 {
        return value;
    }
    let low = value % (1 << bits);
    if low < 1 << (bits - 1) {
        low
    } else {
        low + (u64::MAX << bits)
    }
}
