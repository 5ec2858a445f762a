// The VAX state that Alpha registers show.
ghost use Rattle.std.specs.Prelude.{◌≡◌, ◌%◌, ◌^◌, ◌&&◌, not, slice_index};
ghost use Rattle.exception_records.specs.Shown.{code_shown, codes_shown, psw_shown, shown, still_held};

use crate::rules::{CodeRule, Rules};
use alpha_encode::registers::{
    CARRY, CARRY_FIRST, CARRY_SECOND, IS_ZERO, NEGATIVE, OVERFLOW, RULE_FIRST, RULE_SECOND, STATUS,
};
use vax_form::{Flags, Pending, VaxState};

/// The codes that are still held behind an instruction: those that it doesn't write.
pub fn still_held(held: &Flags, written: &Flags) -> Flags
    ensures { result ≡ still_held held.now written.now }
{
    Flags {
        n: held.n && !written.n,
        z: held.z && !written.z,
        v: held.v && !written.v,
        c: held.c && !written.c,
    }
}

// A code in its register where it is ready or held there, else by its rule.
fn code_shown(rule: CodeRule, held: bool, in_register: bool, by_rule: bool) -> bool
    ensures { result ≡ code_shown rule held in_register by_rule }
{
    if rule.is_ready() || held {
        in_register
    } else {
        by_rule
    }
}

/// The condition codes that 32 registers of translated code show. Those that are held are in their registers,
/// whatever their rule.
pub fn codes_shown(registers: &[u64; 32], rules: &Rules, held: &Flags) -> Flags
    ensures { result ≡ codes_shown (slice_index registers.now) rules.now held.now }
{
    let (first, second) = (
        registers[RULE_FIRST as usize],
        registers[RULE_SECOND as usize],
    );
    let (carry_first, carry_second) = (
        registers[CARRY_FIRST as usize],
        registers[CARRY_SECOND as usize],
    );
    let n = rules.n.codes(first, second).n;
    let z = rules.z.codes(first, second).z;
    let v = rules.v.codes(first, second).v;
    let c = rules.c.codes(carry_first, carry_second).c;
    Flags {
        n: code_shown(rules.n, held.n, registers[NEGATIVE as usize] % 2 == 1, n),
        z: code_shown(rules.z, held.z, registers[IS_ZERO as usize] % 2 == 1, z),
        v: code_shown(rules.v, held.v, registers[OVERFLOW as usize] % 2 == 1, v),
        c: code_shown(rules.c, held.c, registers[CARRY as usize] % 2 == 1, c),
    }
}

// The processor status word: bits 7:4 in place, and the condition codes.
fn psw_shown(registers: &[u64; 32], rules: &Rules, held: &Flags) -> u16
    ensures { result ≡ psw_shown (slice_index registers.now) rules.now held.now }
{
    let codes = codes_shown(registers, rules, held);
    let upper = (registers[STATUS as usize] / 16 % 16 * 16) as u16;
    upper + (codes.n as u16 * 8 + codes.z as u16 * 4 + codes.v as u16 * 2 + codes.c as u16)
}

fn low(value: u64) -> u32
    ensures { result ≡ value % 2 ^ 32 }
{
    (value % (1 << 32)) as u32
}

/// The VAX state at a boundary, as 32 registers of translated code show it: R0 to R14 by the low longwords of their
/// registers, the PC, and the PSW by R20 and the condition codes.
pub fn shown(
    registers: &[u64; 32],
    vax_pc: u32,
    rules: &Rules,
    held: &Flags,
    handler: u32,
) -> VaxState
    ensures { result ≡ shown (slice_index registers.now) vax_pc rules.now held.now handler }
{
    VaxState {
        r: [
            low(registers[0]),
            low(registers[1]),
            low(registers[2]),
            low(registers[3]),
            low(registers[4]),
            low(registers[5]),
            low(registers[6]),
            low(registers[7]),
            low(registers[8]),
            low(registers[9]),
            low(registers[10]),
            low(registers[11]),
            low(registers[12]),
            low(registers[13]),
            low(registers[14]),
        ],
        pc: vax_pc,
        psw: psw_shown(registers, rules, held),
        handler,
        pending: Pending::Nothing,
    }
}
