//! Where the parts of a word are: three offsets of 16 bits, and the flags by number from bit 48 on
//! (Cairo whitepaper, section 4.4). Encoding and decoding share it.

ghost use Rattle.std.specs.Prelude.{◌≡◌, ◌<◌};
ghost use Rattle.casm_word.specs.Word.{flag, flag_if};

/// The bit of flag 0.
pub const FLAGS: u32 = 48;

/// Set: dst is an offset from fp; clear: from ap.
pub const DST_REG: u32 = 0;

/// Set: op0 is an offset from fp; clear: from ap.
pub const OP0_REG: u32 = 1;

/// Set: op1 is an offset from pc: with offset 1, the immediate behind the word.
pub const OP1_IMM: u32 = 2;

/// Set: op1 is an offset from fp.
pub const OP1_FP: u32 = 3;

/// Set: op1 is an offset from ap; with all three clear, from the cell that op0 holds.
pub const OP1_AP: u32 = 4;

/// Set: res is op0 + op1; clear, with `RES_MUL` clear: op1.
pub const RES_ADD: u32 = 5;

/// Set: res is op0 * op1.
pub const RES_MUL: u32 = 6;

/// Set: the next pc is res.
pub const PC_JUMP_ABS: u32 = 7;

/// Set: the next pc is pc + res.
pub const PC_JUMP_REL: u32 = 8;

/// Set: the next pc is pc + op1 if dst is not zero.
pub const PC_JNZ: u32 = 9;

/// Set: ap grows by res.
pub const AP_ADD: u32 = 10;

/// Set: ap grows by 1.
pub const AP_ADD1: u32 = 11;

/// Set: a call.
pub const OPCODE_CALL: u32 = 12;

/// Set: a return.
pub const OPCODE_RET: u32 = 13;

/// Set: the assertion that dst is res.
pub const OPCODE_ASSERT_EQ: u32 = 14;

/// The number whose one bit is that of flag `k`.
pub fn flag(k: u32) -> u64
    requires { k < 16 }
    ensures { result ≡ flag k }
{
    1 << (FLAGS + k)
}

/// The same if the condition holds, and else 0.
pub fn flag_if(condition: bool, k: u32) -> u64
    requires { k < 16 }
    ensures { result ≡ flag_if condition k }
{
    if condition { flag(k) } else { 0 }
}
