//! The rules that make a word undefined. Decoding answers the first one that a word meets.

use thiserror::Error;

/// A rule that a word must not meet. "Two" is two or more.
#[derive(Clone, Copy, Debug, PartialEq, Eq)]
pub enum Rule {
    /// Rule 1: two op1 flags.
    TwoOp1Flags,
    /// Rule 2: two res flags.
    TwoResFlags,
    /// Rule 3: two pc flags.
    TwoPcFlags,
    /// Rule 4: two ap flags.
    TwoApFlags,
    /// Rule 5: two opcodes.
    TwoOpcodes,
    /// Rule 6: pc_jnz beside a res flag, an opcode or ap_add.
    JnzBesideOthers,
    /// Rule 7: opcode_call beside an ap flag.
    CallBesideApFlag,
    /// Rule 8: op1_imm with an offset of op1 other than 1.
    ImmediateNotNext,
}

/// Why a number is no instruction word.
#[derive(Clone, Copy, Debug, PartialEq, Eq, Drop, Error)]
pub enum WordFault {
    /// Bit 63 is set; a word has 63 bits. This goes before the rules.
    #[error("bit 63 of the word is set")]
    HighBit,
    /// The first rule that the word meets.
    #[error("the word joins flags that no instruction has together")]
    Undefined(Rule),
}

impl From<Rule> for WordFault {
    ghost use Rattle.std.specs.Prelude.{◌≡◌};
    ghost use Rattle.casm_word.specs.declared.rules.WordFault.TheVariants.{Undefined};

    ghost from_gives = { λ rule fault. fault ≡ Undefined rule };

    fn from(rule: Rule) -> WordFault {
        WordFault::Undefined(rule)
    }
}
