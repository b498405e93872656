//! Arithmetic in the field of `P = 2^64 - 2^32 + 1`, over which Cairo words, addresses and registers are numbers.
//!
//! The Cairo whitepaper's machine computes in a prime field; this prime is the project's own choice. Numbers and
//! decimal texts come in, and numbers below `P` go out. Every layer above stands on this one: the words of a program,
//! the machine that runs it, and the readers and writers of its files.
#![tactic(auto)]

ghost use Rattle.std.specs.Prelude.{◌≡◌, ◌<◌, ◌≤◌, ◌↔◌, ◌/◌, ◌%◌, ◌^◌, ℕ, IfOk, IsErrOf, Some, decimal};
ghost use Rattle.std.specs.Option.{SomeIff};
ghost use Rattle.felt64.specs.Field.{modulus, sum, difference, product, negative};
ghost use Rattle.byte_reading.specs.Decimal.{decimal_text, IsNotDigits};

use byte_reading::{DecimalFault, read_decimal};
use std::fmt;
use std::marker::Model;
use thiserror::Error;

/// The order of the field.
pub const MODULUS: u64 = 18446744069414584321;

/// A number below [`MODULUS`].
#[derive(Clone, Copy, Debug, PartialEq, Eq, PartialOrd, Ord, Hash)]
pub struct Felt {
    value: u64,
}

impl Model for Felt {
    ghost use Rattle.std.specs.Prelude.{ℕ, ◌<◌};
    ghost use Rattle.felt64.specs.Field.{modulus};

    ghost Value = { ℕ };

    ghost view = { λ a. a.value };

    ghost invariant = { λ a. a.value < modulus };

    ghost inverse = { λ n. record { value = n } };
}

/// Why a text is no field element.
#[derive(Clone, Copy, Debug, PartialEq, Eq, Drop, Error)]
pub enum NumFault {
    /// The text is no decimal number.
    #[error("no decimal number")]
    NotDigits,
    /// The number is the field's order or more.
    #[error("a number beyond the field")]
    TooLarge,
}

impl Felt {
    /// The element that is this number.
    pub fn new(n: u64) -> Option<Felt>
        ensures { SomeIff result (n < modulus) n }
    {
        if n < MODULUS {
            Some(Felt { value: n })
        } else {
            None
        }
    }

    /// The number that a decimal text writes, such as a word in a program's file.
    ///
    /// No sign, no space and no leading zero is taken, and a text may be of any length.
    pub fn read_decimal(text: &[u8]) -> Result<Felt, NumFault>
        ensures found { IfOk result (λ n. text.now ≡ decimal n) }
        ensures reads { (n : ℕ) → n < modulus → text.now ≡ decimal n → result ≡ Ok n }
        ensures below { IfOk result (λ n. n < modulus) }

        ensures not_digits { IsErrOf result NumFault.NotDigits ↔ IsNotDigits text.now }
        ensures too_large { IsErrOf result NumFault.TooLarge ↔ ((n : ℕ) × (modulus ≤ n) × (text.now ≡ decimal_text n)) }
    {
        match read_decimal(text, u128::from(MODULUS - 1)) {
            Ok(value) => Ok(Felt {
                value: value as u64,
            }),
            Err(DecimalFault::NotDigits) => Err(NumFault::NotDigits),
            Err(DecimalFault::TooLarge) => Err(NumFault::TooLarge),
        }
    }

    /// The number's remainder by the field's order.
    ///
    /// In the field `2^64` is `2^32 - 1` and `2^96` is `-1`, so no division is needed.
    pub fn reduce(n: u128) -> Felt
        ensures { result ≡ n % modulus }
    {
        let low = (n & 0xffff_ffff_ffff_ffff) as u64;
        let middle = ((n >> 64) & 0xffff_ffff) as u64;
        let high = (n >> 96) as u64;
        Felt::below_two_orders(low)
            .sub(Felt { value: high })
            .add(Felt {
                value: (middle << 32) - middle,
            })
    }

    /// The remainder of a number that is below twice the field's order, as each `u64` is.
    fn below_two_orders(n: u64) -> Felt
        ensures { result ≡ n % modulus }
    {
        Felt {
            value: n.checked_sub(MODULUS).unwrap_or(n),
        }
    }

    /// The number itself.
    pub fn value(self) -> u64
        ensures value { result ≡ self }
        ensures below { result < modulus }
    {
        self.value
    }

    /// The number's high and low 32 bits.
    pub fn split(self) -> (u32, u32)
        ensures high { result.0 ≡ self / 2 ^ 32 }
        ensures low { result.1 ≡ self % 2 ^ 32 }
    {
        ((self.value >> 32) as u32, (self.value & 0xffff_ffff) as u32)
    }

    /// The sum in the field.
    pub fn add(self, other: Felt) -> Felt
        ensures { result ≡ sum self other }
    {
        // The sum reaches the order exactly where `self` reaches this gap, so nothing here overflows.
        let gap = MODULUS - other.value;
        Felt {
            value: if self.value < gap {
                self.value + other.value
            } else {
                self.value - gap
            },
        }
    }

    /// The difference in the field.
    pub fn sub(self, other: Felt) -> Felt
        ensures { result ≡ difference self other }
    {
        Felt {
            value: if self.value < other.value {
                self.value + (MODULUS - other.value)
            } else {
                self.value - other.value
            },
        }
    }

    /// The product in the field.
    pub fn mul(self, other: Felt) -> Felt
        ensures { result ≡ product self other }
    {
        Felt::reduce(self.value as u128 * other.value as u128)
    }

    /// The negative in the field.
    pub fn neg(self) -> Felt
        ensures { result ≡ negative self }
    {
        Felt {
            value: if self.value == 0 {
                0
            } else {
                MODULUS - self.value
            },
        }
    }
}

impl From<u32> for Felt {
    ghost from_gives = { λ n a. a ≡ n };

    fn from(n: u32) -> Felt {
        Felt { value: n as u64 }
    }
}

impl fmt::Display for Felt {
    ghost output = { λ a. Some (decimal a) };

    fn fmt<W: fmt::Write>(&self, f: &mut fmt::Formatter<W>) -> fmt::Result {
        fmt::Display::fmt(&self.value, f)
    }
}
