//! Laws about the definitions alone, which readers and writers rest on.

ghost use Rattle.std.specs.Prelude.{◌≡◌, ℕ, List};
ghost use Rattle.byte_reading.specs.Decimal.{decimal_text, StartsWithNumber};

/// No two numbers have the same decimal text.
pub fn one_text()
    ensures { (m n : ℕ) → decimal_text m ≡ decimal_text n → m ≡ n }
{}

/// A text starts with one number at most, and then what follows is one too.
pub fn one_leading_number()
    ensures { (text : List ℕ) (m : ℕ) (behind_m : List ℕ) (n : ℕ) (behind_n : List ℕ)
        → StartsWithNumber text m behind_m → StartsWithNumber text n behind_n → (m ≡ n) × (behind_m ≡ behind_n) }
{}
