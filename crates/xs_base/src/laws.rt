//! Laws on numbers and bytes in a text: reading undoes writing.
ghost use Rattle.std.specs.Prelude.{◌≡◌, ℕ, ◌^◌, ◌≤◌, ◌<◌, List, All};
ghost use Rattle.std.specs.Fmt.{decimal};
ghost use Rattle.text_model.specs.Decimal.{number_of};
ghost use Rattle.text_model.specs.Hex.{hex, bytes_of_hex};

/// The digits of bytes spell these bytes.
pub fn hex_reads_back()
    ensures { (bytes : List ℕ) → All (λ byte. byte < 256) bytes → bytes_of_hex (hex bytes) ≡ Ok bytes }
{}

/// The digits of a number are read as this number, wherever it is within the bound.
pub fn decimal_reads_back()
    ensures { (max number : ℕ) → number ≤ max → max < 2 ^ 64 → number_of max (decimal number) ≡ Ok number }
{}
