//! What is true of the texts of addresses and prefixes, for proofs to cite. The calls do nothing.

ghost use Rattle.std.specs.Prelude.{◌≡◌, ℕ, List};
ghost use Rattle.am_addr.specs.Text.{IsTextOf};
ghost use Rattle.am_addr.specs.Bits.{Span, IsPrefixText};

/// A text stands for one address alone, and for one prefix alone.
pub fn prefix_text_law()
    ensures address { (text a b : List ℕ) → IsTextOf text a → IsTextOf text b → a ≡ b }
    ensures prefix { (text : List ℕ) (a b : Span) → IsPrefixText text a → IsPrefixText text b
        → a ≡ b }
{}
