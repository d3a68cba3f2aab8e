//! What is true of the bytes of domain files, for proofs to cite. The calls do nothing.

ghost use Rattle.std.specs.Prelude.{◌≡◌, ℕ, List};
ghost use Rattle.am_domain.specs.Domains.{DomainValue, IsLawful, IsDomainOf, IsDomainRefusal};
ghost use Rattle.am_domain.specs.declared.error.DomainError.{DomainError};

use am_addr::prefix_text_law;

/// Bytes say at most one domain, or are refused in at most one way, and never both; and each domain that bytes say is
/// lawful.
pub fn domain_law()
    ensures domain { (bytes : List ℕ) (a b : DomainValue)
        → IsDomainOf bytes a → IsDomainOf bytes b → a ≡ b }
    ensures refusal { (bytes : List ℕ) (a b : DomainError)
        → IsDomainRefusal bytes a → IsDomainRefusal bytes b → a ≡ b }
    ensures lawful { (bytes : List ℕ) (d : DomainValue) → IsDomainOf bytes d → IsLawful d }
    ensures either { (bytes : List ℕ) (d : DomainValue) (e : DomainError)
        → IsDomainOf bytes d → IsDomainRefusal bytes e → ⊥ }
{
    prefix_text_law();
}
