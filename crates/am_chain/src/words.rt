//! What a word of the command line says: a number in a range, the name of a file.
ghost use Rattle.std.specs.Prelude.{◌≤◌, [], ◌∷◌, ℕ, map, string_bytes, IfSome, IfNone};
ghost use Rattle.am_chain.specs.WordForms.{WritesNumber, DomainFile, SaysDomainFile};
ghost use Rattle.am_chain.specs.Shown.{domain_file_shown};

use am_base::decimal;
use am_domain::is_file_name;

/// The number that the word writes, where it is in the range.
pub fn number(word: &str, least: u64, most: u64) -> Option<u64>
    ensures writes { IfSome result (λ n. WritesNumber word.now n) }
    ensures least { IfSome result (λ n. least ≤ n) }
    ensures most { IfSome result (λ n. n ≤ most) }
    ensures none { IfNone result ((n : ℕ) → WritesNumber word.now n → least ≤ n → n ≤ most
        → ⊥) }
{
    let Some(number) = decimal(word.as_bytes()) else {
        return None;
    };
    if number < u128::from(least) {
        return None;
    }
    if number > u128::from(most) {
        return None;
    }
    Some(number as u64)
}

/// What a command of DOMAIN FILE is asked.
#[derive(Clone, Copy)]
pub struct DomainFileWords<'a> {
    /// The name of the domain file.
    pub domain: &'a str,
    /// The name of the capture.
    pub file: &'a str,
}

/// DOMAIN FILE.
pub fn domain_file_of(words: &[String]) -> Option<DomainFileWords<'_>>
    ensures only { IfSome result
        (λ w. SaysDomainFile (map string_bytes words.now) (domain_file_shown w)) }
    ensures none { IfNone result
        ((a : DomainFile) → SaysDomainFile (map string_bytes words.now) a → ⊥) }
{
    match words {
        [domain, file] => two_names(domain.as_str(), file.as_str()),
        _ => None,
    }
}

// The same, of two words.
fn two_names<'a>(domain: &'a str, file: &'a str) -> Option<DomainFileWords<'a>>
    ensures only { IfSome result
        (λ w. SaysDomainFile (domain.now ∷ file.now ∷ []) (domain_file_shown w)) }
    ensures none { IfNone result
        ((a : DomainFile) → SaysDomainFile (domain.now ∷ file.now ∷ []) a → ⊥) }
{
    if !is_file_name(domain) {
        return None;
    }
    if !is_file_name(file) {
        return None;
    }
    Some(DomainFileWords { domain, file })
}
