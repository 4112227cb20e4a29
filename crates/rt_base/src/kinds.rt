// The kinds of words of a description.
ghost use Rattle.std.specs.Prelude.{◌≡◌};
ghost use Rattle.std.specs.Char.{is_ascii_lowercase};
ghost use Rattle.std.specs.List.{list_all, list_any};
ghost use Rattle.std.specs.Str.{bytes_eq};
ghost use Rattle.rt_base.specs.Kinds.{is_letter, is_name, is_reserved, first_is};

// A letter, a digit or an underscore.
fn is_letter(byte: u8) -> bool
    ensures { result ≡ is_letter byte }
{
    byte.is_ascii_lowercase() || byte.is_ascii_uppercase() || byte.is_ascii_digit() || byte == b'_'
}

// Nothing but letters, digits and underscores.
fn are_letters(word: &[u8]) -> bool
    ensures { result ≡ list_all is_letter word.now }
{
    word.iter().all(|byte| is_letter(*byte))
}

// A word with a lower-case letter first.
fn begins_lowercase(word: &[u8]) -> bool
    ensures { result ≡ first_is is_ascii_lowercase word.now }
{
    match word {
        [] => false,
        [first, ..] => first.is_ascii_lowercase(),
    }
}

// The words of the statements' forms.
const RESERVED: [&str; 22] = [
    "window",
    "step",
    "from",
    "queries",
    "domain",
    "input",
    "simple",
    "static",
    "derived",
    "initially",
    "initiatedAt",
    "terminatedAt",
    "happensAt",
    "holdsAt",
    "holdsFor",
    "start",
    "end",
    "not",
    "union_all",
    "intersect_all",
    "relative_complement_all",
    "expires",
];

// The word is one of these.
fn stands_among(word: &[u8], others: &[&str]) -> bool
    ensures { result ≡ list_any (λ other. bytes_eq other.now word.now) others.now }
{
    others.iter().any(|other| other.as_bytes() == word)
}

/// Whether a word may name nothing.
pub fn is_reserved(word: &[u8]) -> bool
    ensures { result ≡ is_reserved word.now }
{
    stands_among(word, &RESERVED)
}

/// Whether a word may name a domain, an event or a fluent: 1 to 64 letters, digits and underscores,
/// the first a lower-case letter, and not reserved.
pub fn is_name(word: &[u8]) -> bool
    ensures { result ≡ is_name word.now }
{
    begins_lowercase(word) && are_letters(word) && word.len() <= 64 && !is_reserved(word)
}
