// What is known by a word.
ghost use Rattle.std.specs.Prelude.{◌≡◌};

use ground_types::{Domain, Name};
use rt_base::Word;

/// What is known by a word: the word itself, a domain, or a fluent or event by its name.
pub trait Worded {
    ghost use Rattle.std.specs.Prelude.{ℕ, List};

    ghost word_of: { Self → List ℕ };

    /// The word.
    fn word(&self) -> &str
        ensures { result.now ≡ word_of self.now };
}

impl Worded for Word {
    ghost word_of = { λ word. word };

    fn word(&self) -> &str {
        self.as_str()
    }
}

impl Worded for Domain {
    ghost word_of = { λ domain. domain.word };

    fn word(&self) -> &str {
        self.word.as_str()
    }
}

impl Worded for Name {
    ghost word_of = { λ name. name.word };

    fn word(&self) -> &str {
        self.word.as_str()
    }
}
