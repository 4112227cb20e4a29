// Words and raw bytes, which contracts see as lists of bytes.
ghost use Rattle.std.specs.Prelude.{◌≡◌, true, IfOk};
ghost use Rattle.std.specs.List.{list_all};
ghost use Rattle.rt_base.specs.Kinds.{is_letter};

use std::alloc::{AllocError, AllocFailed, Global};
use std::marker::Model;

/// Memory ran out. No clause ties this answer to a refused growth.
#[derive(Clone, Copy, Debug, PartialEq, Eq)]
pub struct OutOfMemory;

impl From<AllocError> for OutOfMemory {
    fn from(_: AllocError) -> Self {
        OutOfMemory
    }
}

impl<T: Drop> From<AllocFailed<T>> for OutOfMemory {
    fn from(_: AllocFailed<T>) -> Self {
        OutOfMemory
    }
}

/// A text that contracts see as its bytes.
#[derive(Debug, Drop)]
pub struct Word {
    text: String,
}

impl Model for Word {
    ghost use Rattle.std.specs.Prelude.{ℕ, List};
    ghost use Rattle.std.specs.String.{string_bytes};

    ghost Value = { List ℕ };

    ghost view = { λ word. string_bytes word.text };
}

impl Word {
    /// A copy of a text.
    pub fn new(alloc: Global, text: &str) -> Result<Word, OutOfMemory>
        ensures { IfOk result (λ word. word ≡ text.now) }
    {
        let text = String::from_str(alloc, text)?;
        Ok(Word { text })
    }

    /// The text.
    pub fn as_str(&self) -> &str
        ensures { result.now ≡ self.now }
    {
        self.text.as_str()
    }
}

/// A copy of bytes that are letters, digits and underscores.
#[tactic(auto, using(crate::proofs::Letters::letters_are_text))]
pub fn word_of(alloc: Global, letters: &[u8]) -> Result<Word, OutOfMemory>
    requires { list_all is_letter letters.now ≡ true }
    ensures { IfOk result (λ word. word ≡ letters.now) }
{
    match str::from_utf8(letters) {
        Ok(text) => Word::new(alloc, text),
        Err(_) => unreachable!(),
    }
}

/// Bytes that need not be text.
#[derive(Debug, Drop)]
pub struct Raw {
    bytes: Vec<u8>,
}

impl Model for Raw {
    ghost use Rattle.std.specs.Prelude.{ℕ, List};

    ghost Value = { List ℕ };

    ghost view = { λ raw. raw.bytes.items };
}

impl Raw {
    /// A copy of some bytes.
    pub fn new(alloc: Global, bytes: &[u8]) -> Result<Raw, OutOfMemory>
        ensures { IfOk result (λ raw. raw ≡ bytes.now) }
    {
        let bytes = Vec::from_slice(alloc, bytes)?;
        Ok(Raw { bytes })
    }

    /// The bytes.
    pub fn as_slice(&self) -> &[u8]
        ensures { result.now ≡ self.now }
    {
        self.bytes.as_slice()
    }
}
