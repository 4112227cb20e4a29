// Words as keys, hashed at once.
ghost use Rattle.std.specs.Prelude.{◌∷◌, []};
ghost use Rattle.std.proofs.Common.{ap};
ghost use Rattle.std.proofs.lemmas.Slice.Eq.{bytes_eq-Decides};

use std::hash::{Hash, Hasher};

// The bytes of a word. They are hashed in one step of the hasher, where a slice is hashed byte by
// byte.
#[derive(Clone, Copy, Debug, PartialEq, Eq)]
pub(crate) struct Letters<'a> {
    pub bytes: &'a [u8],
}

impl<'a> Hash for Letters<'a> {
    ghost hash_input = { λ word. word.bytes.now ∷ [] };

    ghost respects_eq = { λ x y same. ap (λ bytes. bytes ∷ [])
        ((bytes_eq-Decides x.bytes.now y.bytes.now).0 same) };

    fn hash<H: Hasher>(&self, state: &mut H) {
        state.write(self.bytes);
    }
}
