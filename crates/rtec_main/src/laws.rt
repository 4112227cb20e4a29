// Laws of the definitions.
ghost use Rattle.std.specs.Prelude.{◌≡◌, ℕ, List};
ghost use Rattle.rtec_main.specs.Described.{Described, IsDescribed};

/// What a text is as a description is determined.
pub fn one_description()
    ensures { (text : List ℕ) (one two : Described) → IsDescribed text one → IsDescribed text two
        → one ≡ two }
{}
