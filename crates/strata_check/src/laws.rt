// Laws of the definitions.
ghost use Rattle.std.specs.Prelude.{◌≡◌, ℕ, List};
ghost use Rattle.ground_types.specs.declared.program.Name.{Name};
ghost use Rattle.rule_forms.specs.Forms.{PlainStatement};
ghost use Rattle.decl_known.specs.Layers.{IsLayering};

/// The layers of names are determined: two lists that give each name its layer are equal.
pub fn one_layering()
    ensures { (rules : List PlainStatement) (names : List Name) (one two : List ℕ)
        → IsLayering rules names one → IsLayering rules names two → one ≡ two }
{}
