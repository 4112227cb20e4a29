// Laws of grounding.
ghost use Rattle.std.specs.Prelude.{ℕ, List, ◌≡◌, map, None};
ghost use Rattle.rule_forms.specs.Forms.{plain};
ghost use Rattle.decl_known.specs.declared.checked.Checked.{Checked};
ghost use Rattle.decl_known.specs.Checked.{plain_checked};
ghost use Rattle.decl_known.specs.Sound.{IsSound as IsSoundChecked};
ghost use Rattle.decl_known.specs.Layers.{IsLayering};
ghost use Rattle.ground_types.specs.declared.program.Program.{Program};
ghost use Rattle.ground_types.specs.Sound.{IsSound};
ghost use Rattle.ground_rules.specs.Grounded.{plain_program, grounded};
ghost use Rattle.ground_rules.specs.Limits.{exceeded};

/// Whatever is the program of a checked description that exceeds no limit is sound: what its rules
/// and expressions name is there and of the kind that is meant, units and events are in order
/// without gaps, layers are in order, and units, events and rules are within their limits.
pub fn grounded_is_sound()
    ensures { (checked : Checked) (of_name : List ℕ) (program : Program) → IsSoundChecked checked
        → IsLayering (map plain checked.rules) checked.names of_name
        → exceeded (plain_checked checked) ≡ None
        → plain_program program ≡ grounded (plain_checked checked) of_name
        → IsSound program }
{}
