// The instances of a description, listed by the units in their heads.
ghost use Rattle.std.specs.Prelude.{◌≡◌, true, map};
ghost use Rattle.std.specs.List.{list_all};
ghost use Rattle.rule_forms.specs.Forms.{is_rule};
ghost use Rattle.ground_rules.specs.Clauses.{clause_of};
ghost use Rattle.ground_rules.specs.Limits.{rule_count};
ghost use Rattle.ground_rules.specs.Origins.{AreOrigins, AreFew};

use crate::buckets::Buckets;
use crate::clause::Clause;
use crate::units::Origin;

/// The instances of a description's statements, each listed by the unit in its head. It borrows the
/// description and makes an instance when it is asked for.
#[derive(Drop)]
pub struct Instances<'k, 'a> {
    pub(crate) clauses: Vec<Clause<'k, 'a>>,
    pub(crate) origins: Buckets<Origin>,
    // How many instances of rules and `holdsFor` statements there are.
    pub(crate) rules: u64,
    ghost are_rules: { list_all (λ clause. is_rule clause.form) (map clause_of clauses.items)
        ≡ true },
    ghost are_few: { AreFew (map clause_of clauses.items) },
    ghost are_origins: { AreOrigins (map clause_of clauses.items) origins },
    ghost rules_are: { rules ≡ rule_count (map clause_of clauses.items) },
}
