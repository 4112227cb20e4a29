// What is asked of the instances of a description.
ghost use Rattle.std.specs.Prelude.{◌≡◌, ◌<◌, None, Some, length, slice_get, option_map, IfOk};
ghost use Rattle.rule_forms.specs.Forms.{plain_form};
ghost use Rattle.decl_known.specs.Sound.{IsSound as IsSoundChecked};
ghost use Rattle.decl_known.specs.Checked.{plain_checked};
ghost use Rattle.ground_rules.specs.Grounded.{numbered_names};
ghost use Rattle.ground_rules.specs.Limits.{exceeded, rule_count};
ghost use Rattle.ground_rules.specs.Stated.{stated};
ghost use Rattle.ground_rules.specs.Listed.{clauses_in, listed_at, unit_bound, ListsInstancesOf};

use crate::grounding::clauses_of;
use crate::instances::Instances;
use crate::limits::{rule_count, unit_count};
use crate::units::{enter, origins_of};
use decl_known::{Checked, Known};
use ground_types::UnitId;
use rt_base::OutOfMemory;
use rule_forms::Form;
use std::alloc::Global;

impl<'k, 'a> Instances<'k, 'a> {
    /// The instances of a description that exceeds no limit, over its domains and the names of its
    /// program. The time is linear in the description and in its assignments.
    pub fn new(
        alloc: Global,
        known: &'k Known<'a>,
        checked: &'k Checked,
    ) -> Result<Instances<'k, 'a>, OutOfMemory>
        requires checked { IsSoundChecked checked.now }
        requires domains { known.now.domains.now ≡ checked.now.domains }
        requires names { known.now.names.now ≡ numbered_names (plain_checked checked.now) }
        requires limits { exceeded (plain_checked checked.now) ≡ None }
        ensures { IfOk result (λ listed. ListsInstancesOf listed (plain_checked checked.now)) }
    {
        let clauses = clauses_of(alloc, known, checked.rules.as_slice())?;
        let units = unit_count(checked.domains.as_slice(), checked.names.as_slice());
        let origins = origins_of(alloc, clauses.as_slice(), units as usize)?;
        let rules = rule_count(alloc, clauses.as_slice())?;
        Ok(Instances {
            clauses,
            origins,
            rules,
        })
    }

    /// How many instances of rules and `holdsFor` statements there are.
    pub fn rule_count(&self) -> u64
        ensures { result ≡ rule_count (clauses_in self.now) }
    {
        self.rules
    }

    /// How many instances have this unit as head, those of `initially` statements too.
    pub fn count(&self, unit: UnitId) -> usize
        requires { unit < unit_bound self.now }
        ensures { result ≡ length (listed_at self.now unit) }
    {
        self.origins.get(unit as usize).len()
    }

    /// What the instance at a place among those of a unit says, with entities in place of variables
    /// and without `\=`; they are in the order of the text and then of the assignments.
    pub fn form_at(&self, alloc: Global, unit: UnitId, place: usize) -> Result<Form, OutOfMemory>
        requires unit { unit < unit_bound self.now }
        requires place { place < length (listed_at self.now unit) }
        ensures { IfOk result (λ form. option_map stated (slice_get (listed_at self.now unit)
            place) ≡ Some (plain_form form)) }
    {
        let origin = self.origins.get(unit as usize)[place];
        let mut assignment = Vec::new(alloc);
        let instance = enter(self.clauses.as_slice(), origin, &mut assignment)?;
        instance.stated(alloc)
    }
}
