// One unit of the open layer is worked.
ghost use Rattle.std.specs.Prelude.{◌≡◌, ◌≤◌, ◌+◌, true, IfOk, OnOk};
ghost use Rattle.ground_types.specs.Members.{contains};
ghost use Rattle.ground_types.specs.Windows.{IsSoundPlan, right};
ghost use Rattle.delay_revise.specs.Revising.{number_of, open_units, IsWorkOf};
ghost use Rattle.delay_revise.specs.Revising.{trigger_points_of_unit};
ghost use Rattle.delay_revise.specs.Going.{end_before};

use crate::reviser::Reviser;
use crate::unit::{Worked, work_unit};
use ground_types::{Plan, Point, UnitId};
use rt_base::{OutOfMemory, Steps};
use std::sync::ledger::Ledger;

// The right border of the query before, if there is one.
fn end_before(plan: &Plan, k: u32) -> Option<Point>
    requires sound { IsSoundPlan plan.now }
    requires within { k ≤ plan.now.queries }
    ensures { result ≡ end_before plan.now k }
{
    if k == 0 {
        return None;
    }
    Some(plan.right(k - 1))
}

impl Reviser {
    /// Works a unit of the open layer, once `apply` was done. Ok adds a step for each point of the
    /// window at which a trigger of its rules occurs; want of memory, the one error, at most as
    /// many. Units of a layer may be worked in any order, and side by side.
    pub fn work<L: Ledger>(&self, unit: UnitId, steps: &mut Steps<L>) -> Result<Worked, OutOfMemory>
        requires chunk { self.now.has_chunk ≡ true }
        requires applied { self.now.applied ≡ true }
        requires unit { contains (open_units self.now) unit ≡ true }
        ensures worked { IfOk result (IsWorkOf self.now unit) }
        ensures ok { OnOk result (steps.new.count ≡ steps.old.count + trigger_points_of_unit
            self.now.program self.now.taken (number_of self.now) unit) }
        ensures least { steps.old.count ≤ steps.new.count }
        ensures most { steps.new.count ≤ steps.old.count + trigger_points_of_unit
            self.now.program self.now.taken (number_of self.now) unit }
        ensures parts { steps.new.out ≡ steps.old.out }
    {
        let plan = &self.program.plan;
        let w = plan.left(self.number);
        let q = plan.right(self.number);
        let before = end_before(plan, self.number);
        let opening = self.opening[unit as usize];
        let unit = &self.program.units.as_slice()[unit as usize];
        let mut part = steps.part();
        let worked = work_unit(
            self.alloc,
            &self.program,
            unit,
            opening,
            &self.cache,
            &self.store,
            before,
            w,
            q,
            &mut part,
        );
        steps.add(part);
        worked
    }
}
