// Laws of the definitions: what follows from rows and events that are those of a history.
ghost use Rattle.std.specs.Prelude.{◌≡◌, ◌&&◌, true, ℕ, suc, List, Some};
ghost use Rattle.std.specs.List.{list_all};
ghost use Rattle.ground_types.specs.Meaning.{units_of_rule};
ghost use Rattle.ground_types.specs.Members.{contains};
ghost use Rattle.ground_types.specs.Rows.{points};
ghost use Rattle.ground_types.specs.Sound.{IsSound, rule_fits};
ghost use Rattle.ground_types.specs.Touched.{touched};
ghost use Rattle.ground_types.specs.Truth.{happens};
ghost use Rattle.ground_types.specs.Windows.{left, right};
ghost use Rattle.ground_types.specs.declared.entries.Entry.{Entry};
ghost use Rattle.ground_types.specs.declared.program.Program.{Program};
ghost use Rattle.ground_types.specs.declared.program.Rule.{Rule};
ghost use Rattle.span_algebra.specs.Normal.{has};
ghost use Rattle.event_store.specs.Standing.{Events, standing, stood};
ghost use Rattle.layer_cache.specs.Rows.{Cached};
ghost use Rattle.point_rule.specs.Known.{known, is_open};
ghost use Rattle.delay_revise.specs.Published.{OccurIn, OccurBefore, HaveRowsOf};

/// The points that `touched` of `point_rule` gives are the touched points of a rule in a query of a
/// history after the first: where the old rows of the units that the rule names are those that are
/// published of the query before, and the new ones those of this query; and where the store's
/// events stand in this query's window as at its seal, and stood when it was settled last, where
/// this window overlaps the one before, as at the seal before.
pub fn touched_law()
    ensures { (program : Program) (history : List Entry) (k values : ℕ) (units : List ℕ)
        (rule : Rule) (cached : Cached) (store : Events) → IsSound program
        → rule_fits program values rule ≡ true
        → list_all (contains units) (units_of_rule rule) ≡ true →
        HaveRowsOf program history k units cached.before →
        OccurBefore program history k (stood store) →
        HaveRowsOf program history (suc k) units cached.rows →
        OccurIn program history (suc k) (λ event t. has (standing store event) t) →
        points (λ t. happens (known cached.rows store) rule.trigger t
        && is_open (Some (right program.plan k)) cached store rule t) (left program.plan (suc k))
        (right program.plan (suc k)) ≡ touched program history (suc k) rule }
{}
