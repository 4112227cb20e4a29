// The limits on what a description comes to.
ghost use Rattle.std.specs.Prelude.{◌≡◌, ◌≤◌, ◌*◌, nat_lt, true, map, filter, length, Ok};
ghost use Rattle.std.specs.Prelude.{Err, IfOk, if◌then◌else◌};
ghost use Rattle.std.specs.List.{list_all};
ghost use Rattle.rule_forms.specs.Forms.{plain_form};
ghost use Rattle.decl_known.specs.Mentions.{leaves_of};
ghost use Rattle.decl_known.specs.Sound.{is_sound_domain};
ghost use Rattle.ground_names.specs.Counted.{capped};
ghost use Rattle.ground_rules.specs.Assignments.{assignments, instances};
ghost use Rattle.ground_rules.specs.Grounded.{event_count};
ghost use Rattle.ground_rules.specs.Limits.{unit_count, rows_of_unit, row_count, assignment_count};
ghost use Rattle.ground_rules.specs.Limits.{counts_as_rule, rules_in, rule_count, is_condition};
ghost use Rattle.ground_rules.specs.Limits.{conditions_in, condition_count, first_exceeded};
ghost use Rattle.ground_rules.specs.Limits.{name_tests, clause_tests, row_tests};
ghost use Rattle.ground_rules.specs.Tests.{Tests};
ghost use Rattle.ground_rules.specs.Clauses.{clause_of};
ghost use Rattle.ground_rules.specs.declared.refused.GroundRefused.TheVariants.{TooLarge};

use crate::clause::Clause;
use crate::instance::Instance;
use crate::refused::GroundRefused;
use decl_known::{Mention, gather};
use ground_names::count_arguments;
use ground_types::{Domain, Name, NameKind, is_input};
use rt_base::{Limit, OutOfMemory};
use rule_forms::{Body, Form, conditions_of};
use std::alloc::Global;

// How many units there are, or the greatest number where there are more; so it is with each count
// here.
pub(crate) fn unit_count(domains: &[Domain], names: &[Name]) -> u64
    requires { list_all is_sound_domain domains.now ≡ true }
    ensures { result ≡ capped (unit_count domains.now names.now) }
{
    let mut count: u64 = 0;
    for name in names {
        if !is_input(name.kind) {
            count = count.saturating_add(count_arguments(domains, name.args.as_slice()));
        }
    }
    count
}

// How many ground input events there are.
pub(crate) fn event_count(domains: &[Domain], names: &[Name]) -> u64
    requires { list_all is_sound_domain domains.now ≡ true }
    ensures { result ≡ capped (event_count domains.now names.now) }
{
    let mut count: u64 = 0;
    for name in names {
        if is_input(name.kind) {
            count = count.saturating_add(count_arguments(domains, name.args.as_slice()));
        }
    }
    count
}

// How many rows each ground event or unit of a name has.
fn rows_of_unit(name: &Name) -> u64
    ensures { result ≡ rows_of_unit name.now.kind name.now.values }
{
    match name.kind {
        NameKind::Input => 0,
        NameKind::Derived => 1,
        _ => name.values.as_slice().len() as u64,
    }
}

// How many rows all units have for one query.
fn row_count(domains: &[Domain], names: &[Name]) -> u64
    requires { list_all is_sound_domain domains.now ≡ true }
    ensures { result ≡ capped (row_count domains.now names.now) }
{
    let mut count: u64 = 0;
    for name in names {
        let units = count_arguments(domains, name.args.as_slice());
        count = count.saturating_add(units.saturating_mul(rows_of_unit(name)));
    }
    count
}

// How many assignments all statements have.
fn assignment_count(clauses: &[Clause]) -> u64
    ensures { result ≡ capped (assignment_count (map clause_of clauses.now)) }
{
    let mut count: u64 = 0;
    for clause in clauses {
        count = count.saturating_add(clause.count());
    }
    count
}

// How many instances a statement has, with a list in which assignments are made.
fn instances_in(clause: &Clause, assignment: &mut Vec<u32>) -> Result<u64, OutOfMemory>
    requires { length (assignments (clause_of clause.now)) ≤ 1048576 }
    ensures { IfOk result (λ count. count ≡ length (instances (clause_of clause.now))) }
{
    let mut count = 0;
    for number in 0..clause.count() as u32 {
        clause.assign(number, assignment)?;
        let instance = Instance {
            clause: &*clause,
            assignment: assignment.as_slice(),
        };
        if instance.is_permitted() {
            count += 1;
        }
    }
    Ok(count)
}

// Whether an instance of this statement counts as one of a rule.
fn counts_as_rule(form: &Form) -> bool
    ensures { result ≡ counts_as_rule (plain_form form.now) }
{
    !matches!(form, Form::Initially(_))
}

// How many of so many instances of a statement count as rules.
fn rules_among(form: &Form, instances: u64) -> u64
    ensures { result ≡ (if counts_as_rule (plain_form form.now) then instances else 0) }
{
    if counts_as_rule(form) { instances } else { 0 }
}

// Whether a condition is not `\=`.
fn is_condition(body: &Body) -> bool
    ensures { result ≡ is_condition body.now }
{
    !matches!(body, Body::Unequal(..))
}

// How many fluent-values the expression of a statement has, 0 where it has none, with a list in
// which atoms are gathered.
fn leaves_in<'a>(form: &'a Form, atoms: &mut Vec<Mention<'a>>) -> Result<u64, OutOfMemory>
    ensures { IfOk result (λ count. count ≡ capped (length (leaves_of (plain_form form.now)))) }
{
    let others = gather(form, atoms)?;
    Ok((atoms.len() - others) as u64)
}

// How many of the conditions are not `\=`.
fn condition_count(bodies: &[Body]) -> u64
    ensures { result ≡ capped (length (filter is_condition bodies.now)) }
{
    let mut count: u64 = 0;
    for body in bodies {
        if is_condition(body) {
            count = count.saturating_add(1);
        }
    }
    count
}

// How many conditions without `\=`, or leaves, a statement has, with a list in which atoms are
// gathered.
fn conditions_in<'a>(form: &'a Form, atoms: &mut Vec<Mention<'a>>) -> Result<u64, OutOfMemory>
    ensures { IfOk result (λ count. count ≡ capped (conditions_in (plain_form form.now))) }
{
    let leaves = leaves_in(form, atoms)?;
    Ok(condition_count(conditions_of(form)).saturating_add(leaves))
}

// What the instances of some statements come to.
#[derive(Drop)]
struct Totals {
    rules: u64,
    conditions: u64,
}

// What the instances of the statements come to, counted one by one.
fn totals_of(alloc: Global, clauses: &[Clause]) -> Result<Totals, OutOfMemory>
    requires { assignment_count (map clause_of clauses.now) ≤ 1048576 }
    ensures rules { IfOk result (λ totals. totals.rules
        ≡ capped (rule_count (map clause_of clauses.now))) }
    ensures conditions { IfOk result (λ totals. totals.conditions
        ≡ capped (condition_count (map clause_of clauses.now))) }
{
    let mut totals = Totals {
        rules: 0,
        conditions: 0,
    };
    let mut assignment = Vec::new(alloc);
    let mut atoms = Vec::new(alloc);
    for clause in clauses {
        let count = instances_in(clause, &mut assignment)?;
        let form = clause.form();
        totals.rules = totals.rules.saturating_add(rules_among(form, count));
        let conditions = count.saturating_mul(conditions_in(form, &mut atoms)?);
        totals.conditions = totals.conditions.saturating_add(conditions);
    }
    Ok(totals)
}

// How many instances of rules and `holdsFor` statements the statements have.
pub(crate) fn rule_count(alloc: Global, clauses: &[Clause]) -> Result<u64, OutOfMemory>
    requires { assignment_count (map clause_of clauses.now) ≤ 1048576 }
    ensures { IfOk result (λ count. count ≡ capped (rule_count (map clause_of clauses.now))) }
{
    let totals = totals_of(alloc, clauses)?;
    Ok(totals.rules)
}

// Refuses what is more than the limit.
fn test(count: u64, most: u64, limit: Limit) -> Result<(), GroundRefused>
    ensures { result ≡ (if nat_lt most count then Err (TooLarge limit) else Ok tt) }
{
    if most < count {
        return Err(GroundRefused::TooLarge { limit });
    }
    Ok(())
}

// Tests how many units and ground input events the names come to.
pub(crate) fn test_names(domains: &[Domain], names: &[Name]) -> Result<(), GroundRefused>
    requires { list_all is_sound_domain domains.now ≡ true }
    ensures { Tests result (first_exceeded (name_tests domains.now names.now)) }
{
    test(unit_count(domains, names), 65_536, Limit::Units)?;
    test(event_count(domains, names), 16_777_216, Limit::Events)
}

// Tests how many assignments, instances and conditions the statements come to. The instances are
// counted one by one, once it is known that there are not too many assignments.
pub(crate) fn test_clauses(alloc: Global, clauses: &[Clause]) -> Result<(), GroundRefused>
    ensures { Tests result (first_exceeded (clause_tests (map clause_of clauses.now))) }
{
    test(assignment_count(clauses), 1_048_576, Limit::Assignments)?;
    let totals = totals_of(alloc, clauses)?;
    test(totals.rules, 262_144, Limit::Rules)?;
    test(totals.conditions, 2_097_152, Limit::Conditions)
}

// Tests how many rows all queries together have.
pub(crate) fn test_rows(
    domains: &[Domain],
    names: &[Name],
    queries: u32,
) -> Result<(), GroundRefused>
    requires { list_all is_sound_domain domains.now ≡ true }
    ensures { Tests result (first_exceeded (row_tests domains.now names.now queries)) }
{
    let cells = row_count(domains, names).saturating_mul(queries as u64);
    test(cells, 16_777_216, Limit::Cells)
}
