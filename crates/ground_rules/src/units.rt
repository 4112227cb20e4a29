// The units of a description.
ghost use Rattle.std.specs.Prelude.{◌≡◌, ◌++◌, ◌∷◌, [], ◌≤◌, ◌<◌, ◌^◌, true, cond, map, flat_map};
ghost use Rattle.std.specs.Prelude.{filter_map, find, fold, length, slice_get, option_map, Some};
ghost use Rattle.std.specs.Prelude.{IfOk};
ghost use Rattle.std.specs.List.{list_all, range_with_len};
ghost use Rattle.ground_types.specs.Members.{contains};
ghost use Rattle.ground_types.specs.Sound.{is_input, argument_lists};
ghost use Rattle.decl_known.specs.Sound.{is_sound_domain};
ghost use Rattle.ground_names.specs.Counted.{has_small_numbers};
ghost use Rattle.ground_rules.specs.Assignments.{instances};
ghost use Rattle.ground_rules.specs.Atoms.{head_value, Union_is, all_of, plain_expr};
ghost use Rattle.ground_rules.specs.Grounded.{plain_kind, plain_unit, expression_by, opening_by};
ghost use Rattle.ground_rules.specs.Grounded.{opening_of, union_for, kind_by, units_by, units_of};
ghost use Rattle.ground_rules.specs.Clauses.{clause_of};
ghost use Rattle.ground_rules.specs.LentInstances.{instance_of, rule_by};
ghost use Rattle.ground_rules.specs.Limits.{assignment_count};
ghost use Rattle.ground_rules.specs.Origins.{gathered, put, count_at, is_origin, instance_at};
ghost use Rattle.ground_rules.specs.Origins.{origin_unit, is_permitted_at, origins_at, origins_of};
ghost use Rattle.ground_rules.specs.Origins.{AreOrigins, AreFew, has_units_below, lesser};

use crate::buckets::Buckets;
use crate::clause::Clause;
use crate::instance::{Instance, Part};
use ground_names::{count_lists, list_at, sizes_of};
use ground_types::{Domain, Expr, Name, NameKind, Rule, Unit, UnitKind, is_input};
use rt_base::{List, OutOfMemory};
use std::alloc::Global;

// Where an instance comes from: the place of its statement and the number of its assignment.
#[derive(Clone, Copy, Debug, PartialEq, Eq)]
pub(crate) struct Origin {
    pub statement: usize,
    pub assignment: u32,
}

// The instance of an origin, with a list in which its assignment is made.
pub(crate) fn enter<'i, 'k, 'a>(
    clauses: &'i [Clause<'k, 'a>],
    origin: Origin,
    assignment: &'i mut Vec<u32>,
) -> Result<Instance<'i, 'k, 'a>, OutOfMemory>
    requires { is_origin (map clause_of clauses.now) origin ≡ true }
    ensures { IfOk result (λ instance. instance_of instance
        ≡ instance_at (map clause_of clauses.now) origin) }
{
    let clause = &clauses[origin.statement];
    clause.assign(origin.assignment, assignment)?;
    Ok(Instance {
        clause,
        assignment: assignment.as_slice(),
    })
}

// Adds an origin to the list of the unit in its head, if it is permitted.
fn add_origin(
    clauses: &[Clause],
    origin: Origin,
    assignment: &mut Vec<u32>,
    origins: &mut Buckets<Origin>,
) -> Result<(), OutOfMemory>
    requires { is_origin (map clause_of clauses.now) origin ≡ true }
    ensures { IfOk result (λ _. origins.new ≡ fold (put (origin_unit (map clause_of clauses.now)))
        origins.old (cond (is_permitted_at (map clause_of clauses.now) origin) (origin ∷ []) [])) }
{
    let instance = enter(&*clauses, origin, assignment)?;
    if instance.is_permitted() {
        origins.push(instance.unit() as usize, origin)?;
    }
    Ok(())
}

// Adds the permitted origins of the statement at a place to the lists of the units in their heads.
fn add_origins(
    clauses: &[Clause],
    statement: usize,
    assignment: &mut Vec<u32>,
    origins: &mut Buckets<Origin>,
) -> Result<(), OutOfMemory>
    requires inside { statement < length clauses.now }
    requires few { count_at (map clause_of clauses.now) statement < 2 ^ 32 }
    ensures { IfOk result (λ _. origins.new ≡ fold (put (origin_unit (map clause_of clauses.now)))
        origins.old (origins_at (map clause_of clauses.now) statement)) }
{
    for number in 0..clauses[statement].count() as u32 {
        let origin = Origin {
            statement,
            assignment: number,
        };
        add_origin(clauses, origin, assignment, origins)?;
    }
    Ok(())
}

// For each of so many units the permitted origins of the instances that have it as head, in the
// order of the text and then of the assignments.
pub(crate) fn origins_of(
    alloc: Global,
    clauses: &[Clause],
    units: usize,
) -> Result<Buckets<Origin>, OutOfMemory>
    requires { AreFew (map clause_of clauses.now) }
    ensures { IfOk result (λ lists. lists ≡ gathered (origin_unit (map clause_of clauses.now)) units
        (origins_of (map clause_of clauses.now))) }
{
    let mut origins = Buckets::new(alloc, units)?;
    let mut assignment = Vec::new(alloc);
    for statement in 0..clauses.len() {
        add_origins(clauses, statement, &mut assignment, &mut origins)?;
    }
    Ok(origins)
}

// The rules of a part among some instances.
fn rules_of(
    alloc: Global,
    part: Part,
    clauses: &[Clause],
    mine: &[Origin],
) -> Result<List<Rule>, OutOfMemory>
    requires { list_all (is_origin (map clause_of clauses.now)) mine.now ≡ true }
    ensures { IfOk result (λ rules. rules ≡ filter_map (λ i. rule_by part i i.clause.form)
        (map (instance_at (map clause_of clauses.now)) mine.now)) }
{
    let mut rules = Vec::new(alloc);
    let mut assignment = Vec::new(alloc);
    for origin in mine {
        let instance = enter(&*clauses, *origin, &mut assignment)?;
        if let Some(rule) = instance.rule_of(alloc, part)? {
            rules.push(rule)?;
        }
    }
    Ok(List::of(rules))
}

// The values that `initially` statements among some instances give.
fn openings_of(alloc: Global, clauses: &[Clause], mine: &[Origin]) -> Result<Vec<u32>, OutOfMemory>
    requires { list_all (is_origin (map clause_of clauses.now)) mine.now ≡ true }
    ensures { IfOk result (λ values. values.items ≡ filter_map (λ i. opening_by i i.clause.form)
        (map (instance_at (map clause_of clauses.now)) mine.now)) }
{
    let mut values = Vec::new(alloc);
    let mut assignment = Vec::new(alloc);
    for origin in mine {
        let instance = enter(&*clauses, *origin, &mut assignment)?;
        if let Some(value) = instance.opening() {
            values.push(value)?;
        }
    }
    Ok(values)
}

// The lesser of a value, if it is one of so many, and the least so far.
fn lesser(values: usize, least: Option<u32>, value: u32) -> Option<u32>
    ensures { result ≡ lesser values least value }
{
    if value as usize >= values {
        return least;
    }
    match least {
        Some(other) => Some(other.min(value)),
        None => Some(value),
    }
}

// The first of so many declared values that is given.
fn first_given(values: usize, given: &[u32]) -> Option<u32>
    ensures { result ≡ find (contains given.now) (range_with_len 0 values) }
{
    let mut least = None;
    for value in given {
        least = lesser(values, least, *value);
    }
    least
}

// The first of so many declared values for which there is an `initially` instance.
fn opening_of(
    alloc: Global,
    values: usize,
    clauses: &[Clause],
    mine: &[Origin],
) -> Result<Option<u32>, OutOfMemory>
    requires { list_all (is_origin (map clause_of clauses.now)) mine.now ≡ true }
    ensures { IfOk result (λ value. value ≡ opening_of values
        (map (instance_at (map clause_of clauses.now)) mine.now)) }
{
    let given = openings_of(alloc, clauses, mine)?;
    Ok(first_given(values, given.as_slice()))
}

// For each of so many values the origins of the instances with it in the head.
fn by_value(
    alloc: Global,
    values: usize,
    clauses: &[Clause],
    mine: &[Origin],
) -> Result<Buckets<Origin>, OutOfMemory>
    requires { list_all (is_origin (map clause_of clauses.now)) mine.now ≡ true }
    ensures { IfOk result (λ origins. origins
        ≡ gathered (λ origin. head_value (instance_at (map clause_of clauses.now) origin)) values
        mine.now) }
{
    let mut origins = Buckets::new(alloc, values)?;
    let mut assignment = Vec::new(alloc);
    for origin in mine {
        let instance = enter(&*clauses, *origin, &mut assignment)?;
        origins.push(instance.head_value() as usize, *origin)?;
    }
    Ok(origins)
}

// The union of the expressions of some instances.
fn union_over(alloc: Global, clauses: &[Clause], mine: &[Origin]) -> Result<Expr, OutOfMemory>
    requires { list_all (is_origin (map clause_of clauses.now)) mine.now ≡ true }
    ensures { IfOk result (λ expr. plain_expr expr
        ≡ Union_is (all_of (filter_map (λ i. expression_by i i.clause.form)
        (map (instance_at (map clause_of clauses.now)) mine.now)))) }
{
    let mut members = Vec::new(alloc);
    let mut assignment = Vec::new(alloc);
    for origin in mine {
        let instance = enter(&*clauses, *origin, &mut assignment)?;
        if let Some(expr) = instance.expression_of(alloc)? {
            members.push(expr)?;
        }
    }
    Ok(Expr::Union(members))
}

// For each of so many values the union of its instances' expressions.
fn unions_of(
    alloc: Global,
    values: usize,
    clauses: &[Clause],
    mine: &[Origin],
) -> Result<List<Expr>, OutOfMemory>
    requires { list_all (is_origin (map clause_of clauses.now)) mine.now ≡ true }
    ensures { IfOk result (λ exprs. map plain_expr exprs
        ≡ map (union_for (map (instance_at (map clause_of clauses.now)) mine.now))
        (range_with_len 0 values)) }
{
    let origins = by_value(alloc, values, clauses, mine)?;
    let mut exprs = Vec::with_capacity(alloc, values)?;
    for value in 0..values {
        exprs.push(union_over(alloc, clauses, origins.get(value))?)?;
    }
    Ok(List::of(exprs))
}

// What a unit of a simple fluent with so many values is, from the instances that have it as head.
fn simple_of(
    alloc: Global,
    values: usize,
    clauses: &[Clause],
    mine: &[Origin],
) -> Result<UnitKind, OutOfMemory>
    requires { list_all (is_origin (map clause_of clauses.now)) mine.now ≡ true }
    ensures { IfOk result (λ kind. plain_kind kind ≡ kind_by NameKind.Simple values
        (map (instance_at (map clause_of clauses.now)) mine.now)) }
{
    Ok(UnitKind::Simple {
        initially: opening_of(alloc, values, clauses, mine)?,
        initiate: rules_of(alloc, Part::Initiation, clauses, mine)?,
        terminate: rules_of(alloc, Part::Termination, clauses, mine)?,
    })
}

// What a unit of a name is, from the instances that have it as head.
fn kind_of(
    alloc: Global,
    name: &Name,
    clauses: &[Clause],
    mine: &[Origin],
) -> Result<UnitKind, OutOfMemory>
    requires { list_all (is_origin (map clause_of clauses.now)) mine.now ≡ true }
    ensures { IfOk result (λ kind. plain_kind kind ≡ kind_by name.now.kind (length name.now.values)
        (map (instance_at (map clause_of clauses.now)) mine.now)) }
{
    let values = name.values.as_slice().len();
    match name.kind {
        NameKind::Simple => simple_of(alloc, values, clauses, mine),
        NameKind::Static => Ok(UnitKind::Static(unions_of(alloc, values, clauses, mine)?)),
        _ => Ok(UnitKind::Derived(rules_of(alloc, Part::Occurrence, clauses, mine)?)),
    }
}

// The unit of the name at a place with the arguments of a number among all lists below these sizes.
fn unit_at(
    alloc: Global,
    sizes: &[u32],
    number: u32,
    place: u32,
    name: &Name,
    clauses: &[Clause],
    mine: &[Origin],
) -> Result<Unit, OutOfMemory>
    requires inside { number < length (argument_lists sizes.now) }
    requires few { length (argument_lists sizes.now) < 2 ^ 64 }
    requires origins { list_all (is_origin (map clause_of clauses.now)) mine.now ≡ true }
    ensures { IfOk result (λ unit. option_map (λ args. record {
      name = place;
      args = args;
      kind = kind_by name.now.kind (length name.now.values)
          (map (instance_at (map clause_of clauses.now)) mine.now);
    })
        (slice_get (argument_lists sizes.now) number) ≡ Some (plain_unit unit)) }
{
    let mut args = Vec::new(alloc);
    list_at(sizes, number, &mut args)?;
    Ok(Unit {
        name: place,
        args: List::of(args),
        kind: kind_of(alloc, name, clauses, mine)?,
    })
}

// Adds the units of the name at a place, in the order of their arguments. An input event has none.
fn add_units(
    alloc: Global,
    domains: &[Domain],
    clauses: &[Clause],
    origins: &Buckets<Origin>,
    place: u32,
    name: &Name,
    units: &mut Vec<Unit>,
) -> Result<(), OutOfMemory>
    requires domains { list_all is_sound_domain domains.now ≡ true }
    requires numbered { has_small_numbers domains.now name.now ≡ true }
    requires few { AreFew (map clause_of clauses.now) }
    requires origins { AreOrigins (map clause_of clauses.now) origins.now }
    requires below { has_units_below domains.now (length origins.now) name.now ≡ true }
    ensures { IfOk result (λ _. map plain_unit units.new.items ≡ map plain_unit units.old.items
        ++ units_by domains.now (flat_map instances (map clause_of clauses.now))
        (place, name.now)) }
{
    if is_input(name.kind) {
        return Ok(());
    }
    let sizes = sizes_of(alloc, domains, name.args.as_slice())?;
    for number in 0..count_lists(sizes.as_slice()) as u32 {
        let mine = origins.get((name.first + number) as usize);
        units.push(unit_at(alloc, sizes.as_slice(), number, place, name, clauses, mine)?)?;
    }
    Ok(())
}

// The units of these names, which are numbered, in order, each with the instances that define it.
// Their number is given.
pub(crate) fn units_of(
    alloc: Global,
    domains: &[Domain],
    names: &[Name],
    clauses: &[Clause],
    count: usize,
) -> Result<Vec<Unit>, OutOfMemory>
    requires domains { list_all is_sound_domain domains.now ≡ true }
    requires numbered { list_all (has_small_numbers domains.now) names.now ≡ true }
    requires below { list_all (has_units_below domains.now count) names.now ≡ true }
    requires names { length names.now < 2 ^ 32 }
    requires assignments { assignment_count (map clause_of clauses.now) ≤ 1048576 }
    ensures { IfOk result (λ units. map plain_unit units.items ≡ units_of domains.now names.now
        (flat_map instances (map clause_of clauses.now))) }
{
    let origins = origins_of(alloc, clauses, count)?;
    let mut units = Vec::with_capacity(alloc, count)?;
    for (place, name) in names.iter().enumerate() {
        add_units(
            alloc,
            domains,
            clauses,
            &origins,
            place as u32,
            name,
            &mut units,
        )?;
    }
    Ok(units)
}
