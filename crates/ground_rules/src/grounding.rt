// Grounding a description.
ghost use Rattle.std.specs.Prelude.{◌≡◌, ◌<◌, ◌^◌, ◌++◌, map, flat_map, length, None, IfOk};
ghost use Rattle.rule_forms.specs.Forms.{plain};
ghost use Rattle.decl_known.specs.Sound.{IsSound as IsSoundChecked};
ghost use Rattle.decl_known.specs.Checked.{plain_checked};
ghost use Rattle.decl_known.specs.Layers.{IsLayering};
ghost use Rattle.ground_types.specs.Sound.{IsSound};
ghost use Rattle.ground_rules.specs.Assignments.{instances};
ghost use Rattle.ground_rules.specs.NumberedDeclarations.{AreDeclarations};
ghost use Rattle.ground_rules.specs.Clauses.{clause_of};
ghost use Rattle.ground_rules.specs.Grounded.{clauses as all_clauses, plain_unit, clauses_of};
ghost use Rattle.ground_rules.specs.Grounded.{numbered_names, units_of, layers_of};
ghost use Rattle.ground_rules.specs.Limits.{first_exceeded, name_tests, clause_tests, row_tests};
ghost use Rattle.ground_rules.specs.Tests.{Tests};
ghost use Rattle.ground_rules.specs.Answers.{Answers};

use crate::clause::Clause;
use crate::layers::layers_of;
use crate::limits::{event_count, test_clauses, test_names, test_rows, unit_count};
use crate::numbering::{copied_domains, numbered};
use crate::refused::GroundRefused;
use crate::units::units_of;
use decl_known::{Checked, Known, LayerList};
use ground_types::{Domain, Name, Program, Unit, UnitId};
use rt_base::{List, OutOfMemory};
use rule_forms::Statement;
use std::alloc::Global;

// Statements over declarations, each with its variables.
pub(crate) fn clauses_of<'k, 'a>(
    alloc: Global,
    known: &'k Known<'a>,
    rules: &'k [Statement],
) -> Result<Vec<Clause<'k, 'a>>, OutOfMemory>
    requires { AreDeclarations known.now.domains.now known.now.names.now }
    ensures { IfOk result (λ found. map clause_of found.items ≡ clauses_of known.now.domains.now
        known.now.names.now (map plain rules.now)) }
{
    let mut clauses = Vec::with_capacity(alloc, rules.len())?;
    for rule in rules {
        clauses.push(Clause::new(alloc, known, &rule.form)?)?;
    }
    Ok(clauses)
}

// Tests how many assignments, instances, conditions and rows a description comes to, of which these
// are the statements.
fn test_instances(alloc: Global, checked: &Checked, clauses: &[Clause]) -> Result<(), GroundRefused>
    requires { IsSoundChecked checked.now }
    ensures { Tests result (first_exceeded (clause_tests (map clause_of clauses.now)
        ++ row_tests checked.now.domains checked.now.names checked.now.plan.queries)) }
{
    test_clauses(alloc, clauses)?;
    let domains = checked.domains.as_slice();
    test_rows(domains, checked.names.as_slice(), checked.plan.queries)
}

// The units of a description over its names, which are numbered, if its statements and rows are
// within the limits.
fn units_over(alloc: Global, checked: &Checked, names: &[Name]) -> Result<Vec<Unit>, GroundRefused>
    requires checked { IsSoundChecked checked.now }
    requires names { names.now ≡ numbered_names (plain_checked checked.now) }
    requires few { first_exceeded (name_tests checked.now.domains checked.now.names) ≡ None }
    ensures tests { Tests result (first_exceeded
        (clause_tests (all_clauses (plain_checked checked.now)) ++ row_tests checked.now.domains
        checked.now.names checked.now.plan.queries)) }
    ensures units { IfOk result (λ units. map plain_unit units.items ≡ units_of checked.now.domains
        names.now (flat_map instances (all_clauses (plain_checked checked.now)))) }
{
    let domains = checked.domains.as_slice();
    let known = Known::new(alloc, domains, names)?;
    let rules = checked.rules.as_slice();
    let clauses = clauses_of(alloc, &known, &*rules)?;
    test_instances(alloc, checked, clauses.as_slice())?;
    let count = unit_count(domains, checked.names.as_slice()) as usize;
    Ok(units_of(alloc, domains, names, clauses.as_slice(), count)?)
}

// Copies of a description's domains, and the layers of its units.
fn domains_and_layers(
    alloc: Global,
    checked: &Checked,
    layers: &LayerList,
    units: &[Unit],
) -> Result<(List<Domain>, List<List<UnitId>>), OutOfMemory>
    requires { length units.now < 2 ^ 32 }
    ensures domains { IfOk result (λ made. made.0 ≡ checked.now.domains) }
    ensures layers { IfOk result (λ made. made.1 ≡ layers_of layers.now.of_name
        (map plain_unit units.now)) }
{
    let domains = copied_domains(alloc, checked.domains.as_slice())?;
    let layers = layers_of(alloc, layers.of_name.as_slice(), units)?;
    Ok((domains, layers))
}

// The program of a description, or the first limit that is exceeded.
fn program_of(
    alloc: Global,
    checked: &Checked,
    layers: &LayerList,
) -> Result<Program, GroundRefused>
    requires { IsSoundChecked checked.now }
    ensures { Answers result (plain_checked checked.now) layers.now.of_name }
{
    let domains = checked.domains.as_slice();
    let declared = checked.names.as_slice();
    test_names(domains, declared)?;
    let names = numbered(alloc, domains, declared)?;
    let units = units_over(alloc, checked, names.as_slice())?;
    let (copies, layers) = domains_and_layers(alloc, checked, layers, units.as_slice())?;
    Ok(Program {
        plan: checked.plan,
        domains: copies,
        names,
        units: List::of(units),
        layers,
        events: event_count(domains, declared) as u32,
    })
}

/// The program of a description: the ground instances of its statements, unit by unit.
///
/// TooLarge comes exactly where a count exceeds its limit, with the first in this order: Units
/// (65,536), Events (16,777,216 ground input events), Assignments (1,048,576: for each rule,
/// `holdsFor` and `initially` statement the product of the sizes of its variables' domains,
/// summed), Rules (262,144 instances of rules and `holdsFor` statements), Conditions (2,097,152
/// conditions and leaves of these, without `\=`) and Cells (16,777,216, rows times queries).
/// Nothing of such a size is made before it is tested. The time is linear in the description, in
/// its assignments and in what is made. The layers have to be those of the description. The limits
/// and the order of instances are this project's own.
pub fn ground(
    alloc: Global,
    checked: &Checked,
    layers: &LayerList,
) -> Result<Program, GroundRefused>
    requires checked { IsSoundChecked checked.now }
    requires layers { IsLayering (map plain checked.now.rules) checked.now.names
        layers.now.of_name }
    ensures exact { Answers result (plain_checked checked.now) layers.now.of_name }
    ensures sound { IfOk result IsSound }
{
    program_of(alloc, checked, layers)
}
