// The ground text of a description. Each `put_` function adds to the end of a text. Where memory
// runs out, the text keeps what it had, and may have a part of what was to be added behind it.
ghost use Rattle.std.specs.Prelude.{◌≡◌, ◌<◌, ◌≤◌, ◌++◌, ℕ, List, [], map, flat_map, length};
ghost use Rattle.std.specs.Prelude.{slice_get, option_map, None, IfOk, OnOk, if◌then◌else◌};
ghost use Rattle.ground_types.specs.Sound.{IsSound};
ghost use Rattle.rule_forms.specs.declared.form.Term.TheVariants as term;
ghost use Rattle.rule_forms.specs.Forms.{plain, plain_form};
ghost use Rattle.rule_forms.specs.Sound.{IsSound as IsSoundSyntax};
ghost use Rattle.decl_known.specs.Checked.{plain_checked};
ghost use Rattle.decl_known.specs.Sound.{IsSound as IsSoundChecked};
ghost use Rattle.ground_rules.specs.Assignments.{instances as instances_of};
ghost use Rattle.ground_rules.specs.Grounded.{plain_kind, plain_unit, plain_program, grounded};
ghost use Rattle.ground_rules.specs.Limits.{counts_as_rule, exceeded, rule_count};
ghost use Rattle.ground_rules.specs.Listed.{clauses_in, listed_at, unit_bound};
ghost use Rattle.text_pieces.specs.Atoms.{entity_words};
ghost use Rattle.ground_text.specs.GroundText.{counts_text, ground_fv, inner_line, initially_text};
ghost use Rattle.ground_text.specs.GroundText.{instance_text, unit_text, numbered_text, layer_text};
ghost use Rattle.ground_text.specs.GroundText.{layers_text, program_text, ground_text};
ghost use Rattle.ground_text.specs.GroundText.{IsGroundedFrom};

use decl_known::{Checked, Known};
use ground_rules::Instances;
use ground_types::{Domain, Name, Program, Unit, UnitId, UnitKind, entity_word, name_of};
use rt_base::{List, OutOfMemory, Word};
use rule_forms::{Atom, Form, Fv, Syntax, Term};
use rule_read::{print, put_form};
use std::alloc::Global;
use text_pieces::{Piece, put_all, put_text, put_unit_atom};

// Adds the line of the counts.
fn put_counts(out: &mut Vec<u8>, program: &Program, rules: u64) -> Result<(), OutOfMemory>
    ensures { OnOk result (out.new.items ≡ out.old.items ++ counts_text program.now.events
        (length program.now.units) rules (length program.now.layers)) }
{
    put_all(
        out,
        &[
            Piece::Text("events "),
            Piece::Number(program.events as u64),
            Piece::Text(" units "),
            Piece::Number(program.units.as_slice().len() as u64),
            Piece::Text(" rules "),
            Piece::Number(rules),
            Piece::Text(" layers "),
            Piece::Number(program.layers.as_slice().len() as u64),
            Piece::Text("\n"),
        ],
    )
}

// The entities of arguments, as terms.
fn entity_terms(
    alloc: Global,
    domains: &[Domain],
    places: &[u32],
    args: &[u32],
) -> Result<List<Term>, OutOfMemory>
    ensures { IfOk result (λ terms. terms ≡ map term.Entity (entity_words domains.now places.now
        args.now)) }
{
    let mut terms = Vec::with_capacity(alloc, args.len())?;
    for (domain, entity) in places.iter().zip(args) {
        let word = Word::new(alloc, entity_word(domains, *domain, *entity))?;
        terms.push(Term::Entity(word))?;
    }
    Ok(List::of(terms))
}

// A value of a ground fluent.
fn ground_fv(
    alloc: Global,
    domains: &[Domain],
    name: &Name,
    args: &[u32],
    value: u32,
) -> Result<Fv, OutOfMemory>
    ensures { IfOk result (λ fv. fv ≡ ground_fv domains.now name.now args.now value) }
{
    let args = entity_terms(alloc, domains, name.args.as_slice(), args)?;
    let value = match name.values.as_slice().get(value as usize) {
        Some(word) => word.as_str(),
        None => "",
    };
    Ok(Fv {
        atom: Atom {
            name: Word::new(alloc, name.word.as_str())?,
            args,
        },
        value: Word::new(alloc, value)?,
    })
}

// Adds the line of a form, behind two spaces.
fn put_inner(alloc: Global, out: &mut Vec<u8>, form: &Form) -> Result<(), OutOfMemory>
    ensures { OnOk result (out.new.items ≡ out.old.items ++ inner_line (plain_form form.now)) }
{
    put_text(out, "  ")?;
    put_form(alloc, out, form)
}

// Adds the line of a unit's opening value, if it has one.
fn put_initially(
    alloc: Global,
    out: &mut Vec<u8>,
    program: &Program,
    unit: &Unit,
) -> Result<(), OutOfMemory>
    ensures { OnOk result (out.new.items
        ≡ out.old.items ++ initially_text program.now.domains (slice_get program.now.names
        unit.now.name) unit.now.args (plain_kind unit.now.kind)) }
{
    let (
        Some(name),
        UnitKind::Simple {
            initially: Some(value),
            ..
        },
    ) = (name_of(program, unit), &unit.kind)
    else {
        return Ok(());
    };
    let domains = program.domains.as_slice();
    let fv = ground_fv(alloc, domains, name, unit.args.as_slice(), *value)?;
    put_inner(alloc, out, &Form::Initially(fv))
}

// Adds the line of an instance of a rule or of a `holdsFor` statement, and nothing for one of
// `initially`.
fn put_instance(alloc: Global, out: &mut Vec<u8>, form: &Form) -> Result<(), OutOfMemory>
    ensures { OnOk result (out.new.items ≡ out.old.items
        ++ (if counts_as_rule (plain_form form.now) then inner_line (plain_form form.now)
        else [])) }
{
    match form {
        Form::Initially(_) => Ok(()),
        _ => put_inner(alloc, out, form),
    }
}

// Adds the lines of the instances of a unit.
fn put_instances(
    alloc: Global,
    out: &mut Vec<u8>,
    instances: &Instances,
    unit: UnitId,
) -> Result<(), OutOfMemory>
    requires { unit < unit_bound instances.now }
    ensures { OnOk result (out.new.items ≡ out.old.items ++ flat_map instance_text
        (listed_at instances.now unit)) }
{
    for place in 0..instances.count(unit) {
        let form = instances.form_at(alloc, unit, place)?;
        put_instance(alloc, out, &form)?;
    }
    Ok(())
}

// What is listed: a program, and the instances that define its units.
#[derive(Drop)]
struct Listing<'p, 'i, 'k, 'a> {
    alloc: Global,
    program: &'p Program,
    instances: &'i Instances<'k, 'a>,
    ghost bounded: { length program.now.units ≤ unit_bound instances.now },
}

impl<'p, 'i, 'k, 'a> Listing<'p, 'i, 'k, 'a> {
    // Adds the lines of a unit of a layer, which has this number.
    fn put_unit(
        &self,
        out: &mut Vec<u8>,
        layer: usize,
        number: UnitId,
        unit: &Unit,
    ) -> Result<(), OutOfMemory>
        requires { number < unit_bound self.now.instances.now }
        ensures { OnOk result (out.new.items
            ≡ out.old.items ++ unit_text self.now.program.now.domains self.now.program.now.names
            layer (plain_unit unit.now) (listed_at self.now.instances.now number)) }
    {
        put_all(
            out,
            &[
                Piece::Text("layer "),
                Piece::Number(layer as u64),
                Piece::Text(" "),
            ],
        )?;
        put_unit_atom(out, self.program, unit)?;
        put_text(out, "\n")?;
        put_initially(self.alloc, out, self.program, unit)?;
        put_instances(self.alloc, out, self.instances, number)
    }

    // Adds the lines of the unit of a number, and nothing where there is none.
    fn put_numbered(
        &self,
        out: &mut Vec<u8>,
        layer: usize,
        number: UnitId,
    ) -> Result<(), OutOfMemory>
        ensures { OnOk result (out.new.items
            ≡ out.old.items
            ++ numbered_text self.now.program.now.domains self.now.program.now.names layer
            (option_map plain_unit (slice_get self.now.program.now.units number))
            (listed_at self.now.instances.now number)) }
    {
        match self.program.units.as_slice().get(number as usize) {
            Some(unit) => self.put_unit(out, layer, number, unit),
            None => Ok(()),
        }
    }

    // Adds the lines of the units of a layer.
    fn put_layer(
        &self,
        out: &mut Vec<u8>,
        layer: usize,
        units: &[UnitId],
    ) -> Result<(), OutOfMemory>
        ensures { OnOk result (out.new.items
            ≡ out.old.items ++ layer_text (plain_program self.now.program.now)
            (flat_map instances_of (clauses_in self.now.instances.now)) (layer, units.now)) }
    {
        for unit in units {
            self.put_numbered(out, layer, *unit)?;
        }
        Ok(())
    }

    // Adds the lines of all layers.
    fn put_layers(&self, out: &mut Vec<u8>) -> Result<(), OutOfMemory>
        ensures { OnOk result (out.new.items
            ≡ out.old.items ++ layers_text (plain_program self.now.program.now)
            (flat_map instances_of (clauses_in self.now.instances.now))) }
    {
        for (place, units) in self.program.layers.as_slice().iter().enumerate() {
            self.put_layer(out, place + 1, units.as_slice())?;
        }
        Ok(())
    }
}

// Adds how much there is of what, and the lines of all layers.
fn put_listed(
    alloc: Global,
    out: &mut Vec<u8>,
    program: &Program,
    instances: &Instances,
) -> Result<(), OutOfMemory>
    requires { length program.now.units ≤ unit_bound instances.now }
    ensures { OnOk result (out.new.items
        ≡ out.old.items
        ++ counts_text program.now.events (length program.now.units)
        (rule_count (clauses_in instances.now)) (length program.now.layers)
        ++ layers_text (plain_program program.now)
        (flat_map instances_of (clauses_in instances.now))) }
{
    put_counts(out, program, instances.rule_count())?;
    let listing = Listing {
        alloc,
        program,
        instances,
    };
    listing.put_layers(out)
}

// Adds how much there is of what, and the lines of all layers, over instances that are made of what
// is declared.
fn put_program(
    alloc: Global,
    out: &mut Vec<u8>,
    checked: &Checked,
    program: &Program,
) -> Result<(), OutOfMemory>
    requires checked { IsSoundChecked checked.now }
    requires limits { exceeded (plain_checked checked.now) ≡ None }
    requires sound { IsSound program.now }
    requires program { IsGroundedFrom checked.now program.now }
    ensures { OnOk result ((of_name : List ℕ) → plain_program program.now
        ≡ grounded (plain_checked checked.now) of_name →
        out.new.items ≡ out.old.items ++ program_text (plain_checked checked.now) of_name) }
{
    let known = Known::new(alloc, program.domains.as_slice(), program.names.as_slice())?;
    let instances = Instances::new(alloc, &known, checked)?;
    put_listed(alloc, out, program, &instances)?;
    Ok(())
}

/// The ground text of a description, of which these are the statements, what they declare and the
/// program: its canonical text, how much there is of what, and for each unit, layer by layer, the
/// instances that define it. A text that memory did not suffice for is dropped.
pub fn ground_text(
    alloc: Global,
    syntax: &Syntax,
    checked: &Checked,
    program: &Program,
) -> Result<Vec<u8>, OutOfMemory>
    requires syntax { IsSoundSyntax syntax.now }
    requires checked { IsSoundChecked checked.now }
    requires limits { exceeded (plain_checked checked.now) ≡ None }
    requires sound { IsSound program.now }
    requires program { IsGroundedFrom checked.now program.now }
    ensures { IfOk result (λ text. (of_name : List ℕ) → plain_program program.now
        ≡ grounded (plain_checked checked.now) of_name →
        text.items
        ≡ ground_text (map plain syntax.now.statements) (plain_checked checked.now) of_name) }
{
    let mut out = print(alloc, syntax)?.into_bytes();
    put_program(alloc, &mut out, checked, program)?;
    Ok(out)
}
