// The places at which the variables of a statement stand.
ghost use Rattle.std.specs.Prelude.{◌≡◌, ◌++◌, flat_map, filter_map, zip, option_to_list, IfOk};
ghost use Rattle.rule_forms.specs.Forms.{plain_form};
ghost use Rattle.ground_types.specs.Words.{declaration};
ghost use Rattle.decl_known.specs.Rules.{variable_at, places_by, places};
ghost use Rattle.decl_known.specs.Gathered.{mentions_of, places_of};

use crate::known::Known;
use crate::mentions::{Mention, gather};
use rt_base::{OutOfMemory, Word};
use rule_forms::{Atom, Form, Term};
use std::alloc::Global;

/// A variable at a place of a domain, which is told by its number.
#[derive(Clone, Copy, Debug)]
pub struct Place<'a> {
    /// The word of the variable.
    pub variable: &'a Word,
    /// The number of the domain, counted from 0 in declared order.
    pub domain: u32,
}

// Adds the place of a term where it is a variable.
fn add_place<'a>(term: &'a Term, domain: u32, into: &mut Vec<Place<'a>>) -> Result<(), OutOfMemory>
    ensures { IfOk result (λ _. places_of into.new.items ≡ places_of into.old.items
        ++ option_to_list (variable_at term.now domain)) }
{
    if let Term::Variable(variable) = term {
        into.push(Place { variable, domain })?;
    }
    Ok(())
}

// Adds the places of the variables among some terms over these domains.
fn add_places_of<'a>(
    terms: &'a [Term],
    domains: &[u32],
    into: &mut Vec<Place<'a>>,
) -> Result<(), OutOfMemory>
    ensures { IfOk result (λ _. places_of into.new.items ≡ places_of into.old.items ++ filter_map
        (λ place. variable_at place.0 place.1) (zip terms.now domains.now)) }
{
    for (term, domain) in terms.iter().zip(domains) {
        add_place(term, *domain, into)?;
    }
    Ok(())
}

// Adds the places of the variables of an atom, none where its name is not declared.
fn add_places<'a>(
    known: &Known,
    atom: &'a Atom,
    into: &mut Vec<Place<'a>>,
) -> Result<(), OutOfMemory>
    ensures { IfOk result (λ _. places_of into.new.items ≡ places_of into.old.items ++ places_by
        atom.now.args (declaration known.now.names.now atom.now.name)) }
{
    match known.declaration(&atom.name) {
        Some(name) => add_places_of(atom.args.as_slice(), name.args.as_slice(), into),
        None => Ok(()),
    }
}

/// Puts the places of all variables of some atoms in place of what was there. The one error is want
/// of memory; the list may then hold a part of them.
pub fn gather_places<'a>(
    known: &Known,
    mentions: &[Mention<'a>],
    into: &mut Vec<Place<'a>>,
) -> Result<(), OutOfMemory>
    ensures { IfOk result (λ _. places_of into.new.items
        ≡ flat_map (λ m. places_by m.atom.args (declaration known.now.names.now m.atom.name))
        (mentions_of mentions.now)) }
{
    into.clear();
    for mention in mentions {
        add_places(known, mention.atom, into)?;
    }
    Ok(())
}

/// The variables at all places of a statement's atoms, in the order of the text, each with the
/// number of its place's domain. The one error is want of memory.
pub fn places<'a>(
    alloc: Global,
    known: &Known,
    form: &'a Form,
) -> Result<Vec<Place<'a>>, OutOfMemory>
    ensures { IfOk result (λ found. places_of found.items ≡ places known.now.names.now
        (plain_form form.now)) }
{
    let mut atoms = Vec::new(alloc);
    gather(form, &mut atoms)?;
    let mut found = Vec::new(alloc);
    gather_places(known, &atoms, &mut found)?;
    Ok(found)
}
