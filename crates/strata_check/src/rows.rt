// The rows of all names, one rule after the other.
ghost use Rattle.std.specs.Prelude.{◌≡◌, ◌++◌, ◌∷◌, [], true, length, map, replicate};
ghost use Rattle.std.specs.Prelude.{option_to_list, IfOk};
ghost use Rattle.ground_types.specs.Sound.{is_distinct};
ghost use Rattle.ground_types.specs.Words.{name_words, place_in};
ghost use Rattle.rule_forms.specs.Forms.{plain, plain_form};
ghost use Rattle.decl_known.specs.Gathered.{mentions_of};
ghost use Rattle.strata_check.specs.Rows.{mention_places, with_rule, atom_places, add_at, AreRows};

use crate::row::Row;
use decl_known::{Known, Mention, gather};
use rt_base::OutOfMemory;
use rule_forms::{Atom, Form, Statement};
use std::alloc::Global;

// Adds the place of the name of an atom.
fn add_atom(known: &Known, atom: &Atom, row: &mut Row) -> Result<(), OutOfMemory>
    ensures { IfOk result (λ _. row.new ≡ row.old ++ atom_places known.now.names.now atom.now) }
{
    if let Some(place) = known.place(&atom.name) {
        row.push(place)?;
    }
    Ok(())
}

// Adds the places of the names of some atoms.
fn add_names(known: &Known, atoms: &[Mention], row: &mut Row) -> Result<(), OutOfMemory>
    ensures { IfOk result (λ _. row.new ≡ row.old ++ mention_places known.now.names.now
        (mentions_of atoms.now)) }
{
    for mention in atoms {
        add_atom(known, mention.atom, row)?;
    }
    Ok(())
}

// Adds to the row of the name of a head the places of the names in its body.
fn add_body(
    known: &Known,
    head: &Mention,
    body: &[Mention],
    rows: &mut Vec<Row>,
) -> Result<(), OutOfMemory>
    requires { length rows.old.items ≡ length known.now.names.now }
    ensures { IfOk result (λ _. rows.new.items ≡ add_at rows.old.items
        (option_to_list (place_in (name_words known.now.names.now) head.now.atom.now.name))
        (mention_places known.now.names.now (mentions_of body.now))) }
{
    if let Some(place) = known.place(&head.atom.name) {
        add_names(known, body, &mut rows[place])?;
    }
    Ok(())
}

// Adds to the row of the name that a statement defines the places of the names in its body, with a
// list in which its atoms are gathered.
fn add_rule<'a>(
    known: &Known,
    form: &'a Form,
    atoms: &mut Vec<Mention<'a>>,
    rows: &mut Vec<Row>,
) -> Result<(), OutOfMemory>
    requires { length rows.old.items ≡ length known.now.names.now }
    ensures { IfOk result (λ _. rows.new.items ≡ with_rule known.now.names.now rows.old.items
        (plain_form form.now)) }
{
    gather(form, atoms)?;
    match atoms.as_slice() {
        [head, body @ ..] => add_body(known, head, body, rows),
        [] => Ok(()),
    }
}

// So many empty rows.
fn empty_rows(alloc: Global, count: usize) -> Result<Vec<Row>, OutOfMemory>
    ensures { IfOk result (λ rows. rows.items ≡ replicate count []) }
{
    let mut rows = Vec::new(alloc);
    for _turn in 0..count {
        rows.push(Row::new(alloc))?;
    }
    Ok(rows)
}

// For each name the places of the names in its bodies.
pub(crate) fn rows_of(
    alloc: Global,
    known: &Known,
    rules: &[Statement],
) -> Result<Vec<Row>, OutOfMemory>
    requires { is_distinct (name_words known.now.names.now) ≡ true }
    ensures { IfOk result (λ rows. AreRows (map plain rules.now) known.now.names.now rows.items) }
{
    let mut rows = empty_rows(alloc, known.names.len())?;
    let mut atoms = Vec::new(alloc);
    for rule in rules {
        add_rule(known, &rule.form, &mut atoms, &mut rows)?;
    }
    Ok(rows)
}
