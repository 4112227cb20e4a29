// The variables of a statement, each once, in the order of their first occurrence.
ghost use Rattle.std.specs.Prelude.{◌≡◌, ◌∷◌, ◌++◌, [], map, flat_map, filter_map, fold, IfOk};
ghost use Rattle.rule_forms.specs.Forms.{plain_form, conditions_of};
ghost use Rattle.ground_types.specs.Words.{has};
ghost use Rattle.decl_known.specs.Mentions.{variable_in, variables, head_of, leaves_of};
ghost use Rattle.decl_known.specs.Gathered.{mentions_of};
ghost use Rattle.ground_rules.specs.Assignments.{variables_in, with_word, variables_of};

use decl_known::{Mention, gather};
use rt_base::{OutOfMemory, Word};
use rule_forms::{Atom, Body, Form, Term, atom_of};
use std::alloc::Global;

// Whether a word is one of others.
fn has_word(words: &[&Word], word: &Word) -> bool
    ensures { result ≡ has (map (λ other. other.now) words.now) word.now }
{
    words.iter().any(|other| other.as_str() == word.as_str())
}

// Adds a word unless it is there.
fn add_word<'a>(word: &'a Word, into: &mut Vec<&'a Word>) -> Result<(), OutOfMemory>
    ensures { IfOk result (λ _. map (λ other. other.now) into.new.items
        ≡ with_word (map (λ other. other.now) into.old.items) word.now) }
{
    if !has_word(into.as_slice(), word) {
        into.push(word)?;
    }
    Ok(())
}

// Adds a term where it is a variable.
fn add_term<'a>(term: &'a Term, into: &mut Vec<&'a Word>) -> Result<(), OutOfMemory>
    ensures { IfOk result (λ _. map (λ other. other.now) into.new.items ≡ fold with_word
        (map (λ other. other.now) into.old.items) (filter_map variable_in (term.now ∷ []))) }
{
    match term {
        Term::Entity(_) => Ok(()),
        Term::Variable(word) => add_word(word, into),
    }
}

// Adds the variables of an atom.
fn add_atom<'a>(atom: &'a Atom, into: &mut Vec<&'a Word>) -> Result<(), OutOfMemory>
    ensures { IfOk result (λ _. map (λ other. other.now) into.new.items ≡ fold with_word
        (map (λ other. other.now) into.old.items) (filter_map variable_in atom.now.args)) }
{
    for term in atom.args.as_slice() {
        add_term(term, into)?;
    }
    Ok(())
}

// Adds the variables of a condition, those of `\=` too.
fn add_condition<'a>(body: &'a Body, into: &mut Vec<&'a Word>) -> Result<(), OutOfMemory>
    ensures { IfOk result (λ _. map (λ other. other.now) into.new.items ≡ fold with_word
        (map (λ other. other.now) into.old.items) (variables_in body.now)) }
{
    match body {
        Body::Happens { event, .. } => add_atom(atom_of(event), into),
        Body::Holds { fv, .. } => add_atom(&fv.atom, into),
        Body::Unequal(x, y) => {
            add_word(x, into)?;
            add_word(y, into)
        }
    }
}

// Adds the variables of some atoms.
fn add_atoms<'a>(mentions: &[Mention<'a>], into: &mut Vec<&'a Word>) -> Result<(), OutOfMemory>
    ensures { IfOk result (λ _. map (λ other. other.now) into.new.items ≡ fold with_word
        (map (λ other. other.now) into.old.items) (variables (mentions_of mentions.now))) }
{
    for mention in mentions {
        add_atom(mention.atom, into)?;
    }
    Ok(())
}

// Adds the variables of the conditions.
fn add_conditions<'a>(bodies: &'a [Body], into: &mut Vec<&'a Word>) -> Result<(), OutOfMemory>
    ensures { IfOk result (λ _. map (λ other. other.now) into.new.items ≡ fold with_word
        (map (λ other. other.now) into.old.items) (flat_map variables_in bodies.now)) }
{
    for body in bodies {
        add_condition(body, into)?;
    }
    Ok(())
}

// Adds the variables of a rule: of its head, then of its conditions.
fn add_rule<'a>(
    head: &'a Atom,
    bodies: &'a [Body],
    into: &mut Vec<&'a Word>,
) -> Result<(), OutOfMemory>
    ensures { IfOk result (λ _. map (λ other. other.now) into.new.items ≡ fold with_word
        (map (λ other. other.now) into.old.items) (filter_map variable_in head.now.args ++ flat_map
        variables_in bodies.now)) }
{
    add_atom(head, into)?;
    add_conditions(bodies, into)
}

// Adds the variables of a statement, of whose expression these are the leaves.
fn add_form<'a>(
    form: &'a Form,
    leaves: &[Mention<'a>],
    into: &mut Vec<&'a Word>,
) -> Result<(), OutOfMemory>
    requires { mentions_of leaves.now ≡ leaves_of (plain_form form.now) }
    ensures { IfOk result (λ _. map (λ other. other.now) into.new.items ≡ fold with_word
        (map (λ other. other.now) into.old.items) (variables (head_of (plain_form form.now))
        ++ (flat_map variables_in (conditions_of (plain_form form.now))
        ++ variables (leaves_of (plain_form form.now))))) }
{
    match form {
        Form::Initially(fv) => add_atom(&fv.atom, into),
        Form::Initiated(fv, bodies) => add_rule(&fv.atom, bodies.as_slice(), into),
        Form::Terminated(fv, bodies) => add_rule(&fv.atom, bodies.as_slice(), into),
        Form::Happens(atom, bodies) => add_rule(atom, bodies.as_slice(), into),
        Form::HoldsFor(fv, _) => {
            add_atom(&fv.atom, into)?;
            add_atoms(leaves, into)
        }
        _ => Ok(()),
    }
}

// The variables of a statement, each once, in the order of their first occurrence in the text.
pub(crate) fn variables_of<'a>(alloc: Global, form: &'a Form) -> Result<Vec<&'a Word>, OutOfMemory>
    ensures { IfOk result (λ found. map (λ word. word.now) found.items
        ≡ variables_of (plain_form form.now)) }
{
    let mut atoms = Vec::new(alloc);
    let others = gather(form, &mut atoms)?;
    let mut found = Vec::new(alloc);
    add_form(form, &atoms[others..], &mut found)?;
    Ok(found)
}
