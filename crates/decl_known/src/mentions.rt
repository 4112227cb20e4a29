// The atoms of a rule, each with what it has to name.
ghost use Rattle.std.specs.Prelude.{◌≡◌, ◌≤◌, ◌++◌, ◌∷◌, [], length, take, drop, flat_map};
ghost use Rattle.std.specs.Prelude.{option_map, option_to_list, IfOk};
ghost use Rattle.rule_forms.specs.Forms.{plain_tree, plain_form, conditions_of};
ghost use Rattle.decl_known.specs.Mentions.{fluent_value, event_atom, event_mention, body_mentions};
ghost use Rattle.decl_known.specs.Mentions.{leaves, head_of, leaves_of, mentions};
ghost use Rattle.decl_known.specs.Gathered.{role_of, mention_of, mentions_of};

use rt_base::{OutOfMemory, Word};
use rule_forms::{Atom, Body, EventText, Form, Fv, Tree, conditions_of};

/// What an atom has to name.
#[derive(Clone, Copy, Debug, PartialEq, Eq)]
pub enum Role {
    SimpleFluent,
    StaticFluent,
    DerivedEvent,
    /// An input event or a derived event.
    AnyEvent,
    /// A simple fluent or a static one.
    AnyFluent,
}

/// An atom, and its value where it is that of a fluent-value.
#[derive(Clone, Copy, Debug)]
pub struct Mention<'a> {
    pub role: Role,
    pub atom: &'a Atom,
    pub value: Option<&'a Word>,
}

fn fluent_value<'a>(role: Role, fv: &'a Fv) -> Mention<'a>
    ensures { mention_of result ≡ fluent_value (role_of role) fv.now }
{
    Mention {
        role,
        atom: &fv.atom,
        value: Some(&fv.value),
    }
}

fn event_atom<'a>(role: Role, atom: &'a Atom) -> Mention<'a>
    ensures { mention_of result ≡ event_atom (role_of role) atom.now }
{
    Mention {
        role,
        atom,
        value: None,
    }
}

fn event_mention<'a>(event: &'a EventText) -> Mention<'a>
    ensures { mention_of result ≡ event_mention event.now }
{
    match event {
        EventText::Plain(atom) => event_atom(Role::AnyEvent, atom),
        EventText::Start(fv) => fluent_value(Role::AnyFluent, fv),
        EventText::End(fv) => fluent_value(Role::AnyFluent, fv),
    }
}

// Adds the atom of a condition; `\=` has none.
fn add_condition<'a>(body: &'a Body, into: &mut Vec<Mention<'a>>) -> Result<(), OutOfMemory>
    ensures { IfOk result (λ _. mentions_of into.new.items ≡ mentions_of into.old.items
        ++ body_mentions body.now) }
{
    match body {
        Body::Happens { event, .. } => into.push(event_mention(event))?,
        Body::Holds { fv, .. } => into.push(fluent_value(Role::AnyFluent, fv))?,
        Body::Unequal(..) => {}
    }
    Ok(())
}

// The atom of which a rule says when it happens or holds.
fn head_of<'a>(form: &'a Form) -> Option<Mention<'a>>
    ensures { option_to_list (option_map mention_of result) ≡ head_of (plain_form form.now) }
{
    match form {
        Form::Initially(fv) => Some(fluent_value(Role::SimpleFluent, fv)),
        Form::Initiated(fv, _) => Some(fluent_value(Role::SimpleFluent, fv)),
        Form::Terminated(fv, _) => Some(fluent_value(Role::SimpleFluent, fv)),
        Form::Happens(atom, _) => Some(event_atom(Role::DerivedEvent, atom)),
        Form::HoldsFor(fv, _) => Some(fluent_value(Role::StaticFluent, fv)),
        _ => None,
    }
}

// Adds the atoms of conditions, in their order.
fn add_conditions<'a>(bodies: &'a [Body], into: &mut Vec<Mention<'a>>) -> Result<(), OutOfMemory>
    ensures { IfOk result (λ _. mentions_of into.new.items ≡ mentions_of into.old.items ++ flat_map
        body_mentions bodies.now) }
{
    for body in bodies {
        add_condition(body, into)?;
    }
    Ok(())
}

// Adds the leaves of an expression, in their order.
#[cycle(leaves)]
fn add_leaves<'a>(tree: &'a Tree, into: &mut Vec<Mention<'a>>) -> Result<(), OutOfMemory>
    ensures { IfOk result (λ _. mentions_of into.new.items ≡ mentions_of into.old.items ++ leaves
        (plain_tree tree.now)) }
{
    match tree {
        Tree::Leaf(fv) => {
            into.push(fluent_value(Role::AnyFluent, fv))?;
            Ok(())
        }
        Tree::Union(members) => add_all_leaves(members, into),
        Tree::Intersect(members) => add_all_leaves(members, into),
        Tree::Complement(first, others) => {
            add_leaves(first, into)?;
            add_all_leaves(others, into)
        }
    }
}

#[cycle(leaves)]
fn add_all_leaves<'a>(trees: &'a [Tree], into: &mut Vec<Mention<'a>>) -> Result<(), OutOfMemory>
    ensures { IfOk result (λ _. mentions_of into.new.items ≡ mentions_of into.old.items ++ flat_map
        (λ tree. leaves (plain_tree tree)) trees.now) }
{
    for tree in trees {
        add_leaves(tree, into)?;
    }
    Ok(())
}

// Adds the leaves of a statement's expression.
fn add_leaves_of<'a>(form: &'a Form, into: &mut Vec<Mention<'a>>) -> Result<(), OutOfMemory>
    ensures { IfOk result (λ _. mentions_of into.new.items ≡ mentions_of into.old.items
        ++ leaves_of (plain_form form.now)) }
{
    match form {
        Form::HoldsFor(_, tree) => add_leaves(tree, into),
        _ => Ok(()),
    }
}

/// Puts the atoms of a statement, in the order of the text, in place of what was there, and says
/// how many of them stand before the leaves of its expression. The one error is want of memory; the
/// list may then hold a part of them.
pub fn gather<'a>(form: &'a Form, into: &mut Vec<Mention<'a>>) -> Result<usize, OutOfMemory>
    ensures all { IfOk result (λ _. mentions_of into.new.items ≡ mentions (plain_form form.now)) }
    ensures within { IfOk result (λ others. others ≤ length into.new.items) }
    ensures others { IfOk result (λ others. mentions_of (take others into.new.items)
        ≡ head_of (plain_form form.now) ++ flat_map body_mentions
        (conditions_of (plain_form form.now))) }
    ensures leaves { IfOk result (λ others. mentions_of (drop others into.new.items)
        ≡ leaves_of (plain_form form.now)) }
{
    into.clear();
    if let Some(head) = head_of(form) {
        into.push(head)?;
    }
    add_conditions(conditions_of(form), into)?;
    let others = into.len();
    add_leaves_of(form, into)?;
    Ok(others)
}
