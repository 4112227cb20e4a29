// The tests of rules.
ghost use Rattle.std.specs.Prelude.{◌≡◌, ◌++◌, true, map, zip, option_copied};
ghost use Rattle.std.specs.List.{list_any};
ghost use Rattle.ground_types.specs.Sound.{is_distinct};
ghost use Rattle.rule_forms.specs.Forms.{plain_form, plain};
ghost use Rattle.ground_types.specs.Words.{has, domain_words, name_words};
ghost use Rattle.decl_known.specs.Faults.{refused_at};
ghost use Rattle.decl_known.specs.Mentions.{fits, leaves_of};
ghost use Rattle.decl_known.specs.Rules.{has_too_many, begins_with_trigger, lacks_trigger};
ghost use Rattle.decl_known.specs.Rules.{is_of_wrong_kind, has_wrong_arity, is_foreign};
ghost use Rattle.decl_known.specs.Rules.{lacks_value, has_undeclared_word};
ghost use Rattle.decl_known.specs.Rules.{rule_fault, rule_refusal};
ghost use Rattle.domain_decl.specs.Testing.{Tests, word_fault};
ghost use Rattle.domain_decl.specs.Wrong.{is_wrong};
ghost use Rattle.domain_decl.specs.Parts.{ArePartsOf};
ghost use Rattle.decl_known.specs.Gathered.{role_of, mention_of, mentions_of};

use crate::variables::{has_clash, has_loose_variable};
use decl_known::{DeclRefused, Known, Mention, Place, Role, gather, gather_places};
use ground_types::{Domain, Name, NameKind};
use rt_base::Word;
use rule_forms::{Body, Form, Statement, Term, conditions_of};
use std::alloc::Global;

// What is gathered from a statement: its atoms, of which so many stand before its leaves, and the
// places of its variables.
#[derive(Drop)]
struct Parts<'p, 'a> {
    atoms: &'p [Mention<'a>],
    others: usize,
    variables: &'p [Place<'a>],
}

fn has_too_many(form: &Form, leaves: &[Mention]) -> bool
    requires { mentions_of leaves.now ≡ leaves_of (plain_form form.now) }
    ensures { result ≡ has_too_many (plain_form form.now) }
{
    conditions_of(form).len() > 8 || leaves.len() > 64
}

fn begins_with_trigger(bodies: &[Body]) -> bool
    ensures { result ≡ begins_with_trigger bodies.now }
{
    match bodies {
        [Body::Happens { positive, .. }, ..] => *positive,
        _ => false,
    }
}

fn lacks_trigger(form: &Form) -> bool
    ensures { result ≡ lacks_trigger (plain_form form.now) }
{
    match form {
        Form::Initiated(_, bodies) => !begins_with_trigger(bodies.as_slice()),
        Form::Terminated(_, bodies) => !begins_with_trigger(bodies.as_slice()),
        Form::Happens(_, bodies) => !begins_with_trigger(bodies.as_slice()),
        _ => false,
    }
}

fn fits(role: Role, kind: NameKind) -> bool
    ensures { result ≡ fits (role_of role) kind }
{
    match role {
        Role::SimpleFluent => matches!(kind, NameKind::Simple),
        Role::StaticFluent => matches!(kind, NameKind::Static),
        Role::DerivedEvent => matches!(kind, NameKind::Derived),
        Role::AnyEvent => matches!(kind, NameKind::Input | NameKind::Derived),
        Role::AnyFluent => matches!(kind, NameKind::Simple | NameKind::Static),
    }
}

fn is_of_wrong_kind(known: &Known, mention: &Mention) -> bool
    ensures { result ≡ is_of_wrong_kind known.now.names.now (mention_of mention.now) }
{
    match known.declaration(&mention.atom.name) {
        Some(name) => !fits(mention.role, name.kind),
        None => true,
    }
}

fn has_wrong_arity(known: &Known, mention: &Mention) -> bool
    ensures { result ≡ has_wrong_arity known.now.names.now (mention_of mention.now) }
{
    match known.declaration(&mention.atom.name) {
        Some(name) => mention.atom.args.as_slice().len() != name.args.as_slice().len(),
        None => true,
    }
}

fn stands_among(words: &[Word], word: &Word) -> bool
    ensures { result ≡ has words.now word.now }
{
    words.iter().any(|other| other.as_str() == word.as_str())
}

fn lacks_value(name: &Name, value: Option<&Word>) -> bool
    ensures { result ≡ lacks_value name.now (option_copied value.entry) }
{
    match value {
        Some(value) => !stands_among(name.values.as_slice(), value),
        None => false,
    }
}

fn is_foreign(known: &Known, term: &Term, domain: u32) -> bool
    ensures { result ≡ is_foreign known.now.domains.now term.now domain }
{
    match term {
        Term::Entity(word) => !known.is_entity(domain, word),
        Term::Variable(_) => false,
    }
}

fn has_foreign(known: &Known, terms: &[Term], domains: &[u32]) -> bool
    ensures { result ≡ list_any (λ place. is_foreign known.now.domains.now place.0 place.1)
        (zip terms.now domains.now) }
{
    terms
        .iter()
        .zip(domains)
        .any(|(term, domain)| is_foreign(known, term, *domain))
}

fn has_undeclared_word(known: &Known, mention: &Mention) -> bool
    ensures { result ≡ has_undeclared_word known.now.domains.now known.now.names.now
        (mention_of mention.now) }
{
    match known.declaration(&mention.atom.name) {
        Some(name) => {
            lacks_value(name, mention.value)
                || has_foreign(known, mention.atom.args.as_slice(), name.args.as_slice())
        }
        None => true,
    }
}

// What may be wrong with an atom.
#[derive(Clone, Copy)]
enum Wrong {
    // Its name is declared nowhere.
    Undeclared,
    Kind,
    Arity,
    // Its value, or an entity in it, is none of those that are declared.
    Words,
}

fn is_wrong(known: &Known, wrong: Wrong, mention: &Mention) -> bool
    ensures { result ≡ is_wrong wrong known.now.domains.now known.now.names.now
        (mention_of mention.now) }
{
    match wrong {
        Wrong::Undeclared => !known.is_declared(&mention.atom.name),
        Wrong::Kind => is_of_wrong_kind(known, mention),
        Wrong::Arity => has_wrong_arity(known, mention),
        Wrong::Words => has_undeclared_word(known, mention),
    }
}

// Whether this is wrong with one of some atoms.
fn any_wrong(known: &Known, wrong: Wrong, mentions: &[Mention]) -> bool
    ensures { result ≡ list_any (is_wrong wrong known.now.domains.now known.now.names.now)
        (mentions_of mentions.now) }
{
    mentions
        .iter()
        .any(|mention| is_wrong(known, wrong, mention))
}

// Tests what stands in the atoms of a statement whose names are declared and of their kinds.
fn test_words(known: &Known, statement: &Statement, parts: &Parts) -> Result<(), DeclRefused>
    requires { ArePartsOf known.now.names.now (plain_form statement.now.form) parts.now }
    ensures { Tests result (refused_at (word_fault known.now.domains.now known.now.names.now
        (plain_form statement.now.form)) statement.now.line None) }
{
    let line = statement.line;
    if any_wrong(known, Wrong::Arity, parts.atoms) {
        return Err(DeclRefused::Arity { line });
    }
    if any_wrong(known, Wrong::Words, parts.atoms) {
        return Err(DeclRefused::Undeclared { line });
    }
    if has_clash(parts.variables) {
        return Err(DeclRefused::Clash { line });
    }
    if has_loose_variable(&statement.form, parts.atoms, parts.others) {
        return Err(DeclRefused::Loose { line });
    }
    Ok(())
}

// Tests a statement, of which these are the parts.
fn test_parts(known: &Known, statement: &Statement, parts: &Parts) -> Result<(), DeclRefused>
    requires { ArePartsOf known.now.names.now (plain_form statement.now.form) parts.now }
    ensures { Tests result (refused_at (rule_fault known.now.domains.now known.now.names.now
        (plain_form statement.now.form)) statement.now.line None) }
{
    let line = statement.line;
    let form = &statement.form;
    if has_too_many(form, &parts.atoms[parts.others..]) {
        return Err(DeclRefused::TooMany { line });
    }
    if lacks_trigger(form) {
        return Err(DeclRefused::NoTrigger { line });
    }
    if any_wrong(known, Wrong::Undeclared, parts.atoms) {
        return Err(DeclRefused::Undeclared { line });
    }
    if any_wrong(known, Wrong::Kind, parts.atoms) {
        return Err(DeclRefused::WrongKind { line });
    }
    test_words(known, statement, parts)
}

// Tests a statement, with two lists in which its parts are gathered.
fn test_rule<'a>(
    known: &Known,
    statement: &'a Statement,
    atoms: &mut Vec<Mention<'a>>,
    variables: &mut Vec<Place<'a>>,
) -> Result<(), DeclRefused>
    ensures { Tests result (refused_at (rule_fault known.now.domains.now known.now.names.now
        (plain_form statement.now.form)) statement.now.line None) }
{
    let others = gather(&statement.form, atoms)?;
    gather_places(known, atoms, variables)?;
    let parts = Parts {
        atoms: atoms.as_slice(),
        others,
        variables: variables.as_slice(),
    };
    test_parts(known, statement, &parts)
}

// Tests the statements that define fluents and derived events, in the order of the text, over what
// is declared.
pub(crate) fn test_rules(
    alloc: Global,
    statements: &[Statement],
    domains: &[Domain],
    names: &[Name],
) -> Result<(), DeclRefused>
    requires distinct { is_distinct (domain_words domains.now ++ name_words names.now) ≡ true }
    ensures { Tests result (rule_refusal domains.now names.now (map plain statements.now)) }
{
    let known = Known::new(alloc, domains, names)?;
    let mut atoms = Vec::new(alloc);
    let mut variables = Vec::new(alloc);
    for statement in statements {
        test_rule(&known, statement, &mut atoms, &mut variables)?;
    }
    Ok(())
}
