// What a description declares.
ghost use Rattle.std.specs.Prelude.{◌≡◌, ◌<◌, ◌^◌, true, length, map, filter_map, IfOk, OnOk};
ghost use Rattle.ground_types.specs.Sound.{is_distinct};
ghost use Rattle.rule_forms.specs.Forms.{plain, plain_form, is_rule};
ghost use Rattle.ground_types.specs.Words.{place_in, domain_words};
ghost use Rattle.domain_decl.specs.Contents.{declared_name, domain_in, domains_of, name_in};
ghost use Rattle.domain_decl.specs.Contents.{names_of, rules_of};

use ground_types::{Domain, Name, NameKind};
use rt_base::{List, OutOfMemory, Word};
use rule_forms::{Decl, Form, Statement};
use std::alloc::Global;
use word_table::WordTable;

// A copy of a list of words.
fn copied(alloc: Global, words: &[Word]) -> Result<List<Word>, OutOfMemory>
    ensures { IfOk result (λ list. list ≡ words.now) }
{
    let mut list = Vec::new(alloc);
    for word in words {
        list.push(Word::new(alloc, word.as_str())?)?;
    }
    Ok(List::of(list))
}

// The domain that a statement declares.
fn domain_in(alloc: Global, form: &Form) -> Result<Option<Domain>, OutOfMemory>
    ensures { IfOk result (λ domain. domain ≡ domain_in (plain_form form.now)) }
{
    match form {
        Form::Domain(word, entities) => {
            let word = Word::new(alloc, word.as_str())?;
            let entities = copied(alloc, entities.as_slice())?;
            Ok(Some(Domain { word, entities }))
        }
        _ => Ok(None),
    }
}

// The domains, in declared order.
pub(crate) fn domains_of(
    alloc: Global,
    statements: &[Statement],
) -> Result<List<Domain>, OutOfMemory>
    ensures { IfOk result (λ domains. domains ≡ domains_of (map plain statements.now)) }
{
    let mut domains = Vec::new(alloc);
    for statement in statements {
        if let Some(domain) = domain_in(alloc, &statement.form)? {
            domains.push(domain)?;
        }
    }
    Ok(List::of(domains))
}

// The numbers of the domains of arguments.
fn places(alloc: Global, domains: &WordTable<'_>, args: &[Word]) -> Result<List<u32>, OutOfMemory>
    requires { length domains.now < 2 ^ 32 }
    ensures { IfOk result (λ places. places ≡ filter_map (place_in domains.now) args.now) }
{
    let mut places = Vec::new(alloc);
    for arg in args {
        if let Some(place) = domains.place(arg.as_str().as_bytes()) {
            places.push(place as u32)?;
        }
    }
    Ok(List::of(places))
}

// The name that a declaration gives.
fn declared(
    alloc: Global,
    domains: &WordTable<'_>,
    kind: NameKind,
    decl: &Decl,
    values: &[Word],
    line: u32,
) -> Result<Name, OutOfMemory>
    requires { length domains.now < 2 ^ 32 }
    ensures { IfOk result (λ name. name ≡ declared_name domains.now kind decl.now values.now line) }
{
    Ok(Name {
        word: Word::new(alloc, decl.name.as_str())?,
        kind,
        args: places(alloc, domains, decl.args.as_slice())?,
        values: copied(alloc, values)?,
        first: 0,
        line,
    })
}

// The name that a statement declares.
fn name_in(
    alloc: Global,
    domains: &WordTable<'_>,
    statement: &Statement,
) -> Result<Option<Name>, OutOfMemory>
    requires { length domains.now < 2 ^ 32 }
    ensures { IfOk result (λ name. name ≡ name_in domains.now (plain_form statement.now.form)
        statement.now.line) }
{
    let (kind, decl, values): (NameKind, &Decl, &[Word]) = match &statement.form {
        Form::Input(decl) => (NameKind::Input, decl, &[]),
        Form::Simple(decl, values) => (NameKind::Simple, decl, values.as_slice()),
        Form::Static(decl, values) => (NameKind::Static, decl, values.as_slice()),
        Form::Derived(decl) => (NameKind::Derived, decl, &[]),
        _ => return Ok(None),
    };
    let name = declared(alloc, domains, kind, decl, values, statement.line)?;
    Ok(Some(name))
}

// The names, in declared order, over these domains.
pub(crate) fn names_of(
    alloc: Global,
    statements: &[Statement],
    domains: &[Domain],
) -> Result<List<Name>, OutOfMemory>
    requires distinct { is_distinct (domain_words domains.now) ≡ true }
    requires few { length domains.now < 2 ^ 32 }
    ensures { IfOk result (λ names. names ≡ names_of (domain_words domains.now)
        (map plain statements.now)) }
{
    let words = WordTable::of(alloc, domains)?;
    let mut names = Vec::new(alloc);
    for statement in statements {
        if let Some(name) = name_in(alloc, &words, statement)? {
            names.push(name)?;
        }
    }
    Ok(List::of(names))
}

// Whether a statement defines a fluent or a derived event.
fn is_rule(form: &Form) -> bool
    ensures { result ≡ is_rule (plain_form form.now) }
{
    matches!(
        form,
        Form::Initially(_)
            | Form::Initiated(_, _)
            | Form::Terminated(_, _)
            | Form::Happens(_, _)
            | Form::HoldsFor(_, _)
    )
}

// Copies of the statements that define fluents and derived events.
pub(crate) fn rules_of(
    alloc: Global,
    statements: &[Statement],
) -> Result<List<Statement>, OutOfMemory>
    ensures { IfOk result (λ rules. map plain rules ≡ rules_of (map plain statements.now)) }
{
    let mut rules = Vec::new(alloc);
    for statement in statements {
        if is_rule(&statement.form) {
            rules.push(statement.copy(alloc)?)?;
        }
    }
    Ok(List::of(rules))
}
