// The rules on declarations.
ghost use Rattle.std.specs.Prelude.{◌≡◌, ◌++◌, ℕ, List, [], None, true, false, map, option_map};
ghost use Rattle.std.specs.Prelude.{IfOk, OnOk};
ghost use Rattle.std.specs.List.{cons_option};
ghost use Rattle.rule_forms.specs.Forms.{plain, plain_form};
ghost use Rattle.ground_types.specs.Words.{has, domain_words};
ghost use Rattle.decl_known.specs.Faults.{refused_at};
ghost use Rattle.domain_decl.specs.Contents.{domain_in, domains_of};
ghost use Rattle.domain_decl.specs.Declarations.{is_domain, declares, arguments_in, members_in};
ghost use Rattle.domain_decl.specs.Declarations.{declaration_refusal};
ghost use Rattle.domain_decl.specs.Passes.{too_many_behind, lacks_domain, twice_behind};
ghost use Rattle.domain_decl.specs.Passes.{fault_behind};
ghost use Rattle.domain_decl.specs.Testing.{Tests};

use decl_known::DeclRefused;
use rt_base::{OutOfMemory, Word};
use rule_forms::{Form, Statement};
use std::alloc::Global;
use word_table::{WordTable, are_distinct};

fn is_domain(form: &Form) -> bool
    ensures { result ≡ is_domain (plain_form form.now) }
{
    matches!(form, Form::Domain(_, _))
}

// The word of the domain that a statement declares.
fn domain_word(form: &Form) -> Option<&Word>
    ensures { option_map (λ word. word.now) result ≡ option_map (λ domain. domain.word)
        (domain_in (plain_form form.now)) }
{
    match form {
        Form::Domain(word, _) => Some(word),
        _ => None,
    }
}

// The word that a statement declares.
fn declares(form: &Form) -> Option<&Word>
    ensures { option_map (λ word. word.now) result ≡ declares (plain_form form.now) }
{
    match form {
        Form::Domain(name, _) => Some(name),
        Form::Input(decl) | Form::Simple(decl, _) | Form::Static(decl, _) | Form::Derived(decl) =>
            Some(&decl.name),
        _ => None,
    }
}

// The names of the domains of its arguments.
fn arguments(form: &Form) -> &[Word]
    ensures { result.now ≡ arguments_in (plain_form form.now) }
{
    match form {
        Form::Input(decl) | Form::Simple(decl, _) | Form::Static(decl, _) | Form::Derived(decl) =>
            decl.args.as_slice(),
        _ => &[],
    }
}

// Its entities, or its values.
fn members(form: &Form) -> &[Word]
    ensures { result.now ≡ members_in (plain_form form.now) }
{
    match form {
        Form::Domain(_, members) | Form::Simple(_, members) | Form::Static(_, members) => {
            members.as_slice()
        }
        _ => &[],
    }
}

// Whether a declaration behind so many domains is too many or has too many of something.
fn declares_too_many(domains: usize, form: &Form) -> bool
    ensures { result ≡ too_many_behind domains (plain_form form.now) }
{
    let most = if is_domain(form) { 4096 } else { 64 };
    if is_domain(form) && 64 <= domains {
        return true;
    }
    most < members(form).len() || 3 < arguments(form).len()
}

// Whether an argument is none of these domains.
fn lacks_domain(domains: &WordTable<'_>, form: &Form) -> bool
    ensures { result ≡ lacks_domain domains.now (plain_form form.now) }
{
    for argument in arguments(form) {
        if !domains.contains(argument.as_str().as_bytes()) {
            return true;
        }
    }
    false
}

// Whether a word that is declared stands twice; else its word is one of those declared.
fn declares_twice<'a>(
    alloc: Global,
    declared: &mut WordTable<'a>,
    form: &'a Form,
) -> Result<bool, OutOfMemory>
    ensures twice { IfOk result (λ answer. answer ≡ twice_behind declared.old
        (plain_form form.now)) }
    ensures declared { IfOk result (λ answer. answer ≡ false → declared.new ≡ declared.old
        ++ cons_option (declares (plain_form form.now)) []) }
{
    if let Some(word) = declares(form) {
        if !declared.insert(word.as_str())? {
            return Ok(true);
        }
    }
    Ok(!are_distinct(alloc, members(form))?)
}

// Tests a declaration behind so many domains and these words; its word is then one of those
// declared.
fn test_declaration<'a>(
    alloc: Global,
    domains: &WordTable<'_>,
    count: usize,
    declared: &mut WordTable<'a>,
    statement: &'a Statement,
) -> Result<(), DeclRefused>
    ensures tests { Tests result (refused_at (fault_behind domains.now count declared.old
        (plain_form statement.now.form)) statement.now.line None) }
    ensures declared { OnOk result (declared.new ≡ declared.old ++ cons_option
        (declares (plain_form statement.now.form)) []) }
{
    let line = statement.line;
    if declares_too_many(count, &statement.form) {
        return Err(DeclRefused::TooMany { line });
    }
    if lacks_domain(domains, &statement.form) {
        return Err(DeclRefused::Undeclared { line });
    }
    if declares_twice(alloc, declared, &statement.form)? {
        return Err(DeclRefused::Twice { line });
    }
    Ok(())
}

// The words of all domains.
fn domain_set(alloc: Global, statements: &[Statement]) -> Result<WordTable<'_>, OutOfMemory>
    ensures { IfOk result (λ set. (word : List ℕ)
        → has set word ≡ has (domain_words (domains_of (map plain statements.now))) word) }
{
    let mut set = WordTable::new(alloc);
    for statement in statements {
        if let Some(word) = domain_word(&statement.form) {
            set.insert(word.as_str())?;
        }
    }
    Ok(set)
}

// Tests the declarations, in the order of the text.
pub(crate) fn test_declarations(alloc: Global, statements: &[Statement]) -> Result<(), DeclRefused>
    ensures { Tests result (declaration_refusal (map plain statements.now)) }
{
    let domains = domain_set(alloc, statements)?;
    let mut declared = WordTable::new(alloc);
    let mut count = 0;
    for statement in statements {
        test_declaration(alloc, &domains, count, &mut declared, statement)?;
        if is_domain(&statement.form) {
            count += 1;
        }
    }
    Ok(())
}
