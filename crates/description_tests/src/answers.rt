// What is answered to a text, as a text.
ghost use Rattle.std.specs.Prelude.{◌≡◌, ◌++◌, true, IfSome, IfOk};
ghost use Rattle.ground_types.specs.Sound.{is_distinct};
ghost use Rattle.ground_types.specs.Words.{domain_words, name_words};
ghost use Rattle.decl_known.specs.Sound.{IsSound};

use decl_known::{Checked, DeclRefused};
use domain_decl::check;
use rule_read::read;
use std::alloc::{AllocError, Global};
use strata_check::layers;

// A text of two parts. In the second a bar stands for the end of a line.
pub(crate) fn joined(alloc: Global, start: &str, end: &str) -> Result<String, AllocError> {
    let mut text = String::from_str(alloc, start)?;
    for line in end.split('|') {
        text.push_str(line)?;
        text.push_str("\n")?;
    }
    Ok(text)
}

// What a text declares, or why it is not accepted; None where it is not read.
pub(crate) fn checked(alloc: Global, text: &str) -> Option<Result<Checked, DeclRefused>>
    ensures sound { IfSome result (λ answer. IfOk answer IsSound) }
    ensures distinct { IfSome result (λ answer. IfOk answer (λ found. is_distinct
        (domain_words found.domains ++ name_words found.names) ≡ true)) }
{
    match read(alloc, text.as_bytes()) {
        Ok(syntax) => Some(check(alloc, &syntax)),
        Err(_) => None,
    }
}

// The first rule that a text breaks, or that it is accepted.
pub(crate) fn refusal(alloc: Global, text: &str) -> Result<String, AllocError> {
    match checked(alloc, text) {
        Some(Ok(_)) => "accepted".to_string(alloc),
        Some(Err(refused)) => format!(in alloc; "{refused:?}"),
        None => "not read".to_string(alloc),
    }
}

// The layers of what is declared, or why there are none.
fn layering(alloc: Global, checked: &Checked) -> Result<String, AllocError>
    requires { IsSound checked.now }
{
    match layers(alloc, checked) {
        Ok(list) => {
            let of_name = list.of_name.as_slice();
            format!(in alloc; "layers {of_name:?}")
        }
        Err(refused) => format!(in alloc; "{refused:?}"),
    }
}

// The numbers of the plan, how many domains, names and rules there are, and the layers.
fn said(alloc: Global, checked: &Checked) -> Result<String, AllocError>
    requires { IsSound checked.now }
{
    let plan = checked.plan;
    let (window, step, from, queries) = (plan.window, plan.step, plan.from, plan.queries);
    let domains = checked.domains.as_slice().len();
    let names = checked.names.as_slice().len();
    let rules = checked.rules.as_slice().len();
    let layering = layering(alloc, checked)?;
    format!(in alloc; "{window} {step} {from} {queries}: {domains} {names} {rules}: {layering}")
}

// What a text declares and its layers, or why it is not accepted.
pub(crate) fn told(alloc: Global, text: &str) -> Result<String, AllocError> {
    match checked(alloc, text) {
        Some(Ok(found)) => said(alloc, &found),
        Some(Err(refused)) => format!(in alloc; "{refused:?}"),
        None => "not read".to_string(alloc),
    }
}
