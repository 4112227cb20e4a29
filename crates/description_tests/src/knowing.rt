// What descriptions declare, in which layers their names are, and what is then known of words and
// variables.
ghost use Rattle.std.specs.Prelude.{◌≡◌, ◌++◌, true};
ghost use Rattle.ground_types.specs.Sound.{is_distinct};
ghost use Rattle.ground_types.specs.Words.{domain_words, name_words};

use crate::answers::{checked, joined, told};
use crate::samples::{CYCLE, GEAR, HEATER, LAMP, LAMP_RULES, MEETING, PORT};
use decl_known::{Checked, Known, places};
use rt_base::Word;
use rule_forms::Form;
use std::alloc::{AllocError, Global};
use std::test::Fail;

// `far` depends on a name that depends on itself, and not on itself.
const ITSELF: &str = "window(10). step(5). input up.
simple far [true].
simple a [true].
initiatedAt(far=true) :- happensAt(start(a=true)).
initiatedAt(a=true) :- happensAt(up), not holdsAt(a=true).";

const BY_START_AND_END: &str = "window(10). step(5).
simple a [true].
simple b [true].
initiatedAt(a=true) :- happensAt(start(b=true)).
terminatedAt(b=true) :- happensAt(end(a=true)).";

const BY_EXPRESSION: &str = "window(10). step(5). input up.
static s [true].
simple a [true].
holdsFor(s=true) :- union_all([intersect_all([a=true])]).
initiatedAt(a=true) :- happensAt(up), holdsAt(s=true).";

const BY_DERIVED_EVENT: &str = "window(10). step(5). input up.
simple a [true].
derived e.
happensAt(e) :- happensAt(up), holdsAt(a=true).
initiatedAt(a=true) :- happensAt(e).";

// `far` depends on `u` and `v`, which depend on each other, and by way of `between` on `y` and `z`,
// which do so too.
const TWO_CYCLES: &str = "window(10). step(5).
simple far [true]. simple between [true].
simple y [true].
simple u [true]. simple v [true]. simple z [true].
initiatedAt(far=true) :- happensAt(start(u=true)).
initiatedAt(u=true) :- happensAt(start(between=true)), holdsAt(v=true).
initiatedAt(v=true) :- happensAt(start(u=true)).
initiatedAt(between=true) :- happensAt(start(y=true)).
initiatedAt(y=true) :- happensAt(start(z=true)).
initiatedAt(z=true) :- happensAt(start(y=true)).";

// The numbers of the plan; how many domains, names and rules there are; and the layer of each name,
// or the first that depends on itself, with the line of its declaration.
#[test]
fn descriptions_say_what_they_declare(rt: HostRuntime) -> Result<(), Fail> {
    let cases = [
        (LAMP, LAMP_RULES, "10 5 0 1024: 0 3 2: layers [0, 0, 1]"),
        (LAMP, "queries(7).", "10 5 0 7: 0 3 0: layers [0, 0, 1]"),
        (GEAR, "", "10 5 0 1024: 0 3 2: layers [0, 0, 1]"),
        (HEATER, "", "10 5 0 1024: 0 6 4: layers [0, 0, 0, 2, 1, 3]"),
        (MEETING, "from(9).", "10 5 9 1024: 1 2 1: layers [0, 1]"),
        (CYCLE, "", "10 5 0 1024: 0 3 2: Cyclic { name: 1, line: 4 }"),
        (
            ITSELF,
            "",
            "10 5 0 1024: 0 3 2: Cyclic { name: 2, line: 3 }",
        ),
        (
            BY_START_AND_END,
            "",
            "10 5 0 1024: 0 2 2: Cyclic { name: 0, line: 2 }",
        ),
        (
            BY_EXPRESSION,
            "",
            "10 5 0 1024: 0 3 2: Cyclic { name: 1, line: 2 }",
        ),
        (
            BY_DERIVED_EVENT,
            "",
            "10 5 0 1024: 0 3 2: Cyclic { name: 1, line: 2 }",
        ),
        (
            TWO_CYCLES,
            "",
            "10 5 0 1024: 0 6 6: Cyclic { name: 2, line: 3 }",
        ),
    ];
    for (start, end, wanted) in cases {
        let text = joined(rt.alloc(), start, end)?;
        let found = told(rt.alloc(), text.as_str())?;
        assert_eq!(rt; found.as_str(), wanted);
    }
    Ok(())
}

// Adds a name that depends on another to the names and the rules.
fn put_link(
    alloc: Global,
    names: &mut String,
    rules: &mut String,
    link: (u32, u32),
) -> Result<(), AllocError> {
    let (name, other) = link;
    let name_line = format!(in alloc; "simple n{name} [true].\n")?;
    let rule_line = format!(in alloc;
        "initiatedAt(n{name}=true) :- happensAt(start(n{other}=true)).\n"
    )?;
    names.push_str(name_line.as_str())?;
    rules.push_str(rule_line.as_str())
}

// So many names, one a line from line 2 on, of which each depends on the next, and the last on
// itself.
fn chain(alloc: Global, count: u32) -> Result<String, Fail> {
    let mut names = String::from_str(alloc, "window(10). step(5).\n")?;
    let mut rules = String::new(alloc);
    for number in 1..=count {
        let link = (number, count.min(number.saturating_add(1)));
        put_link(alloc, &mut names, &mut rules, link)?;
    }
    names.push_str(rules.as_str())?;
    Ok(names)
}

#[test]
fn the_end_of_a_long_chain_is_refused(rt: HostRuntime) -> Result<(), Fail> {
    let text = chain(rt.alloc(), 300)?;
    let found = told(rt.alloc(), text.as_str())?;
    assert_eq!(rt;
        found.as_str(),
        "10 5 0 1024: 0 300 300: Cyclic { name: 299, line: 301 }"
    );
    Ok(())
}

// Of a word: the line and the domains of its declaration as a name, whether it is declared at all,
// and whether it is an entity of the first, the second and the third domain, with its number.
fn known_of(alloc: Global, checked: &Checked, word: &str) -> Result<String, Fail>
    requires { is_distinct (domain_words checked.now.domains ++ name_words checked.now.names)
        ≡ true }
{
    let known = Known::new(alloc, checked.domains.as_slice(), checked.names.as_slice())?;
    let word = Word::new(alloc, word)?;
    let line = known.declaration(&word).map(|name| name.line);
    let args = known.declaration(&word).map(|name| name.args.as_slice());
    let declared = known.is_declared(&word);
    let first = (known.is_entity(0, &word), known.entity(0, &word));
    let second = (known.is_entity(1, &word), known.entity(1, &word));
    let third = (known.is_entity(2, &word), known.entity(2, &word));
    Ok(format!(in alloc; "{line:?} {args:?} {declared} {first:?} {second:?} {third:?}")?)
}

// The same of a word of a description.
fn known_in(alloc: Global, text: &str, word: &str) -> Result<String, Fail> {
    match checked(alloc, text) {
        Some(Ok(found)) => known_of(alloc, &found, word),
        _ => Ok("not accepted".to_string(alloc)?),
    }
}

#[test]
fn what_is_declared_is_known(rt: HostRuntime) -> Result<(), Fail> {
    let cases = [
        (
            MEETING,
            "near",
            "Some(4) Some([0, 0]) true (false, None) (false, None) (false, None)",
        ),
        (
            MEETING,
            "met",
            "Some(5) Some([0, 0]) true (false, None) (false, None) (false, None)",
        ),
        (
            MEETING,
            "v",
            "None None true (false, None) (false, None) (false, None)",
        ),
        (
            MEETING,
            "x",
            "None None false (true, Some(0)) (false, None) (false, None)",
        ),
        (
            PORT,
            "s1",
            "None None false (true, Some(0)) (false, None) (false, None)",
        ),
        (
            PORT,
            "s2",
            "None None false (true, Some(1)) (false, None) (false, None)",
        ),
        (
            PORT,
            "q1",
            "None None false (false, None) (true, Some(0)) (false, None)",
        ),
    ];
    for (text, word, wanted) in cases {
        let found = known_in(rt.alloc(), text, word)?;
        assert_eq!(rt; found.as_str(), wanted, "{word}");
    }
    Ok(())
}

// Adds the variables of a statement at all places, each with its domain.
fn put_places(alloc: Global, out: &mut String, known: &Known, form: &Form) -> Result<(), Fail> {
    for place in &places(alloc, known, form)? {
        let (variable, domain) = (place.variable.as_str(), place.domain);
        let text = format!(in alloc; "{variable} {domain}, ")?;
        out.push_str(text.as_str())?;
    }
    Ok(())
}

// The variables of the rules of a description.
fn placed(alloc: Global, checked: &Checked) -> Result<String, Fail>
    requires { is_distinct (domain_words checked.now.domains ++ name_words checked.now.names)
        ≡ true }
{
    let known = Known::new(alloc, checked.domains.as_slice(), checked.names.as_slice())?;
    let mut out = String::new(alloc);
    for statement in checked.rules.as_slice() {
        put_places(alloc, &mut out, &known, &statement.form)?;
    }
    Ok(out)
}

// The domain ship has the number 0, and quay has 1.
const SEEN: &str = "happensAt(seen(S)) :- happensAt(lands(S, Q)), holdsAt(busy(q1)=true), \
    not holdsAt(busy(Q)=true).";

#[test]
fn variables_stand_at_places_of_domains(rt: HostRuntime) -> Result<(), Fail> {
    let text = joined(rt.alloc(), PORT, SEEN)?;
    if let Some(Ok(found)) = checked(rt.alloc(), text.as_str()) {
        let places = placed(rt.alloc(), &found)?;
        assert_eq!(rt; places.as_str(), "S 0, S 0, Q 1, Q 1, ");
        return Ok(());
    }
    assert!(rt; false);
    Ok(())
}
