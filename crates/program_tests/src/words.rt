// What words name in a program, and units and events in words.
ghost use Rattle.std.specs.Prelude.{◌<◌, Ok};
ghost use Rattle.ground_types.specs.Sound.{IsSound};
ghost use Rattle.decl_known.specs.Sound.{IsSound as IsSoundChecked};
ghost use Rattle.decl_known.specs.Checked.{plain_checked};
ghost use Rattle.ground_rules.specs.Answers.{Answers};
ghost use Rattle.ground_rules.specs.Listed.{unit_bound};

use crate::descriptions::program_of;
use crate::programs::PORT;
use crate::shown::put_numbers;
use domain_decl::{Checked, Known, check};
use ground_names::{EventNames, Finder, value_of};
use ground_rules::{Instances, ground};
use ground_types::{Name, Program};
use rt_base::OutOfMemory;
use rule_read::{put_form, read};
use std::alloc::Global;
use std::test::Fail;
use strata_check::{LayerList, layers};

// The event and the unit that the words name, of which the first is the name.
fn found(program: &Program, words: &str) -> (Option<u32>, Option<u32>)
    requires { IsSound program.now }
{
    let mut words = words.split(' ');
    let name = words.next().unwrap_or("");
    let mut finder = Finder::name(program, name.as_bytes());
    for word in words {
        finder.push(program, word.as_bytes());
    }
    (finder.event(program), finder.unit(program))
}

#[test]
fn words_name_events_fluents_and_values(rt: HostRuntime) -> Result<(), Fail> {
    let program = program_of(rt.alloc(), PORT)?;
    let rows = [
        ("enters y z", Some(4), None),
        ("bell", Some(6), None),
        ("near y x x", None, Some(15)),
        ("light", None, Some(6)),
        ("meets x y", None, None),
        ("enters z y", None, None),
        ("enters y", None, None),
        ("bell y", None, None),
        ("none", None, None),
    ];
    for (words, event, unit) in rows {
        assert_eq!(rt; found(&program, words), (event, unit), "{words}");
    }
    assert_eq!(rt; value_of(&program, 4, b"yes"), Some(1));
    assert_eq!(rt; value_of(&program, 6, b"blue"), None);
    Ok(())
}

// ---- statements without variables, and events

const NEAR: &str = "window(10). step(5).
domain v [x, y].
input near(v, v).
simple met(v, v) [true].
initiatedAt(met(X, Y)=true) :- happensAt(near(X, Y)), X \\= Y.";

// The statements without variables that define a unit.
fn lines_of(alloc: Global, listed: &Instances, unit: u32) -> Result<String, Fail>
    requires { unit < unit_bound listed.now }
{
    let mut lines = Vec::new(alloc);
    for place in 0..listed.count(unit) {
        let form = listed.form_at(alloc, unit, place)?;
        put_form(alloc, &mut lines, &form)?;
    }
    Ok(String::from_utf8(lines)?)
}

// How many rules a description has, and the statements without variables that define a unit; None
// where there is no unit of this number.
fn lines_over(
    alloc: Global,
    checked: &Checked,
    list: &LayerList,
    program: &Program,
    unit: u32,
) -> Result<Option<(u64, String)>, Fail>
    requires sound { IsSoundChecked checked.now }
    requires grounded { Answers (Ok program.now) (plain_checked checked.now) list.now.of_name }
{
    if unit as usize >= program.units.as_slice().len() {
        return Ok(None);
    }
    let names = program.names.as_slice();
    let known = Known::new(alloc, checked.domains.as_slice(), names)?;
    let listed = Instances::new(alloc, &known, checked)?;
    let lines = lines_of(alloc, &listed, unit)?;
    Ok(Some((listed.rule_count(), lines)))
}

// The word of a name, and the numbers of entities behind it.
fn name_text(alloc: Global, name: &Name, args: &[u32]) -> Result<String, OutOfMemory> {
    let mut out = String::from_str(alloc, name.word.as_str())?;
    put_numbers(&mut out, args)?;
    Ok(out)
}

// The name of an event and the numbers of its arguments' entities.
fn event_over(
    alloc: Global,
    checked: &Checked,
    list: &LayerList,
    program: &Program,
    event: u32,
) -> Result<String, OutOfMemory>
    requires sound { IsSoundChecked checked.now }
    requires grounded { Answers (Ok program.now) (plain_checked checked.now) list.now.of_name }
    requires program { IsSound program.now }
{
    let names = EventNames::new(alloc, program)?;
    let mut args = Vec::new(alloc);
    match names.event_at(event, &mut args)? {
        Some(name) => name_text(alloc, name, args.as_slice()),
        None => Ok(String::from_str(alloc, "none")?),
    }
}

// What is told of a unit and of two events.
fn told_over(
    alloc: Global,
    checked: &Checked,
    list: &LayerList,
    program: &Program,
) -> Result<String, Fail>
    requires sound { IsSoundChecked checked.now }
    requires grounded { Answers (Ok program.now) (plain_checked checked.now) list.now.of_name }
    requires program { IsSound program.now }
{
    let lines = lines_over(alloc, checked, list, program, 1)?;
    let second = event_over(alloc, checked, list, program, 2)?;
    let fourth = event_over(alloc, checked, list, program, 4)?;
    Ok(format!(in alloc; "{lines:?} {second} {fourth}")?)
}

// What is told of a description.
fn told(alloc: Global, text: &str) -> Result<String, Fail> {
    let syntax = read(alloc, text.as_bytes())?;
    let checked = check(alloc, &syntax)?;
    let list = layers(alloc, &checked)?;
    let program = ground(alloc, &checked, &list)?;
    told_over(alloc, &checked, &list, &program)
}

#[test]
fn units_and_events_are_told_in_words(rt: HostRuntime) -> Result<(), Fail> {
    let told = told(rt.alloc(), NEAR)?;
    let line = "initiatedAt(met(x, y)=true) :- happensAt(near(x, y)).";
    let wanted = format!(in rt.alloc(); "Some((2, \"{line}\\n\")) near 1 0 none")?;
    assert_eq!(rt; told.as_str(), wanted.as_str());
    Ok(())
}
