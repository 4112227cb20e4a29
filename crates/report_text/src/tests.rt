// What no clause says: that each part is printed with ample memory, and what it looks like.
ghost use Rattle.std.specs.Prelude.{◌≡◌, take, IfOk};
ghost use Rattle.report_text.specs.Examples.{plain_name, light_name, port, port_lit};

use crate::{EntryLine, put_block, put_end, put_entry};
use ground_names::EventNames;
use ground_types::{
    Act, Domain, Entry, Name, NameKind, Occ, Opening, Plan, Program, Reply, Rule, Trigger, Unit,
    UnitKind,
};
use query_ask::Publication;
use rt_base::{List, Word};
use span_algebra::{Points, Span, Spans, UnitRows};
use std::alloc::Global;
use std::sync::Arc;
use std::test::Fail;

// ---- a program

fn domains(alloc: Global) -> Result<List<Domain>, Fail>
    ensures { IfOk result (λ domains. domains ≡ port.domains) }
{
    let entities = vec![in alloc; Word::new(alloc, "x")?, Word::new(alloc, "y")?]?;
    let domain = Domain {
        word: Word::new(alloc, "v")?,
        entities: List::of(entities),
    };
    Ok(List::of(vec![in alloc; domain]?))
}

// A name of no values.
fn plain_name(
    alloc: Global,
    word: &str,
    kind: NameKind,
    args: &[u32],
    first: u32,
) -> Result<Name, Fail>
    ensures { IfOk result (λ name. name ≡ plain_name word.now kind args.now first) }
{
    Ok(Name {
        word: Word::new(alloc, word)?,
        kind,
        args: List::of(args.to_vec(alloc)?),
        values: List::of(Vec::new(alloc)),
        first,
        line: 1,
    })
}

// The name of the light.
fn light_name(alloc: Global) -> Result<Name, Fail>
    ensures { IfOk result (λ name. name ≡ light_name) }
{
    Ok(Name {
        word: Word::new(alloc, "light")?,
        kind: NameKind::Simple,
        args: List::of(Vec::new(alloc)),
        values: List::of(vec![in alloc; Word::new(alloc, "true")?]?),
        first: 0,
        line: 1,
    })
}

// The names of the input events.
fn input_names(alloc: Global) -> Result<Vec<Name>, Fail>
    ensures { IfOk result (λ names. names.items ≡ take 3 port.names) }
{
    let up = plain_name(alloc, "up", NameKind::Input, &[0], 0)?;
    let near = plain_name(alloc, "near", NameKind::Input, &[0, 0], 2)?;
    let bell = plain_name(alloc, "bell", NameKind::Input, &[], 6)?;
    Ok(vec![in alloc; up, near, bell]?)
}

fn names(alloc: Global) -> Result<List<Name>, Fail>
    ensures { IfOk result (λ names. names ≡ port.names) }
{
    let mut names = input_names(alloc)?;
    names.push(light_name(alloc)?)?;
    names.push(plain_name(alloc, "chime", NameKind::Derived, &[], 1)?)?;
    Ok(List::of(names))
}

fn units(alloc: Global) -> Result<List<Unit>, Fail>
    ensures { IfOk result (λ units. units ≡ port.units) }
{
    let light = Unit {
        name: 3,
        args: List::of(Vec::new(alloc)),
        kind: UnitKind::Simple {
            initially: None,
            initiate: List::of(Vec::new(alloc)),
            terminate: List::of(Vec::new(alloc)),
        },
    };
    let rule = Rule {
        value: 0,
        trigger: Trigger::Event(6),
        conds: List::of(Vec::new(alloc)),
    };
    let chime = Unit {
        name: 4,
        args: List::of(Vec::new(alloc)),
        kind: UnitKind::Derived(List::of(vec![in alloc; rule]?)),
    };
    Ok(List::of(vec![in alloc; light, chime]?))
}

// The program of a light and a chime.
fn port(alloc: Global) -> Result<Program, Fail>
    ensures { IfOk result (λ program. program ≡ port) }
{
    let layer = List::of(vec![in alloc; 0, 1]?);
    Ok(Program {
        plan: Plan {
            window: 3,
            step: 2,
            from: 0,
            queries: 2,
        },
        domains: domains(alloc)?,
        names: names(alloc)?,
        units: units(alloc)?,
        layers: List::of(vec![in alloc; layer]?),
        events: 7,
    })
}

// ---- a publication

fn rows(alloc: Global) -> Result<Vec<UnitRows>, Fail>
    ensures { IfOk result (λ rows. rows.items ≡ port_lit.rows) }
{
    let lit = Spans::from_list(alloc, &[Span { after: 2, until: 6 }])?;
    let light = UnitRows::Fluent(List::of(vec![in alloc; lit]?));
    let chime = UnitRows::Event(Points::from_list(alloc, &[4])?);
    Ok(vec![in alloc; light, chime]?)
}

// The publication of query 1, which opens with the light.
fn port_lit(alloc: Global) -> Result<Publication, Fail>
    ensures { IfOk result (λ publication. publication ≡ port_lit) }
{
    let program = Arc::new(alloc, port(alloc)?)?;
    let values = List::of(vec![in alloc; Some(0), None]?);
    let opening = Opening { values };
    let events = vec![in alloc; Occ { event: 6, at: 4 }]?;
    let rows = rows(alloc)?;
    Ok(Publication::new(1, 2, program, opening, events, rows, 7))
}

// ---- what is printed

// An add of an event at 3 that was admitted.
fn add(event: u32) -> Entry {
    Entry::Fed {
        feeder: 1,
        act: Act::Add,
        event,
        at: 3,
        reply: Reply::Admitted,
    }
}

// The line of an entry, behind a text.
fn entry_text(alloc: Global, program: &Program, entry: Entry) -> Result<String, Fail>
    requires { program.now ≡ port }
{
    let names = EventNames::new(alloc, program)?;
    let mut line = EntryLine::new(alloc);
    let mut out = b"- ".to_vec(alloc)?;
    put_entry(&names, &mut line, entry, &mut out)?;
    Ok(String::from_utf8(out)?)
}

#[test]
fn entries_are_printed_by_the_names_of_their_events(rt: HostRuntime) -> Result<(), Fail> {
    let program = port(rt.alloc())?;
    let rows = [
        (add(0), "- 1 add up(x) 3 admitted\n"),
        (add(1), "- 1 add up(y) 3 admitted\n"),
        (add(2), "- 1 add near(x,x) 3 admitted\n"),
        (add(4), "- 1 add near(y,x) 3 admitted\n"),
        (add(5), "- 1 add near(y,y) 3 admitted\n"),
        (add(6), "- 1 add bell 3 admitted\n"),
        (add(7), "- 1 add  3 admitted\n"),
        (Entry::Seal { number: 0 }, "- "),
    ];
    for (entry, wanted) in rows {
        let text = entry_text(rt.alloc(), &program, entry)?;
        assert_eq!(rt; text.as_str(), wanted);
    }
    Ok(())
}

// The block of a publication, and the last lines over it twice.
fn publication_text(alloc: Global, publication: Publication) -> Result<String, Fail>
    requires { publication ≡ port_lit }
{
    let history = [Entry::Seal { number: 0 }, add(6), Entry::Seal { number: 1 }];
    let mut out = Vec::new(alloc);
    put_block(&publication, &mut out)?;
    let lent = Arc::new(alloc, publication)?;
    put_end(2, &history, &[lent.clone()?, lent], &mut out)?;
    Ok(String::from_utf8(out)?)
}

#[test]
fn a_publication_is_printed_and_counted(rt: HostRuntime) -> Result<(), Fail> {
    let publication = port_lit(rt.alloc())?;
    let text = publication_text(rt.alloc(), publication)?;
    let wanted = "query 1 window (2,5] evaluations 7
  light=true (2,open)
  chime 4
ignored 2
entries 1 admitted 1 delayed 0 already 0 revoked 0 delayed-revoked 0 unknown 0 forgotten 0
queries 2 spans 2 points 2 evaluations 14
";
    assert_eq!(rt; text.as_str(), wanted);
    Ok(())
}
