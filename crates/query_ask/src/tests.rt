// What no clause says: that a publication is made of its parts and read, each call once.
ghost use Rattle.std.specs.Prelude.{◌≡◌, IfOk};
ghost use Rattle.std.specs.Arc.{arc_value};
ghost use Rattle.query_ask.specs.Examples.{lamp, lamp_on};

use crate::Publication;
use ground_types::{Name, NameKind, Occ, Opening, Plan, Program, Unit, UnitId, UnitKind};
use rt_base::{List, Word};
use span_algebra::{Span, Spans, UnitRows};
use std::alloc::Global;
use std::sync::Arc;
use std::test::Fail;

// The name of a lamp.
fn names(alloc: Global) -> Result<List<Name>, Fail>
    ensures { IfOk result (λ names. names ≡ lamp.names) }
{
    let name = Name {
        word: Word::new(alloc, "on")?,
        kind: NameKind::Simple,
        args: List::of(Vec::new(alloc)),
        values: List::of(vec![in alloc; Word::new(alloc, "true")?]?),
        first: 0,
        line: 6,
    };
    Ok(List::of(vec![in alloc; name]?))
}

// The layers of a program of one unit.
fn layers(alloc: Global) -> Result<List<List<UnitId>>, Fail>
    ensures { IfOk result (λ layers. layers ≡ lamp.layers) }
{
    let layer = List::of(vec![in alloc; 0]?);
    Ok(List::of(vec![in alloc; layer]?))
}

// A lamp that no rule changes, over windows of one point.
fn program(alloc: Global) -> Result<Arc<Program>, Fail>
    ensures { IfOk result (λ program. arc_value program ≡ lamp) }
{
    let unit = Unit {
        name: 0,
        args: List::of(Vec::new(alloc)),
        kind: UnitKind::Simple {
            initially: None,
            initiate: List::of(Vec::new(alloc)),
            terminate: List::of(Vec::new(alloc)),
        },
    };
    let program = Program {
        plan: Plan {
            window: 1,
            step: 1,
            from: 3,
            queries: 2,
        },
        domains: List::of(Vec::new(alloc)),
        names: names(alloc)?,
        units: List::of(vec![in alloc; unit]?),
        layers: layers(alloc)?,
        events: 1,
    };
    Ok(Arc::new(alloc, program)?)
}

// The rows of a lamp that is on all the time.
fn rows(alloc: Global) -> Result<Vec<UnitRows>, Fail>
    ensures { IfOk result (λ rows. rows.items ≡ lamp_on.rows) }
{
    let span = Span { after: 4, until: 6 };
    let on = Spans::from_list(alloc, &[span])?;
    let rows = List::of(vec![in alloc; on]?);
    Ok(vec![in alloc; UnitRows::Fluent(rows)]?)
}

// The publication of query 1, which opens with the lamp on.
fn publication(alloc: Global) -> Result<Publication, Fail>
    ensures { IfOk result (λ publication. publication ≡ lamp_on) }
{
    let program = program(alloc)?;
    let opening = Opening {
        values: List::of(vec![in alloc; Some(0)]?),
    };
    let events = vec![in alloc; Occ { event: 0, at: 5 }]?;
    let rows = rows(alloc)?;
    Ok(Publication::new(1, 2, program, opening, events, rows, 7))
}

// The first row of a fluent; none of an event.
fn first_row(rows: &UnitRows) -> &[Span] {
    match rows {
        UnitRows::Fluent(rows) => rows.as_slice().first().map_or(&[], |row| row.as_slice()),
        UnitRows::Event(_) => &[],
    }
}

// What a publication is read as.
fn told(alloc: Global, publication: &Publication) -> Result<String, Fail>
    requires { publication.now ≡ lamp_on }
{
    let text = format!(in alloc;
        "{} {} {} {:?} {:?} {:?} {}",
        publication.number(),
        publication.front(),
        publication.program().plan.from,
        publication.opening().values.as_slice(),
        publication.events(),
        first_row(publication.rows(0)),
        publication.evaluations(),
    )?;
    Ok(text)
}

#[test]
fn a_publication_is_read_as_it_was_made(rt: HostRuntime) -> Result<(), Fail> {
    let alloc = rt.alloc();
    let publication = publication(alloc)?;
    let text = told(alloc, &publication)?;
    let wanted = "1 2 3 [Some(0)] [Occ { event: 0, at: 5 }] [Span { after: 4, until: 6 }] 7";
    assert_eq!(rt; text.as_str(), wanted);
    Ok(())
}
