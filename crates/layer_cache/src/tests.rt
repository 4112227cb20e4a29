// What no clause says: that a cache is made and copied with ample memory, what a unit has as it was
// put, and the values with which windows open.
ghost use Rattle.std.specs.Prelude.{◌≡◌, ◌∷◌, [], Some, None, length, IfOk, OnOk};
ghost use Rattle.layer_cache.specs.Cached.{unit_shapes};
ghost use Rattle.layer_cache.specs.Shapes.{shape, shapes};

use crate::{Cache, value_row};
use ground_types::{Name, NameKind, Plan, Point, Program, Unit, UnitKind};
use rt_base::{List, Word};
use span_algebra::{Points, Span, Spans, UnitRows};
use std::alloc::Global;
use std::test::Fail;

// A name of some values; a derived event has none.
fn name(alloc: Global, word: &str, kind: NameKind, values: &[&str]) -> Result<Name, Fail>
    ensures { IfOk result (λ name. length name.values ≡ length values.now) }
{
    let mut words = Vec::new(alloc);
    for value in values {
        words.push(Word::new(alloc, value)?)?;
    }
    Ok(Name {
        word: Word::new(alloc, word)?,
        kind,
        args: List::of(Vec::new(alloc)),
        values: List::of(words),
        first: 0,
        line: 1,
    })
}

// A unit without rules.
fn unit(alloc: Global, name: u32, kind: UnitKind) -> Unit
    ensures named { result.name ≡ name }
    ensures kind { result.kind ≡ kind }
{
    Unit {
        name,
        args: List::of(Vec::new(alloc)),
        kind,
    }
}

// The gear, a fluent of the values low and high, and the alarm, a derived event.
fn program(alloc: Global) -> Result<Program, Fail>
    ensures { IfOk result (λ program. unit_shapes program ≡ Some 2 ∷ None ∷ []) }
{
    let gear = name(alloc, "gear", NameKind::Simple, &["low", "high"])?;
    let alarm = name(alloc, "alarm", NameKind::Derived, &[])?;
    let simple = UnitKind::Simple {
        initially: None,
        initiate: List::of(Vec::new(alloc)),
        terminate: List::of(Vec::new(alloc)),
    };
    let derived = UnitKind::Derived(List::of(Vec::new(alloc)));
    Ok(Program {
        plan: Plan {
            window: 10,
            step: 5,
            from: 0,
            queries: 1,
        },
        domains: List::of(Vec::new(alloc)),
        names: List::of(vec![in alloc; gear, alarm]?),
        units: List::of(vec![in alloc; unit(alloc, 0, simple), unit(alloc, 1, derived)]?),
        layers: List::of(Vec::new(alloc)),
        events: 0,
    })
}

// One call of a cache.
#[derive(Clone, Copy)]
enum Call {
    // Puts a span for each value of the gear.
    Gear(Span, Span),
    // Puts a point of the derived event.
    Alarm(Point),
    // Empties the rows of the gear.
    Empty,
    Turn,
}

// Rows of one span each.
fn rows(alloc: Global, low: Span, high: Span) -> Result<UnitRows, Fail>
    ensures { IfOk result (λ rows. shape rows ≡ Some 2) }
{
    let low = Spans::from_list(alloc, &[low])?;
    let high = Spans::from_list(alloc, &[high])?;
    Ok(UnitRows::Fluent(List::of(vec![in alloc; low, high]?)))
}

// Makes a call.
fn make(alloc: Global, cache: &mut Cache, call: Call) -> Result<(), Fail>
    requires rows { shapes cache.old.rows ≡ Some 2 ∷ None ∷ [] }
    requires before { length cache.old.before ≡ 2 }
    ensures rows { OnOk result (shapes cache.new.rows ≡ Some 2 ∷ None ∷ []) }
    ensures before { OnOk result (length cache.new.before ≡ 2) }
{
    match call {
        Call::Gear(low, high) => cache.put_row(0, rows(alloc, low, high)?),
        Call::Alarm(at) => cache.put_row(1, UnitRows::Event(Points::from_list(alloc, &[at])?)),
        Call::Empty => cache.empty_row(0),
        Call::Turn => cache.turn(),
    }
    Ok(())
}

// The rows of the program after some calls.
fn after(alloc: Global, calls: &[Call]) -> Result<Cache, Fail>
    ensures rows { IfOk result (λ cache. shapes cache.rows ≡ Some 2 ∷ None ∷ []) }
    ensures before { IfOk result (λ cache. length cache.before ≡ 2) }
{
    let program = program(alloc)?;
    let mut cache = Cache::new(alloc, &program)?;
    for call in calls {
        make(alloc, &mut cache, *call)?;
    }
    Ok(cache)
}

// The spans of a fluent's first value; None of an event.
fn first_row(rows: &UnitRows) -> Option<&[Span]> {
    value_row(rows, 0).map(Spans::as_slice)
}

// The first row of the gear, now and before, that of the alarm, and whether the gear's rows are
// empty, after some calls.
fn shown(alloc: Global, calls: &[Call]) -> Result<String, Fail> {
    let cache = after(alloc, calls)?;
    let now = first_row(cache.row(0));
    let before = first_row(cache.old_row(0));
    let alarm = first_row(cache.row(1));
    let empty = cache.is_empty_row(0);
    Ok(format!(in alloc; "{now:?} {before:?} {alarm:?} {empty}")?)
}

// Where the two values hold.
const LOW: Span = Span { after: 3, until: 7 };

const HIGH: Span = Span {
    after: 6,
    until: 11,
};

// What is shown where low holds now, and where it did before the last turn.
const NONE: &str = "Some([]) Some([]) None true";

const LOW_ALONE: &str = "Some([Span { after: 3, until: 7 }]) Some([]) None false";

const LOW_BEFORE: &str = "Some([]) Some([Span { after: 3, until: 7 }]) None true";

#[test]
fn a_unit_has_the_rows_that_were_put_last(rt: HostRuntime) -> Result<(), Fail> {
    use Call::{Alarm, Empty, Gear, Turn};
    let table = [
        ([].as_slice(), NONE),
        (&[Gear(LOW, HIGH)], LOW_ALONE),
        (&[Gear(HIGH, LOW), Gear(LOW, HIGH)], LOW_ALONE),
        (&[Gear(LOW, HIGH), Alarm(4)], LOW_ALONE),
        // A turn gives the rows before.
        (&[Gear(LOW, HIGH), Turn], LOW_BEFORE),
        (&[Gear(LOW, HIGH), Turn, Turn], LOW_ALONE),
        // Rows are emptied as they are now, and may be put again.
        (&[Gear(LOW, HIGH), Empty], NONE),
        (&[Gear(LOW, HIGH), Turn, Empty], LOW_BEFORE),
        (&[Gear(LOW, HIGH), Empty, Gear(LOW, HIGH)], LOW_ALONE),
    ];
    for (calls, wanted) in table {
        let found = shown(rt.alloc(), calls)?;
        assert_eq!(rt; found.as_str(), wanted);
    }
    Ok(())
}

#[test]
fn a_cache_gives_the_rows_of_all_units(rt: HostRuntime) -> Result<(), Fail> {
    let cache = after(rt.alloc(), &[Call::Gear(LOW, HIGH), Call::Alarm(4)])?;
    let copies = cache.copy_rows()?;
    for rows in [copies, cache.into_rows()] {
        let first = rows.as_slice().first().and_then(first_row);
        assert_eq!(rt; (rows.as_slice().len(), first), (2, Some([LOW].as_slice())));
    }
    Ok(())
}

// The values with which windows of the two units open at a point, after some calls.
fn openings(alloc: Global, calls: &[Call], at: Point) -> Result<(Option<u32>, Option<u32>), Fail> {
    let cache = after(alloc, calls)?;
    Ok((cache.opening(0, at), cache.opening(1, at)))
}

// A window opens with the value that held in the rows before, the first of two; not with one of the
// rows as they are now, and a derived event has none.
#[test]
fn a_window_opens_with_the_first_value_before(rt: HostRuntime) -> Result<(), Fail> {
    use Call::{Alarm, Gear, Turn};
    let put = [Gear(LOW, HIGH), Alarm(4)];
    let turned = [Gear(LOW, HIGH), Alarm(4), Turn];
    let table: [(&[Call], u64, Option<u32>); 7] = [
        (&put, 4, None),
        (&turned, 3, None),
        (&turned, 4, Some(0)),
        (&turned, 7, Some(0)),
        (&turned, 8, Some(1)),
        (&turned, 11, Some(1)),
        (&turned, 12, None),
    ];
    for (calls, at, wanted) in table {
        assert_eq!(rt; openings(rt.alloc(), calls, at)?, (wanted, None), "at {at}");
    }
    Ok(())
}
