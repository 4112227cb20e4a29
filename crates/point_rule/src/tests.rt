// What no clause says: that calls succeed with ample memory, and the points of worked rows and
// events.
ghost use Rattle.std.specs.Prelude.{◌≡◌, ◌∷◌, ◌<◌, ◌-◌, ◌^◌, nat_lt, [], Some, None, true, length};
ghost use Rattle.std.specs.Prelude.{ℕ, IfOk};
ghost use Rattle.std.specs.List.{list_all};
ghost use Rattle.ground_types.specs.Meaning.{units_of_rule};
ghost use Rattle.layer_cache.specs.Cached.{shape_by};
ghost use Rattle.layer_cache.specs.Shapes.{shape, shapes};
ghost use Rattle.point_rule.specs.Known.{HasRows};

use crate::{eval_at, revise_rule, touched};
use event_store::EventStore;
use ground_types::{
    Cond, Name, NameKind, Plan, Point, Program, Rule, Trigger, Unit, UnitKind, What,
};
use layer_cache::Cache;
use rt_base::{List, Steps, Word};
use span_algebra::{Points, Span, Spans, UnitRows};
use std::alloc::Global;
use std::test::Fail;

// The fluent heat, of one value.
fn heat(alloc: Global) -> Result<Name, Fail>
    ensures { IfOk result (λ name. length name.values ≡ 1) }
{
    let value = Word::new(alloc, "true")?;
    Ok(Name {
        word: Word::new(alloc, "heat")?,
        kind: NameKind::Simple,
        args: List::of(Vec::new(alloc)),
        values: List::of(vec![in alloc; value]?),
        first: 0,
        line: 1,
    })
}

// A fluent without rules.
fn simple(alloc: Global) -> UnitKind
    ensures { (values : ℕ) → shape_by result values ≡ Some values }
{
    UnitKind::Simple {
        initially: None,
        initiate: List::of(Vec::new(alloc)),
        terminate: List::of(Vec::new(alloc)),
    }
}

// A unit of a kind, and of the one name.
fn unit(alloc: Global, kind: UnitKind) -> Unit
    ensures named { result.name ≡ 0 }
    ensures kind { result.kind ≡ kind }
{
    Unit {
        name: 0,
        args: List::of(Vec::new(alloc)),
        kind,
    }
}

// Empty rows for a fluent of one value, a derived event and another such fluent.
fn empty(alloc: Global) -> Result<Cache, Fail>
    ensures rows { IfOk result (λ cache. length cache.rows ≡ 3) }
    ensures old_rows { IfOk result (λ cache. length cache.before ≡ 3) }
    ensures shapes { IfOk result (λ cache. shapes cache.rows ≡ Some 1 ∷ None ∷ Some 1 ∷ []) }
{
    let first = unit(alloc, simple(alloc));
    let alarm = unit(alloc, UnitKind::Derived(List::of(Vec::new(alloc))));
    let second = unit(alloc, simple(alloc));
    let program = Program {
        plan: Plan {
            window: 10,
            step: 5,
            from: 0,
            queries: 2,
        },
        domains: List::of(Vec::new(alloc)),
        names: List::of(vec![in alloc; heat(alloc)?]?),
        units: List::of(vec![in alloc; first, alarm, second]?),
        layers: List::of(Vec::new(alloc)),
        events: 2,
    };
    Ok(Cache::new(alloc, &program)?)
}

// The span of these borders.
fn span(after: Point, until: Point) -> Span {
    Span { after, until }
}

// The rows of a fluent of one value.
fn row(alloc: Global, spans: &[Span]) -> Result<UnitRows, Fail>
    ensures { IfOk result (λ rows. shape rows ≡ Some 1) }
{
    let row = Spans::from_list(alloc, spans)?;
    Ok(UnitRows::Fluent(List::of(vec![in alloc; row]?)))
}

// Unit 0 holds in (3, 7] and (9, 11], and unit 1 is an event that occurs at 5 and 10.
fn cache(alloc: Global) -> Result<Cache, Fail>
    ensures rows { IfOk result (λ cache. length cache.rows ≡ 3) }
    ensures old_rows { IfOk result (λ cache. length cache.before ≡ 3) }
{
    let mut cache = empty(alloc)?;
    cache.put_row(0, row(alloc, &[span(3, 7), span(9, 11)])?);
    cache.put_row(1, UnitRows::Event(Points::from_list(alloc, &[5, 10])?));
    Ok(cache)
}

// Over (0, 10] unit 0 held in (8, 11], and unit 2 nowhere. Over (5, 15] unit 2 holds in (6, 16].
fn heated(alloc: Global) -> Result<Cache, Fail>
    ensures rows { IfOk result (λ cache. length cache.rows ≡ 3) }
    ensures old_rows { IfOk result (λ cache. length cache.before ≡ 3) }
{
    let mut cache = empty(alloc)?;
    cache.put_row(0, row(alloc, &[span(8, 11)])?);
    cache.turn();
    cache.put_row(2, row(alloc, &[span(6, 16)])?);
    Ok(cache)
}

// The first event stands at some points in and round the window (0, 10], the second nowhere.
fn events(alloc: Global) -> Result<EventStore, Fail> {
    let mut store = EventStore::new(alloc);
    for at in [4, 0, 12, 10, 5, 8, 6, 4] {
        store.add(0, at)?;
    }
    Ok(store)
}

// The first event stood at 8 for the query before, and the second stands at 6 too.
fn later(alloc: Global) -> Result<EventStore, Fail> {
    let mut store = EventStore::new(alloc);
    store.add(0, 8)?;
    store.settle();
    store.add(1, 6)?;
    Ok(store)
}

// A rule of the tests.
#[derive(Clone, Copy)]
enum Named {
    // The first event, with no further condition; the second; the derived event; where unit 0
    // starts and ends to hold.
    First,
    Second,
    Derived,
    Start,
    End,
    // The first event, while unit 0 holds and unit 1 does not occur.
    Guarded,
    // The first event, while unit 2 does not hold.
    Cold,
}

// A rule of this first condition and these further ones.
fn of(first: Trigger, further: Vec<Cond>) -> Rule
    ensures first { result.trigger ≡ first }
    ensures further { result.conds ≡ further.items }
{
    Rule {
        value: 0,
        trigger: first,
        conds: List::of(further),
    }
}

// Further conditions: unit 0 holds, unit 1 does not occur, and unit 2 does not hold.
const HOLDS: Cond = Cond {
    positive: true,
    what: What::Holds(0, 0),
};

const NO_ALARM: Cond = Cond {
    positive: false,
    what: What::Happens(Trigger::Derived(1)),
};

const NO_HEAT: Cond = Cond {
    positive: false,
    what: What::Holds(2, 0),
};

// A rule, which names units of the three alone.
fn rule(alloc: Global, named: Named) -> Result<Rule, Fail>
    ensures { IfOk result (λ rule. list_all (λ unit. nat_lt unit 3) (units_of_rule rule) ≡ true) }
{
    match named {
        Named::First => Ok(of(Trigger::Event(0), Vec::new(alloc))),
        Named::Second => Ok(of(Trigger::Event(1), Vec::new(alloc))),
        Named::Derived => Ok(of(Trigger::Derived(1), Vec::new(alloc))),
        Named::Start => Ok(of(Trigger::Start(0, 0), Vec::new(alloc))),
        Named::End => Ok(of(Trigger::End(0, 0), Vec::new(alloc))),
        Named::Guarded => Ok(of(Trigger::Event(0), vec![in alloc; HOLDS, NO_ALARM]?)),
        Named::Cold => Ok(of(Trigger::Event(0), vec![in alloc; NO_HEAT]?)),
    }
}

// Whether a rule's body is true at a point.
fn is_true(rule: &Rule, cache: &Cache, store: &EventStore, at: Point) -> bool
    requires rows { HasRows cache.now.rows rule.now }
    requires end { at < 2 ^ 64 - 1 }
{
    let mut steps = Steps::first();
    let found = eval_at(rule, cache, store, at, &mut steps);
    steps.end();
    found
}

// The points up to 12 at which the guarded rule is true.
fn true_points(alloc: Global) -> Result<Vec<Point>, Fail> {
    let (cache, store, rule) = (cache(alloc)?, events(alloc)?, rule(alloc, Named::Guarded)?);
    let mut found = Vec::new(alloc);
    for at in 0..13 {
        if is_true(&rule, &cache, &store, at) {
            found.push(at)?;
        }
    }
    Ok(found)
}

#[test]
fn a_body_is_true_where_all_its_conditions_are(rt: HostRuntime) -> Result<(), Fail> {
    assert_eq!(rt; true_points(rt.alloc())?.as_slice(), [4, 6].as_slice());
    Ok(())
}

// The points of a rule in the window (0, 10].
fn found(alloc: Global, rule: &Rule, cache: &Cache, store: &EventStore) -> Result<Points, Fail>
    requires { HasRows cache.now.rows rule.now }
{
    let old = Points::new(alloc);
    let mut steps = Steps::first();
    let found = revise_rule(alloc, rule, &old, cache, store, None, 0, 10, &mut steps);
    steps.end();
    Ok(found?)
}

// The points of the window (0, 10] at which a rule is looked at, and those at which it is true.
fn told(
    alloc: Global,
    named: Named,
    cache: &Cache,
    store: &EventStore,
) -> Result<(Points, Points), Fail>
    requires rows { length cache.now.rows ≡ 3 }
    requires old_rows { length cache.now.before ≡ 3 }
{
    let rule = rule(alloc, named)?;
    let at = touched(alloc, &rule, cache, store, None, 0, 10)?;
    Ok((at, found(alloc, &rule, cache, store)?))
}

#[test]
fn a_rule_has_the_points_at_which_it_is_true(rt: HostRuntime) -> Result<(), Fail> {
    let table: [(Named, &[u64], &[u64]); 6] = [
        (Named::First, &[4, 5, 6, 8, 10], &[4, 5, 6, 8, 10]),
        (Named::Second, &[], &[]),
        (Named::Derived, &[5, 10], &[5, 10]),
        (Named::Start, &[3, 9], &[3, 9]),
        (Named::End, &[7], &[7]),
        (Named::Guarded, &[4, 5, 6, 8, 10], &[4, 6]),
    ];
    let (cache, store) = (cache(rt.alloc())?, events(rt.alloc())?);
    for (named, looked_at, wanted) in table {
        let (at, found) = told(rt.alloc(), named, &cache, &store)?;
        assert_eq!(rt; (at.as_slice(), found.as_slice()), (looked_at, wanted));
    }
    Ok(())
}

// The points of (5, 15] at which a rule is looked at anew.
fn anew(alloc: Global, named: Named, before: Option<Point>) -> Result<Points, Fail> {
    let (cache, store, rule) = (heated(alloc)?, later(alloc)?, rule(alloc, named)?);
    Ok(touched(alloc, &rule, &cache, &store, before, 5, 15)?)
}

// A late event touches the rule that it triggers, and the rule of which it turns a condition. Where
// nothing changed a rule is looked at past the query before alone.
#[test]
fn a_late_event_touches_what_it_changes(rt: HostRuntime) -> Result<(), Fail> {
    let table: [(Named, Option<u64>, &[u64]); 5] = [
        (Named::Second, Some(10), &[6]),
        (Named::Cold, Some(10), &[8]),
        (Named::First, Some(8), &[]),
        (Named::First, Some(7), &[8]),
        (Named::First, None, &[8]),
    ];
    for (named, before, wanted) in table {
        assert_eq!(rt; anew(rt.alloc(), named, before)?.as_slice(), wanted);
    }
    Ok(())
}
