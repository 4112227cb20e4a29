// What no clause says: that rows are given with ample memory, and what they are in small windows.
ghost use Rattle.std.specs.Prelude.{◌≡◌, ◌∷◌, ◌<◌, ℕ, [], Some, None, true, length, IfOk};
ghost use Rattle.std.specs.Prelude.{slice_get};
ghost use Rattle.std.specs.List.{list_all};
ghost use Rattle.ground_types.specs.Publication.{value_count};
ghost use Rattle.layer_cache.specs.Cached.{shape_by};
ghost use Rattle.layer_cache.specs.Shapes.{shape, shapes};
ghost use Rattle.static_fluent.specs.Constructs.{has_rows, has_members};

use crate::spans_of_expr;
use ground_types::{Expr, Name, NameKind, Plan, Point, Program, Unit, UnitKind};
use layer_cache::Cache;
use rt_base::{List, Word};
use span_algebra::{Points, Span, Spans, UnitRows};
use std::alloc::Global;
use std::test::Fail;

// The declaration of a fluent of some values; a derived event has none.
fn name(alloc: Global, word: &str, kind: NameKind, values: &[&str]) -> Result<Name, Fail>
    ensures { IfOk result (λ name. length name.values ≡ length values.now) }
{
    let mut words = Vec::new(alloc);
    for value in values {
        words.push(Word::new(alloc, value)?)?;
    }
    Ok(Name {
        word: Word::new(alloc, word)?,
        kind,
        args: List::of(Vec::new(alloc)),
        values: List::of(words),
        first: 0,
        line: 1,
    })
}

// The fluents gear, of the values low and high, and heat, and the derived event alarm.
fn names(alloc: Global) -> Result<Vec<Name>, Fail>
    ensures gear { IfOk result (λ names. value_count (slice_get names.items 0) ≡ 2) }
    ensures heat { IfOk result (λ names. value_count (slice_get names.items 1) ≡ 1) }
{
    let gear = name(alloc, "gear", NameKind::Simple, &["low", "high"])?;
    let heat = name(alloc, "heat", NameKind::Simple, &["true"])?;
    let alarm = name(alloc, "alarm", NameKind::Derived, &[])?;
    Ok(vec![in alloc; gear, heat, alarm]?)
}

// A fluent without rules.
fn simple(alloc: Global) -> UnitKind
    ensures { (values : ℕ) → shape_by result values ≡ Some values }
{
    UnitKind::Simple {
        initially: None,
        initiate: List::of(Vec::new(alloc)),
        terminate: List::of(Vec::new(alloc)),
    }
}

// A unit of a kind.
fn unit(alloc: Global, name: u32, kind: UnitKind) -> Unit
    ensures named { result.name ≡ name }
    ensures kind { result.kind ≡ kind }
{
    Unit {
        name,
        args: List::of(Vec::new(alloc)),
        kind,
    }
}

// Empty rows for a unit of each name.
fn empty(alloc: Global) -> Result<Cache, Fail>
    ensures rows { IfOk result (λ cache. length cache.rows ≡ 3) }
    ensures shapes { IfOk result (λ cache. shapes cache.rows ≡ Some 2 ∷ Some 1 ∷ None ∷ []) }
{
    let gear = unit(alloc, 0, simple(alloc));
    let heat = unit(alloc, 1, simple(alloc));
    let alarm = unit(alloc, 2, UnitKind::Derived(List::of(Vec::new(alloc))));
    let program = Program {
        plan: Plan {
            window: 10,
            step: 5,
            from: 0,
            queries: 1,
        },
        domains: List::of(Vec::new(alloc)),
        names: List::of(names(alloc)?),
        units: List::of(vec![in alloc; gear, heat, alarm]?),
        layers: List::of(Vec::new(alloc)),
        events: 0,
    };
    Ok(Cache::new(alloc, &program)?)
}

// The rows of a fluent, one span for each of its values.
fn fluent_rows(alloc: Global, spans: &[Span]) -> Result<UnitRows, Fail>
    ensures { IfOk result (λ rows. shape rows ≡ Some (length spans.now)) }
{
    let mut rows = Vec::new(alloc);
    for span in spans {
        rows.push(Spans::from_list(alloc, &[*span])?)?;
    }
    Ok(UnitRows::Fluent(List::of(rows)))
}

// The span of these borders.
fn span(after: Point, until: Point) -> Span {
    Span { after, until }
}

// Low from 3 to 11, high at 12 and 13, heat at 5 and 6, and an alarm at 5.
fn cache(alloc: Global) -> Result<Cache, Fail>
    ensures { IfOk result (λ cache. length cache.rows ≡ 3) }
{
    let mut cache = empty(alloc)?;
    cache.put_row(0, fluent_rows(alloc, &[span(2, 11), span(11, 13)])?);
    cache.put_row(1, fluent_rows(alloc, &[span(4, 6)])?);
    cache.put_row(2, UnitRows::Event(Points::from_list(alloc, &[5])?));
    Ok(cache)
}

// A fluent-value.
#[derive(Clone, Copy)]
enum Leaf {
    Low,
    High,
    // A value that the gear does not have.
    Reverse,
    Heat,
    Alarm,
}

// An expression, as a test writes it.
#[derive(Clone, Copy)]
enum Form<'a> {
    Row(Leaf),
    Union(&'a [Leaf]),
    Both(Leaf, Leaf),
    Without(Leaf, &'a [Leaf]),
}

// The row of a fluent-value.
fn row(leaf: Leaf) -> Expr
    ensures rows { has_rows 3 result ≡ true }
    ensures members { has_members result ≡ true }
{
    match leaf {
        Leaf::Low => Expr::Row(0, 0),
        Leaf::High => Expr::Row(0, 1),
        Leaf::Reverse => Expr::Row(0, 2),
        Leaf::Heat => Expr::Row(1, 0),
        Leaf::Alarm => Expr::Row(2, 0),
    }
}

// The rows of some fluent-values.
fn leaves(alloc: Global, list: &[Leaf]) -> Result<Vec<Expr>, Fail>
    ensures rows { IfOk result (λ exprs. list_all (has_rows 3) exprs.items ≡ true) }
    ensures members { IfOk result (λ exprs. list_all has_members exprs.items ≡ true) }
{
    let mut exprs = Vec::new(alloc);
    for leaf in list {
        exprs.push(row(*leaf))?;
    }
    Ok(exprs)
}

// An expression that is a union.
fn union(members: Vec<Expr>) -> Expr
    requires rows { list_all (has_rows 3) members.items ≡ true }
    requires members { list_all has_members members.items ≡ true }
    ensures rows { has_rows 3 result ≡ true }
    ensures members { has_members result ≡ true }
{
    Expr::Union(members)
}

// An expression that is an intersection.
fn intersection(members: Vec<Expr>) -> Expr
    requires some { 0 < length members.items }
    requires rows { list_all (has_rows 3) members.items ≡ true }
    requires members { list_all has_members members.items ≡ true }
    ensures rows { has_rows 3 result ≡ true }
    ensures members { has_members result ≡ true }
{
    Expr::Intersect(members)
}

// An expression that is a complement.
fn complement(alloc: Global, first: Expr, others: Vec<Expr>) -> Result<Expr, Fail>
    requires first_rows { has_rows 3 first ≡ true }
    requires first_members { has_members first ≡ true }
    requires rows { list_all (has_rows 3) others.items ≡ true }
    requires members { list_all has_members others.items ≡ true }
    ensures rows { IfOk result (λ expr. has_rows 3 expr ≡ true) }
    ensures members { IfOk result (λ expr. has_members expr ≡ true) }
{
    Ok(Expr::Complement(Box::new(alloc, first)?, others))
}

// The expression that a test writes.
fn written(alloc: Global, form: Form<'_>) -> Result<Expr, Fail>
    ensures rows { IfOk result (λ expr. has_rows 3 expr ≡ true) }
    ensures members { IfOk result (λ expr. has_members expr ≡ true) }
{
    match form {
        Form::Row(leaf) => Ok(row(leaf)),
        Form::Union(list) => Ok(union(leaves(alloc, list)?)),
        Form::Both(one, other) => Ok(intersection(vec![in alloc; row(one), row(other)]?)),
        Form::Without(first, others) => complement(alloc, row(first), leaves(alloc, others)?),
    }
}

// High, or low without heat; and that without low while there is heat, and without alarm.
fn nested(alloc: Global) -> Result<Expr, Fail>
    ensures rows { IfOk result (λ expr. has_rows 3 expr ≡ true) }
    ensures members { IfOk result (λ expr. has_members expr ≡ true) }
{
    let cold = written(alloc, Form::Without(Leaf::Low, &[Leaf::Heat]))?;
    let warm = written(alloc, Form::Both(Leaf::Low, Leaf::Heat))?;
    let first = union(vec![in alloc; row(Leaf::High), cold]?);
    complement(alloc, first, vec![in alloc; warm, row(Leaf::Alarm)]?)
}

// The borders of the spans of an expression over three rows.
fn found(alloc: Global, expr: &Expr, cache: &Cache) -> Result<Vec<(Point, Point)>, Fail>
    requires rows { has_rows 3 expr.now ≡ true }
    requires members { has_members expr.now ≡ true }
    requires count { length cache.now.rows ≡ 3 }
{
    let spans = spans_of_expr(alloc, expr, cache)?;
    let mut borders = Vec::new(alloc);
    for span in spans.as_slice() {
        borders.push((span.after, span.until))?;
    }
    Ok(borders)
}

#[test]
fn constructs_have_the_points_of_their_members(rt: HostRuntime) -> Result<(), Fail> {
    use Form::{Both, Row, Union, Without};
    use Leaf::{Alarm, Heat, High, Low, Reverse};
    let cache = cache(rt.alloc())?;
    let table: [(Form<'_>, &[(u64, u64)]); 9] = [
        (Without(Low, &[Heat]), &[(2, 4), (6, 11)]),
        (Without(Low, &[Low]), &[]),
        (Without(Low, &[Heat, Low]), &[]),
        // Rows are lent where there are some.
        (Row(Low), &[(2, 11)]),
        (Row(High), &[(11, 13)]),
        (Union(&[High]), &[(11, 13)]),
        (Union(&[Reverse, Alarm]), &[]),
        // Values of one fluent are told apart.
        (Union(&[Low, High]), &[(2, 13)]),
        (Both(Low, High), &[]),
    ];
    for (form, wanted) in table {
        let spans = found(rt.alloc(), &written(rt.alloc(), form)?, &cache)?;
        assert_eq!(rt; spans.as_slice(), wanted);
    }
    Ok(())
}

#[test]
fn constructs_stand_in_constructs(rt: HostRuntime) -> Result<(), Fail> {
    let cache = cache(rt.alloc())?;
    let spans = found(rt.alloc(), &nested(rt.alloc())?, &cache)?;
    assert_eq!(rt; spans.as_slice(), [(2, 4), (6, 13)].as_slice());
    Ok(())
}

#[test]
fn empty_rows_give_empty_rows(rt: HostRuntime) -> Result<(), Fail> {
    use Form::{Both, Union, Without};
    use Leaf::{Heat, Low};
    let cache = empty(rt.alloc())?;
    for form in [
        Union(&[Low, Heat]),
        Both(Low, Heat),
        Without(Low, &[Heat]),
        Union(&[]),
    ] {
        let spans = found(rt.alloc(), &written(rt.alloc(), form)?, &cache)?;
        assert!(rt; spans.is_empty());
    }
    Ok(())
}
