// The rows of expressions.
ghost use Rattle.std.specs.Prelude.{◌≡◌, ◌<◌, ◌&&◌, not, ℕ, true, false, map, length};
ghost use Rattle.std.specs.Prelude.{slice_get, IfOk, IfSome, IfNone};
ghost use Rattle.std.specs.List.{list_any, list_all};
ghost use Rattle.ground_types.specs.Truth.{expr_holds};
ghost use Rattle.layer_cache.specs.Told.{told, fluent_has};
ghost use Rattle.span_algebra.specs.Normal.{IsNormal, covers};
ghost use Rattle.static_fluent.specs.Constructs.{has_members, has_rows};
ghost use Rattle.static_fluent.specs.Evaluated.{spans_in};

use ground_types::{Expr, UnitId, Value};
use layer_cache::{Cache, value_row};
use rt_base::OutOfMemory;
use span_algebra::{Spans, complement_of, intersection_of, union_of};
use std::alloc::Global;

// What an expression comes to: a row that the cache lends, or a list that was made.
#[derive(Drop)]
enum Member<'a> {
    Lent(&'a Spans),
    Made(Spans),
}

// The row of a fluent's value, and no span where there is none.
fn member_of(alloc: Global, cache: &Cache, unit: UnitId, value: Value) -> Member<'_>
    requires { unit < length cache.now.rows }
    ensures { (t : ℕ) → covers (spans_in result) t ≡ fluent_has (slice_get cache.now.rows unit)
        value t }
{
    match value_row(cache.row(unit), value) {
        Some(row) => Member::Lent(row),
        None => Member::Made(Spans::new(alloc)),
    }
}

// The spans of a member.
fn spans_in<'m>(member: &'m Member<'_>) -> &'m Spans
    ensures { result.now ≡ spans_in member.now }
{
    match member {
        Member::Lent(spans) => spans,
        Member::Made(spans) => spans,
    }
}

// The spans of the members, lent one by one.
fn lent<'m>(alloc: Global, members: &'m [Member<'_>]) -> Result<Vec<&'m Spans>, OutOfMemory>
    ensures { IfOk result (λ lists. map (λ l. l.now) lists.items ≡ map spans_in members.now) }
{
    let mut lists = Vec::with_capacity(alloc, members.len())?;
    for member in members {
        lists.push(spans_in(member))?;
    }
    Ok(lists)
}

// The points that some member has.
fn united(alloc: Global, members: &[Member<'_>]) -> Result<Spans, OutOfMemory>
    ensures { IfOk result (λ out. (t : ℕ) → covers out t ≡ list_any (λ m. covers (spans_in m) t)
        members.now) }
{
    let lists = lent(alloc, members)?;
    let out = union_of(alloc, lists.as_slice())?;
    Ok(out)
}

// The points that every member has.
fn shared(alloc: Global, members: &[Member<'_>]) -> Result<Spans, OutOfMemory>
    requires { 0 < length members.now }
    ensures { IfOk result (λ out. (t : ℕ) → covers out t ≡ list_all (λ m. covers (spans_in m) t)
        members.now) }
{
    let lists = lent(alloc, members)?;
    let out = intersection_of(alloc, lists.as_slice())?;
    Ok(out)
}

// The points of the first member that no other has.
fn left_over(alloc: Global, first: &Member<'_>, others: &[Member<'_>]) -> Result<Spans, OutOfMemory>
    ensures { IfOk result (λ out. (t : ℕ) → covers out t ≡ (covers (spans_in first.now) t
        && not (list_any (λ m. covers (spans_in m) t) others.now))) }
{
    let lists = lent(alloc, others)?;
    let out = complement_of(alloc, spans_in(first), lists.as_slice())?;
    Ok(out)
}

// What an expression comes to.
#[cycle(evaluation)]
fn evaluate<'a>(alloc: Global, expr: &Expr, cache: &'a Cache) -> Result<Member<'a>, OutOfMemory>
    requires rows { has_rows (length cache.now.rows) expr.now ≡ true }
    requires members { has_members expr.now ≡ true }
    ensures { IfOk result (λ member. (t : ℕ) → covers (spans_in member) t
        ≡ expr_holds (told cache.now.rows) expr.now t) }
{
    match expr {
        Expr::Row(unit, value) => Ok(member_of(alloc, cache, *unit, *value)),
        Expr::Union(exprs) => evaluate_any(alloc, exprs.as_slice(), cache),
        Expr::Intersect(exprs) => evaluate_each(alloc, exprs.as_slice(), cache),
        Expr::Complement(first, exprs) => evaluate_rest(alloc, first, exprs.as_slice(), cache),
    }
}

// What a union of expressions comes to: the member where it is the only one.
#[cycle(evaluation)]
fn evaluate_any<'a>(
    alloc: Global,
    exprs: &[Expr],
    cache: &'a Cache,
) -> Result<Member<'a>, OutOfMemory>
    requires rows { list_all (has_rows (length cache.now.rows)) exprs.now ≡ true }
    requires members { list_all has_members exprs.now ≡ true }
    ensures { IfOk result (λ member. (t : ℕ) → covers (spans_in member) t
        ≡ list_any (λ expr. expr_holds (told cache.now.rows) expr t) exprs.now) }
{
    if let [only] = exprs {
        return evaluate(alloc, only, cache);
    }
    let members = evaluate_all(alloc, exprs, cache)?;
    Ok(Member::Made(united(alloc, members.as_slice())?))
}

// What an intersection of expressions comes to: the member where it is the only one.
#[cycle(evaluation)]
fn evaluate_each<'a>(
    alloc: Global,
    exprs: &[Expr],
    cache: &'a Cache,
) -> Result<Member<'a>, OutOfMemory>
    requires some { 0 < length exprs.now }
    requires rows { list_all (has_rows (length cache.now.rows)) exprs.now ≡ true }
    requires members { list_all has_members exprs.now ≡ true }
    ensures { IfOk result (λ member. (t : ℕ) → covers (spans_in member) t
        ≡ list_all (λ expr. expr_holds (told cache.now.rows) expr t) exprs.now) }
{
    if let [only] = exprs {
        return evaluate(alloc, only, cache);
    }
    let members = evaluate_all(alloc, exprs, cache)?;
    Ok(Member::Made(shared(alloc, members.as_slice())?))
}

// What an expression comes to without the points of others.
#[cycle(evaluation)]
fn evaluate_rest<'a>(
    alloc: Global,
    first: &Expr,
    others: &[Expr],
    cache: &'a Cache,
) -> Result<Member<'a>, OutOfMemory>
    requires first_rows { has_rows (length cache.now.rows) first.now ≡ true }
    requires first_members { has_members first.now ≡ true }
    requires rows { list_all (has_rows (length cache.now.rows)) others.now ≡ true }
    requires members { list_all has_members others.now ≡ true }
    ensures { IfOk result (λ member. (t : ℕ) → covers (spans_in member) t
        ≡ (expr_holds (told cache.now.rows) first.now t
        && not (list_any (λ expr. expr_holds (told cache.now.rows) expr t) others.now))) }
{
    let first = evaluate(alloc, first, cache)?;
    let others = evaluate_all(alloc, others, cache)?;
    Ok(Member::Made(left_over(alloc, &first, others.as_slice())?))
}

// What each of some expressions comes to.
#[cycle(evaluation)]
fn evaluate_all<'a>(
    alloc: Global,
    exprs: &[Expr],
    cache: &'a Cache,
) -> Result<Vec<Member<'a>>, OutOfMemory>
    requires rows { list_all (has_rows (length cache.now.rows)) exprs.now ≡ true }
    requires members { list_all has_members exprs.now ≡ true }
    ensures { IfOk result (λ members. (t : ℕ) → map (λ m. covers (spans_in m) t) members.items
        ≡ map (λ expr. expr_holds (told cache.now.rows) expr t) exprs.now) }
{
    let mut members = Vec::with_capacity(alloc, exprs.len())?;
    for expr in exprs {
        members.push(evaluate(alloc, expr, cache)?)?;
    }
    Ok(members)
}

// A row that is lent is copied.
fn owned(member: Member<'_>) -> Result<Spans, OutOfMemory>
    ensures { IfOk result (λ spans. spans ≡ spans_in member.entry) }
{
    match member {
        Member::Lent(spans) => spans.copy(),
        Member::Made(spans) => Ok(spans),
    }
}

/// The spans `(after, until]` at whose points an expression over the intervals of fluent-values is
/// true, from the rows that a cache has now: a statically determined fluent of the Run-Time Event
/// Calculus. The units that it names have to have rows, and each of its intersections a member. A
/// value without a row holds nowhere. Rows are lent: a union or an intersection of one member is
/// that member, and every other construct walks once over the borders of its members and makes one
/// list. A row that is the whole answer is copied. The one error is want of memory.
pub fn spans_of_expr(alloc: Global, expr: &Expr, cache: &Cache) -> Result<Spans, OutOfMemory>
    requires rows { has_rows (length cache.now.rows) expr.now ≡ true }
    requires members { has_members expr.now ≡ true }
    ensures each { IfOk result (λ spans. (t : ℕ) → covers spans t
        ≡ expr_holds (told cache.now.rows) expr.now t) }
    ensures normal { IfOk result (λ spans. IsNormal spans) }
{
    let found = evaluate(alloc, expr, cache)?;
    owned(found)
}
