// How readers are answered.
ghost use Rattle.std.specs.Prelude.{◌≡◌, ◌<◌, map, length, Some};
ghost use Rattle.std.specs.Arc.{arc_value};
ghost use Rattle.ground_types.specs.Rows.{covers};
ghost use Rattle.ground_types.specs.Sound.{IsSound};
ghost use Rattle.ground_types.specs.declared.program.Program.{Program};
ghost use Rattle.ground_types.specs.declared.entries.Query.TheVariants as query;
ghost use Rattle.query_ask.specs.Right.{published};
ghost use Rattle.query_ask.specs.Answers.{spans_of};
ghost use Rattle.query_ask.specs.Answers.{said, last_of, answer_in, holds_answer, block_answer};
ghost use Rattle.query_ask.specs.Answers.{answered, AreOfProgram, IsAsked};

use crate::{Answer, Publication};
use ground_types::{Point, Query, UnitId, Value};
use span_algebra::UnitRows;
use std::sync::Arc;

// Whether the row of a value has a point. A search by halves.
fn has_point(rows: &UnitRows, value: Value, at: Point) -> bool
    ensures { result ≡ covers (spans_of (Some (published rows.now)) value) at }
{
    let UnitRows::Fluent(rows) = rows else {
        return false;
    };
    match rows.as_slice().get(value as usize) {
        Some(row) => row.holds(at),
        None => false,
    }
}

// Yes or no, by the row of a fluent-value.
fn answer_in(last: &Publication, unit: UnitId, value: Value, at: Point) -> Answer
    requires unit { unit < length last.now.program.units }
    ensures { result ≡ answer_in (said last.now) unit value at }
{
    if has_point(last.rows(unit), value, at) {
        Answer::Yes
    } else {
        Answer::No
    }
}

// Whether a fluent has a value at a point, by the last publication.
fn holds_in(last: &Publication, unit: UnitId, value: Value, at: Point) -> Answer
    requires sound { IsSound last.now.program }
    requires unit { unit < length last.now.program.units }
    ensures { result ≡ holds_answer last.now.program.plan (Some (said last.now)) unit value at }
{
    let plan = &last.program().plan;
    let w = plan.left(last.number());
    let q = plan.right(last.number());
    if w < at && at <= q + 1 {
        answer_in(last, unit, value, at)
    } else {
        Answer::Outside { w, q }
    }
}

// Whether a fluent has a value at a point, by the last of the publications.
fn holds(list: &[Arc<Publication>], unit: UnitId, value: Value, at: Point) -> Answer
    requires asked { IsAsked (map arc_value list.now) (query.Holds unit value at) }
    ensures { (program : Program) → AreOfProgram program (map arc_value list.now) →
        result ≡ holds_answer program.plan (last_of (map said (map arc_value list.now))) unit value
        at }
{
    match list.last() {
        Some(last) => holds_in(last, unit, value, at),
        None => Answer::NothingYet,
    }
}

// How many publications there are, one more than the number of the last.
fn count(list: &[Arc<Publication>]) -> u32
    requires asked { IsAsked (map arc_value list.now) query.Count }
    ensures { result ≡ length (map arc_value list.now) }
{
    let Some(last) = list.last() else {
        return 0;
    };
    last.number() + 1
}

// Whether the publication of this number is there, among so many.
fn block_in(have: u32, number: u64) -> Answer
    ensures { result ≡ block_answer have number }
{
    if number >= u64::from(have) {
        Answer::NotPublished { have }
    } else {
        Answer::Block { number }
    }
}

/// The answer to a question over the publications so far, of which member `j` is that of query `j`,
/// all of one sound program; a question for a value is for one of a fluent of it.
///
/// Whether a fluent has a value at a point is read off the last publication: `NothingYet` exactly
/// where there is none; else `Outside`, with the borders of its window `(w, q]`, exactly where the
/// point is at most `w` or more than `q + 1`; else `Yes` or `No`. How many there are is a `Number`.
/// A block is `NotPublished` exactly where its number is not below how many there are, and else
/// `Block`. A look-up by halves; no memory. The answers are our own.
pub fn ask(list: &[Arc<Publication>], query: &Query) -> Answer
    requires { IsAsked (map arc_value list.now) query.now }
    ensures { (program : Program) → AreOfProgram program (map arc_value list.now) →
        result ≡ answered program.plan (map said (map arc_value list.now)) query.now }
{
    match *query {
        Query::Holds { unit, value, at } => holds(list, unit, value, at),
        Query::Count => Answer::Number(count(list)),
        Query::Block { number } => block_in(count(list), number),
    }
}
