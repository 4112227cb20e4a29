// The walk that gives each name its layer, or finds that some name leads to itself.
ghost use Rattle.std.specs.Prelude.{◌≡◌, ◌<◌, ◌+◌, ◌^◌, ◌-◌, ◌∷◌, [], Some, None, length, max};
ghost use Rattle.std.specs.Prelude.{replicate, reverse, slice_get, IfOk, IsSome, MatchOption};
ghost use Rattle.std.specs.Bool.{MatchBool};
ghost use Rattle.strata_check.specs.declared.walk.Mark.TheVariants.{New, Open, Done};
ghost use Rattle.strata_check.specs.Rows.{row_at, AreInside, HasCircle};
ghost use Rattle.strata_check.specs.Walks.{layer_over, IsNewMark, IsWalking, HasWalked, HasVisited};
ghost use Rattle.strata_check.specs.Walks.{AllDone};

use crate::row::Row;
use ground_types::{Name, NameKind};
use rt_base::OutOfMemory;
use std::alloc::Global;

// How far a name has come.
#[derive(Clone, Copy, Debug)]
pub(crate) enum Mark {
    New,
    // So many places of its row have layers, and the greatest of these.
    Open { next: usize, greatest: u32 },
    Done { layer: u32 },
}

// The names and their rows, one for each name, which hold places of names.
#[derive(Drop)]
pub(crate) struct Graph<'a> {
    pub names: &'a [Name],
    pub rows: &'a [Row],
    ghost few: { length names.now < 2 ^ 32 },
    ghost inside: { AreInside rows.now },
    ghost named: { length names.now ≡ length rows.now },
}

// A place at which the walk stands, and how far it has come there.
#[derive(Clone, Copy)]
struct Standing {
    place: usize,
    next: usize,
    greatest: u32,
}

// The layer of a name, where the greatest layer in its bodies is this.
fn layer_over(name: &Name, greatest: u32) -> u32
    requires { greatest < 2 ^ 32 - 1 }
    ensures { result ≡ layer_over (Some name.now) greatest }
{
    match name.kind {
        NameKind::Input => 0,
        _ => greatest + 1,
    }
}

// The greater of two layers.
fn greater(one: u32, other: u32) -> u32
    ensures { result ≡ max one other }
{
    one.max(other)
}

// The place that is next in a row; None past its end.
fn in_row(row: &Row, next: usize) -> Option<usize>
    ensures is { result ≡ slice_get row.now next }
    ensures fits { IsSome result → next + 1 < 2 ^ 64 }
{
    row.as_slice().get(next).copied()
}

// Goes on to a place that is new.
fn enter(
    graph: &Graph,
    marks: &mut Vec<Mark>,
    below: &mut Vec<usize>,
    at: Standing,
    other: usize,
) -> Result<(), OutOfMemory>
    requires walking { IsWalking graph.now.names.now graph.now.rows.now marks.old.items
        (at.place ∷ reverse below.old.items) }
    requires next { slice_get (row_at graph.now.rows.now at.place) at.next ≡ Some other }
    requires new { slice_get marks.old.items other ≡ Some New }
    ensures { IfOk result (λ _. HasWalked graph.now.names.now graph.now.rows.now marks.old.items
        marks.new.items (reverse below.new.items)) }
{
    marks[other] = Mark::Open {
        next: 0,
        greatest: 0,
    };
    below.push(at.place)?;
    below.push(other)?;
    Ok(())
}

// Takes the layer of the next place.
fn pass(
    graph: &Graph,
    marks: &mut Vec<Mark>,
    below: &mut Vec<usize>,
    at: Standing,
    other: usize,
    layer: u32,
) -> Result<(), OutOfMemory>
    requires walking { IsWalking graph.now.names.now graph.now.rows.now marks.old.items
        (at.place ∷ reverse below.old.items) }
    requires standing { slice_get marks.old.items at.place ≡ Some (Open at.next at.greatest) }
    requires next { slice_get (row_at graph.now.rows.now at.place) at.next ≡ Some other }
    requires fits { at.next + 1 < 2 ^ 64 }
    requires done { slice_get marks.old.items other ≡ Some (Done layer) }
    ensures { IfOk result (λ _. HasWalked graph.now.names.now graph.now.rows.now marks.old.items
        marks.new.items (reverse below.new.items)) }
{
    marks[at.place] = Mark::Open {
        next: at.next + 1,
        greatest: greater(at.greatest, layer),
    };
    below.push(at.place)?;
    Ok(())
}

// Gives the place its layer.
fn finish(graph: &Graph, marks: &mut Vec<Mark>, below: &[usize], at: Standing)
    requires walking { IsWalking graph.now.names.now graph.now.rows.now marks.old.items
        (at.place ∷ reverse below.now) }
    requires standing { slice_get marks.old.items at.place ≡ Some (Open at.next at.greatest) }
    requires last { slice_get (row_at graph.now.rows.now at.place) at.next ≡ None }
    ensures { HasWalked graph.now.names.now graph.now.rows.now marks.old.items marks.new.items
        (reverse below.now) }
{
    let layer = layer_over(&graph.names[at.place], at.greatest);
    marks[at.place] = Mark::Done { layer };
}

// Looks at the next place of the row where the walk stands, and says whether that leads back to the
// trail.
fn look(
    graph: &Graph,
    marks: &mut Vec<Mark>,
    below: &mut Vec<usize>,
    at: Standing,
    other: usize,
) -> Result<bool, OutOfMemory>
    requires walking { IsWalking graph.now.names.now graph.now.rows.now marks.old.items
        (at.place ∷ reverse below.old.items) }
    requires standing { slice_get marks.old.items at.place ≡ Some (Open at.next at.greatest) }
    requires next { slice_get (row_at graph.now.rows.now at.place) at.next ≡ Some other }
    requires fits { at.next + 1 < 2 ^ 64 }
    ensures { IfOk result (λ met. MatchBool met (HasCircle graph.now.rows.now)
        (HasWalked graph.now.names.now graph.now.rows.now marks.old.items marks.new.items
        (reverse below.new.items))) }
{
    match marks[other] {
        Mark::New => {
            enter(graph, marks, below, at, other)?;
            Ok(false)
        }
        Mark::Done { layer } => {
            pass(graph, marks, below, at, other, layer)?;
            Ok(false)
        }
        Mark::Open { .. } => Ok(true),
    }
}

// One step from the place at the end of the trail, and whether it leads back to the trail.
fn step(
    graph: &Graph,
    marks: &mut Vec<Mark>,
    below: &mut Vec<usize>,
    place: usize,
) -> Result<bool, OutOfMemory>
    requires walking { IsWalking graph.now.names.now graph.now.rows.now marks.old.items
        (place ∷ reverse below.old.items) }
    ensures { IfOk result (λ met. MatchBool met (HasCircle graph.now.rows.now)
        (HasWalked graph.now.names.now graph.now.rows.now marks.old.items marks.new.items
        (reverse below.new.items))) }
{
    match marks[place] {
        Mark::Open { next, greatest } => {
            let at = Standing {
                place,
                next,
                greatest,
            };
            match in_row(&graph.rows[place], next) {
                Some(other) => look(graph, marks, below, at, other),
                None => {
                    finish(graph, marks, below.as_slice(), at);
                    Ok(false)
                }
            }
        }
        _ => unreachable!(),
    }
}

// Walks from a place that is new until all places to which it leads have layers, or until one leads
// to itself.
fn walk_from(
    alloc: Global,
    graph: &Graph,
    marks: &mut Vec<Mark>,
    start: usize,
) -> Result<bool, OutOfMemory>
    requires walking { IsWalking graph.now.names.now graph.now.rows.now marks.old.items [] }
    requires new { slice_get marks.old.items start ≡ Some New }
    ensures { IfOk result (λ met. MatchBool met (HasCircle graph.now.rows.now)
        (HasVisited graph.now.names.now graph.now.rows.now marks.old.items marks.new.items
        start)) }
{
    let mut trail = Vec::new(alloc);
    marks[start] = Mark::Open {
        next: 0,
        greatest: 0,
    };
    trail.push(start)?;
    'walk: while let Some(place) = trail.pop() {
        if step(graph, marks, &mut trail, place)? {
            return Ok(true);
        }
    }
    Ok(false)
}

fn is_new(mark: Mark) -> bool
    ensures { MatchBool result (mark ≡ New) (IsNewMark (Some mark) → ⊥) }
{
    matches!(mark, Mark::New)
}

// Marks for so many names, of which each is new.
fn new_marks(alloc: Global, count: usize) -> Result<Vec<Mark>, OutOfMemory>
    ensures { IfOk result (λ marks. marks.items ≡ replicate count New) }
{
    let mut marks = Vec::new(alloc);
    for _turn in 0..count {
        marks.push(Mark::New)?;
    }
    Ok(marks)
}

// Walks from a place where it is new.
fn visit(
    alloc: Global,
    graph: &Graph,
    marks: &mut Vec<Mark>,
    start: usize,
) -> Result<bool, OutOfMemory>
    requires walking { IsWalking graph.now.names.now graph.now.rows.now marks.old.items [] }
    requires start { start < length graph.now.names.now }
    ensures { IfOk result (λ met. MatchBool met (HasCircle graph.now.rows.now)
        (HasVisited graph.now.names.now graph.now.rows.now marks.old.items marks.new.items
        start)) }
{
    if is_new(marks[start]) {
        walk_from(alloc, graph, marks, start)
    } else {
        Ok(false)
    }
}

// Gives each name its layer, unless one leads to itself.
pub(crate) fn walk(alloc: Global, graph: &Graph) -> Result<Option<Vec<Mark>>, OutOfMemory>
    ensures { IfOk result (λ marks. MatchOption marks (HasCircle graph.now.rows.now) (λ marks.
        AllDone graph.now.names.now graph.now.rows.now marks.items)) }
{
    let mut marks = new_marks(alloc, graph.names.len())?;
    for start in 0..graph.names.len() {
        if visit(alloc, graph, &mut marks, start)? {
            return Ok(None);
        }
    }
    Ok(Some(marks))
}
