// What no clause says: that calls succeed with ample memory, and the places of worked lists.
use crate::{
    ListRefused, Points, Span, Spans, clip, cut_points, differ, intersect_all,
    relative_complement_all, union_all,
};
use rt_base::OutOfMemory;
use std::alloc::Global;
use std::test::Fail;

// A span, in short.
fn span(after: u64, until: u64) -> Span {
    Span { after, until }
}

#[test]
fn lists_are_taken_or_refused_at_a_place(rt: HostRuntime) {
    let spans: [(&[Span], Option<usize>); 6] = [
        (&[], None),
        (&[span(1, 3), span(4, 5)], None),
        (&[span(1, 3), span(3, 5)], Some(1)),
        (&[span(2, 2)], Some(0)),
        (&[span(0, 1), span(5, 9), span(7, 10)], Some(2)),
        (&[span(0, 1), span(3, 2), span(1, 1)], Some(1)),
    ];
    for (list, place) in spans {
        let refused = Spans::from_list(rt.alloc(), list).err();
        let want = place.map(|place| ListRefused::NotNormal { place });
        assert_eq!(rt; refused, want, "at {list:?}");
    }
    let points: [(&[u64], Option<usize>); 4] = [
        (&[], None),
        (&[0, 3, 4], None),
        (&[3, 3], Some(1)),
        (&[1, 5, 4, 2], Some(2)),
    ];
    for (list, place) in points {
        let refused = Points::from_list(rt.alloc(), list).err();
        let want = place.map(|place| ListRefused::NotNormal { place });
        assert_eq!(rt; refused, want, "at {list:?}");
    }
}

// Two spans, taken over and copied.
fn two_spans(alloc: Global) -> Result<Spans, Fail> {
    let list = [Span { after: 1, until: 3 }, Span { after: 5, until: 6 }];
    let spans = Spans::of(alloc, Vec::from_slice(alloc, &list)?);
    Ok(spans.copy()?)
}

#[test]
fn spans_hold_at_their_points(rt: HostRuntime) -> Result<(), Fail> {
    let spans = two_spans(rt.alloc())?;
    assert_eq!(rt; spans.as_slice(), [span(1, 3), span(5, 6)].as_slice());
    for (at, holds) in [
        (0, false),
        (1, false),
        (2, true),
        (3, true),
        (4, false),
        (5, false),
        (6, true),
        (7, false),
    ] {
        assert_eq!(rt; spans.holds(at), holds, "at {at}");
    }
    Ok(())
}

#[test]
fn spans_are_put_after_the_others(rt: HostRuntime) -> Result<(), Fail> {
    let mut spans = Spans::new(rt.alloc());
    spans.push(Span { after: 1, until: 3 })?;
    spans.push(Span { after: 5, until: 6 })?;
    assert_eq!(rt; spans.as_slice(), [span(1, 3), span(5, 6)].as_slice());
    Ok(())
}

// Three points, taken over and copied.
fn three_points(alloc: Global) -> Result<Points, Fail> {
    let points = Points::of(alloc, Vec::from_slice(alloc, &[2, 3, 7])?);
    Ok(points.copy()?)
}

#[test]
fn points_are_found(rt: HostRuntime) -> Result<(), Fail> {
    let points = three_points(rt.alloc())?;
    for (at, has) in [
        (1, false),
        (2, true),
        (3, true),
        (4, false),
        (7, true),
        (8, false),
    ] {
        assert_eq!(rt; points.has(at), has, "at {at}");
    }
    Ok(())
}

#[test]
fn points_are_lent_between_two(rt: HostRuntime) -> Result<(), Fail> {
    let points = three_points(rt.alloc())?;
    assert_eq!(rt; points.as_slice(), [2, 3, 7].as_slice());
    for (w, q, within) in [
        (1, 7, points.as_slice()),
        (2, 6, &[3]),
        (2, 7, &[3, 7]),
        (3, 3, &[]),
        (7, 9, &[]),
    ] {
        assert_eq!(rt; points.within(w, q), within, "above {w}, to {q}");
    }
    Ok(())
}

// One call of points, as a test writes it.
#[derive(Clone, Copy)]
enum Call {
    Insert(u64),
    Remove(u64),
    DropUntil(u64),
}

// Makes a call, and says what it answered.
fn made(points: &mut Points, call: Call) -> Result<bool, Fail> {
    match call {
        Call::Insert(at) => Ok(points.insert(at)?),
        Call::Remove(at) => Ok(points.remove(at)),
        Call::DropUntil(w) => {
            points.drop_until(w);
            Ok(true)
        }
    }
}

#[test]
fn points_come_and_go(rt: HostRuntime) -> Result<(), Fail> {
    let mut points = Points::new(rt.alloc());
    for (call, answer, after) in [
        (Call::Insert(5), true, [5].as_slice()),
        (Call::Insert(2), true, &[2, 5]),
        (Call::Insert(5), false, &[2, 5]),
        (Call::Insert(9), true, &[2, 5, 9]),
        (Call::Insert(7), true, &[2, 5, 7, 9]),
        (Call::Remove(5), true, &[2, 7, 9]),
        (Call::Remove(5), false, &[2, 7, 9]),
        (Call::Remove(3), false, &[2, 7, 9]),
        (Call::Remove(9), true, &[2, 7]),
        (Call::DropUntil(1), true, &[2, 7]),
        (Call::DropUntil(2), true, &[7]),
    ] {
        let answered = made(&mut points, call)?;
        assert_eq!(rt; (answered, points.as_slice()), (answer, after));
    }
    Ok(())
}

// A construct, as a test writes it: of all lists, of the first and the others, of the first alone
// over a window, or of the first two.
#[derive(Clone, Copy, Debug)]
enum Construct {
    Union,
    Intersection,
    Complement,
    Clip(u64, u64),
    Differ,
}

// A normal list of the spans of these borders.
fn spans_of(alloc: Global, borders: &[(u64, u64)]) -> Result<Spans, Fail> {
    let mut list = Vec::new(alloc);
    for (after, until) in borders {
        list.push(span(*after, *until))?;
    }
    Ok(Spans::from_list(alloc, &list)?)
}

// A normal list for each of these.
fn lists_of(alloc: Global, lists: &[&[(u64, u64)]]) -> Result<Vec<Spans>, Fail> {
    let mut all = Vec::new(alloc);
    for borders in lists {
        let spans = spans_of(alloc, borders)?;
        all.push(spans)?;
    }
    Ok(all)
}

// What a construct makes of lists; no span where they are too few for it.
fn constructed(alloc: Global, construct: Construct, lists: &[Spans]) -> Result<Spans, OutOfMemory> {
    match (construct, lists) {
        (Construct::Union, lists) => union_all(alloc, lists),
        (Construct::Intersection, [_, ..]) => intersect_all(alloc, lists),
        (Construct::Complement, [first, others @ ..]) => {
            relative_complement_all(alloc, first, others)
        }
        (Construct::Clip(w, last), [list, ..]) => clip(alloc, list, w, last),
        (Construct::Differ, [one, two, ..]) => differ(alloc, one, two),
        _ => Ok(Spans::new(alloc)),
    }
}

#[test]
fn constructs_are_as_worked_by_hand(rt: HostRuntime) -> Result<(), Fail> {
    use Construct::{Clip, Complement, Differ, Intersection, Union};
    let touching: &[&[(u64, u64)]] = &[&[(1, 3)], &[(3, 5)]];
    let apart: &[&[(u64, u64)]] = &[&[(1, 5)], &[(5, 7)]];
    let nested: &[&[(u64, u64)]] = &[&[(1, 20)], &[(2, 4), (6, 19)], &[(3, 8)]];
    let first_and_others: &[&[(u64, u64)]] = &[&[(2, 9)], &[(2, 4)], &[(6, 9)]];
    let twice: &[&[(u64, u64)]] = &[&[(2, 9)], &[(2, 9)]];
    let two: &[&[(u64, u64)]] = &[&[(0, 5), (8, 20)]];
    let inner: &[&[(u64, u64)]] = &[&[(2, 9)], &[(4, 6)]];
    let none: &[&[(u64, u64)]] = &[];
    let empty: &[&[(u64, u64)]] = &[&[], &[], &[]];
    let rows: [(Construct, &[&[(u64, u64)]], &[(u64, u64)]); 18] = [
        (Union, touching, &[(1, 5)]),
        (Intersection, apart, &[]),
        (Union, nested, &[(1, 20)]),
        (Intersection, nested, &[(3, 4), (6, 8)]),
        (Complement, first_and_others, &[(4, 6)]),
        (Complement, &twice[..1], &[(2, 9)]),
        (Complement, twice, &[]),
        (Clip(3, 11), two, &[(3, 5), (8, 11)]),
        (Clip(11, 11), two, &[]),
        (Differ, inner, &[(2, 4), (6, 9)]),
        // Lists without a span, and one list alone.
        (Union, none, &[]),
        (Union, empty, &[]),
        (Intersection, empty, &[]),
        (Complement, empty, &[]),
        (Clip(0, 9), empty, &[]),
        (Differ, empty, &[]),
        (Union, &touching[..1], &[(1, 3)]),
        (Intersection, &touching[..1], &[(1, 3)]),
    ];
    for (construct, lists, wanted) in rows {
        let lists = lists_of(rt.alloc(), lists)?;
        let found = constructed(rt.alloc(), construct, &lists)?;
        let wanted = spans_of(rt.alloc(), wanted)?;
        assert_eq!(rt; found.as_slice(), wanted.as_slice(), "{construct:?}");
    }
    Ok(())
}

// The points of a list at which spans hold.
fn cut(alloc: Global, list: &[u64], within: &[(u64, u64)]) -> Result<Points, Fail> {
    let points = Points::from_list(alloc, list)?;
    let within = spans_of(alloc, within)?;
    Ok(cut_points(alloc, &points, &within)?)
}

#[test]
fn points_are_cut_by_spans(rt: HostRuntime) -> Result<(), Fail> {
    let rows: [(&[u64], &[(u64, u64)], &[u64]); 2] = [
        (&[3, 4, 9, 10], &[(3, 9)], &[4, 9]),
        (&[3], &[], &[]),
    ];
    for (list, within, wanted) in rows {
        let found = cut(rt.alloc(), list, within)?;
        assert_eq!(rt; found.as_slice(), wanted);
    }
    Ok(())
}
