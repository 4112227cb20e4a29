// What no clause says: that calls succeed with ample memory, and the points of worked rows.
use crate::{derived_points, ends, starts};
use span_algebra::{Points, Span, Spans};
use std::test::Fail;

#[test]
fn rows_start_and_end(rt: HostRuntime) -> Result<(), Fail> {
    let spans = [
        Span { after: 3, until: 7 },
        Span {
            after: 9,
            until: 11,
        },
    ];

    // Spans and a left border, up to 10: where they start, and where they end. What is carried in
    // does not start.
    let rows = [
        (spans.as_slice(), 0, [3, 9].as_slice(), [7].as_slice()),
        (&spans[..1], 3, &[], &[7]),
    ];
    for (spans, w, starting, ending) in rows {
        let row = Spans::from_list(rt.alloc(), spans)?;
        let started = starts(rt.alloc(), &row, w, 10)?;
        let ended = ends(rt.alloc(), &row, w, 10)?;
        assert_eq!(rt; (started.as_slice(), ended.as_slice()), (starting, ending));
    }
    Ok(())
}

#[test]
fn points_of_rules_are_put_together(rt: HostRuntime) -> Result<(), Fail> {
    let rules = [
        Points::from_list(rt.alloc(), &[3, 9])?,
        Points::from_list(rt.alloc(), &[3, 4])?,
    ];
    let derived = derived_points(rt.alloc(), &rules)?;
    assert_eq!(rt; derived.as_slice(), [3, 4, 9].as_slice());
    Ok(())
}
