// What no clause says: that the call succeeds with ample memory, and the rows of worked examples.
ghost use Rattle.std.specs.Prelude.{◌≡◌, length, map, IfOk};
ghost use Rattle.std.specs.List.{AllByRecursion};
ghost use Rattle.simple_fluent.specs.Rows.{IsInside, IsValueBelow};

use crate::spans_of;
use ground_types::{Point, Value};
use span_algebra::{Points, Spans};
use std::alloc::Global;
use std::process::Abort;
use std::test::Fail;

// The points of each list.
fn points_of(alloc: Global, lists: &[&[Point]]) -> Result<Vec<Points>, Fail>
    ensures { IfOk result (λ all. all.items ≡ map (λ list. list.now) lists.now) }
{
    let mut all = Vec::new(alloc);
    for list in lists {
        let points = Points::from_list(alloc, list)?;
        all.push(points)?;
    }
    Ok(all)
}

// The spans of each row, and a bar after it.
fn text_of(alloc: Global, rows: &[Spans]) -> Result<String, Fail> {
    let mut text = String::new(alloc);
    for row in rows {
        for span in row.as_slice() {
            let part = format!(in alloc; "({}, {}]", span.after, span.until)?;
            text.push_str(part.as_str())?;
        }
        text.push_str("|")?;
    }
    Ok(text)
}

// The rows over the window (0, 10], from the points at which each value is initiated and
// terminated.
fn told(
    alloc: Global,
    opening: Option<Value>,
    inits: &[&[Point]],
    terms: &[&[Point]],
) -> Result<String, Fail>
    requires opening { IsValueBelow (length inits.now) opening }
    requires count { length inits.now ≡ length terms.now }
    requires inits { AllByRecursion (IsInside 0 10) (map (λ list. list.now) inits.now) }
    requires terms { AllByRecursion (IsInside 0 10) (map (λ list. list.now) terms.now) }
{
    let inits = points_of(alloc, inits)?;
    let terms = points_of(alloc, terms)?;
    let rows = spans_of(alloc, opening, &inits, &terms, 0, 10)?;
    text_of(alloc, &rows)
}

// The rows are told so.
fn says(
    rt: &impl Abort,
    alloc: Global,
    opening: Option<Value>,
    inits: &[&[Point]],
    terms: &[&[Point]],
    wanted: &str,
) -> Result<(), Fail>
    requires opening { IsValueBelow (length inits.now) opening }
    requires count { length inits.now ≡ length terms.now }
    requires inits { AllByRecursion (IsInside 0 10) (map (λ list. list.now) inits.now) }
    requires terms { AllByRecursion (IsInside 0 10) (map (λ list. list.now) terms.now) }
{
    let told = told(alloc, opening, inits, terms)?;
    assert_eq!(rt; told.as_str(), wanted);
    Ok(())
}

#[test]
fn one_value_comes_and_goes(rt: HostRuntime) -> Result<(), Fail> {
    // It goes on until it is terminated, or past the end of the window.
    says(&rt, rt.alloc(), None, &[&[3, 9]], &[&[7]], "(3, 7](9, 11]|")?;

    // At a point at which both happen, the initiation counts.
    says(&rt, rt.alloc(), None, &[&[2, 5]], &[&[5, 8]], "(2, 8]|")?;
    says(&rt, rt.alloc(), None, &[], &[], "")
}

#[test]
fn two_values_break_each_other(rt: HostRuntime) -> Result<(), Fail> {
    // Of two values that are initiated at one point the first one counts.
    says(
        &rt,
        rt.alloc(),
        None,
        &[&[6], &[6]],
        &[&[], &[]],
        "(6, 11]||",
    )?;

    // An initiation of another value ends the one that holds, and a termination of another value
    // does not.
    says(
        &rt,
        rt.alloc(),
        None,
        &[&[2], &[6]],
        &[&[8], &[4]],
        "(2, 6]|(6, 11]|",
    )
}

#[test]
fn the_value_at_the_start_goes_on(rt: HostRuntime) -> Result<(), Fail> {
    says(
        &rt,
        rt.alloc(),
        Some(1),
        &[&[], &[]],
        &[&[], &[]],
        "|(0, 11]|",
    )?;
    says(
        &rt,
        rt.alloc(),
        Some(1),
        &[&[], &[]],
        &[&[], &[4]],
        "|(0, 4]|",
    )
}
