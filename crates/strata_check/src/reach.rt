// Which names depend on themselves.
ghost use Rattle.std.specs.Prelude.{◌≡◌, ◌<◌, ◌≤◌, ◌∷◌, false, length, replicate, reverse, IfOk};
ghost use Rattle.std.specs.Bool.{MatchBool};
ghost use Rattle.strata_check.specs.Rows.{NamesIt, AreInside, Leads};
ghost use Rattle.strata_check.specs.Searches.{IsSearching, HasSearched, search_left};

use crate::row::Row;
use rt_base::OutOfMemory;
use std::alloc::Global;

// Puts a place among those that are left where it was not seen.
fn meet(
    rows: &[Row],
    start: usize,
    seen: &mut Vec<bool>,
    left: &mut Vec<usize>,
    place: usize,
    other: usize,
) -> Result<(), OutOfMemory>
    requires inside { AreInside rows.now }
    requires searching { IsSearching rows.now start seen.old.items
        (place ∷ reverse left.old.items) }
    requires named { NamesIt rows.now place other }
    ensures { IfOk result (λ _. HasSearched rows.now start seen.old.items left.old.items
        seen.new.items left.new.items place other) }
{
    if !seen[other] {
        seen[other] = true;
        left.push(other)?;
    }
    Ok(())
}

// Meets all places in a row.
fn meet_all(
    rows: &[Row],
    start: usize,
    seen: &mut Vec<bool>,
    left: &mut Vec<usize>,
    place: usize,
) -> Result<(), OutOfMemory>
    requires inside { AreInside rows.now }
    requires within { place < length rows.now }
    requires searching { IsSearching rows.now start seen.old.items
        (place ∷ reverse left.old.items) }
    ensures searching { IfOk result (λ _. IsSearching rows.now start seen.new.items
        (reverse left.new.items)) }
    ensures less { IfOk result (λ _. search_left seen.new.items left.new.items ≤ search_left
        seen.old.items left.old.items) }
{
    let row = rows[place].as_slice();
    for other in row {
        meet(rows, start, seen, left, place, *other)?;
    }
    Ok(())
}

// Flags for so many places, of which none was seen.
fn none_seen(alloc: Global, count: usize) -> Result<Vec<bool>, OutOfMemory>
    ensures { IfOk result (λ seen. seen.items ≡ replicate count false) }
{
    let mut seen = Vec::new(alloc);
    for _turn in 0..count {
        seen.push(false)?;
    }
    Ok(seen)
}

// Whether a place leads to itself.
pub(crate) fn leads_to_itself(
    alloc: Global,
    rows: &[Row],
    start: usize,
) -> Result<bool, OutOfMemory>
    requires inside { AreInside rows.now }
    requires start { start < length rows.now }
    ensures { IfOk result (λ found. MatchBool found (Leads rows.now start start)
        (Leads rows.now start start → ⊥)) }
{
    let mut seen = none_seen(alloc, rows.len())?;
    let mut left = Vec::new(alloc);
    left.push(start)?;
    'search: while let Some(place) = left.pop() {
        meet_all(rows, start, &mut seen, &mut left, place)?;
    }
    Ok(seen[start])
}
