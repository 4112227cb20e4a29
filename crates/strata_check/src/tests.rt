// Ranks, of which nothing is proved, and the name that they tell.
use crate::ranks::ranks;
use crate::row::Row;
use crate::ties::first_tied;
use rt_base::OutOfMemory;
use std::alloc::Global;

// The rows of six places, of which 2 and 5 lead to each other, and 3 and 4.
fn six_rows(alloc: Global) -> Result<Vec<Row>, OutOfMemory> {
    let mut rows = Vec::new(alloc);
    for _ in 0..6 {
        rows.push(Row::new(alloc))?;
    }
    for (place, other) in [(0, 3), (1, 2), (2, 5), (3, 1), (3, 4), (4, 3), (5, 2)] {
        if let Some(row) = rows.get_mut(place) {
            row.push(other)?;
        }
    }
    Ok(rows)
}

fn six_ranks(alloc: Global) -> Result<(Vec<u32>, Option<usize>), OutOfMemory> {
    let rows = six_rows(alloc)?;
    let found = ranks(alloc, rows.as_slice())?;
    let tied = first_tied(rows.as_slice(), found.as_slice());
    Ok((found, tied))
}

#[test]
fn places_have_one_rank_where_they_lead_to_each_other(rt: HostRuntime) {
    let found = six_ranks(rt.alloc()).ok();
    let ranks = found.as_ref().map(|found| found.0.as_slice());
    assert_eq!(rt; ranks, Some([3, 1, 0, 2, 2, 0].as_slice()));
    let tied = found.as_ref().map(|found| found.1);
    assert_eq!(rt; tied, Some(Some(2)));
}
