// The first place that is tied, by ranks, to one that it names.
ghost use Rattle.std.specs.Prelude.{◌≡◌, ◌<◌, true, length, IfSome};
ghost use Rattle.strata_check.specs.Ranks.{rank_at, AreUnder, NeverRise, NoCircleBefore};

use crate::row::Row;

fn rank_of(ranks: &[u32], place: usize) -> u32
    ensures { result ≡ rank_at ranks.now place }
{
    ranks.get(place).copied().unwrap_or(0)
}

// Whether all places in a row have ranks under a bound.
fn are_under(ranks: &[u32], row: &[usize], bound: u64) -> bool
    ensures { result ≡ true → AreUnder ranks.now row.now bound }
{
    for place in row {
        if u64::from(rank_of(ranks, *place)) >= bound {
            return false;
        }
    }
    true
}

// Whether no place has a higher rank than one that names it.
fn never_rise(rows: &[Row], ranks: &[u32]) -> bool
    ensures { result ≡ true → NeverRise rows.now ranks.now }
{
    for place in 0..rows.len() {
        let bound = u64::from(rank_of(ranks, place)) + 1;
        if !are_under(ranks, rows[place].as_slice(), bound) {
            return false;
        }
    }
    true
}

// The first place that names one of its own rank, unless ranks rise somewhere. No place before it
// leads to itself, whatever the ranks are: along each way from there they would fall.
pub(crate) fn first_tied(rows: &[Row], ranks: &[u32]) -> Option<usize>
    ensures within { IfSome result (λ place. place < length rows.now) }
    ensures first { IfSome result (λ place. NoCircleBefore rows.now place) }
{
    if !never_rise(rows, ranks) {
        return None;
    }
    for place in 0..rows.len() {
        let bound = u64::from(rank_of(ranks, place));
        if !are_under(ranks, rows[place].as_slice(), bound) {
            return Some(place);
        }
    }
    None
}
