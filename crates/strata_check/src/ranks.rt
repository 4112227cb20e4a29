// A rank for each name, by which a chain of names can be told from a cycle in one pass.
use crate::row::Row;
use rt_base::OutOfMemory;
use std::alloc::Global;

// What the search knows of a place.
#[derive(Clone, Copy)]
struct Visit {
    // In which order it was met, from 1; 0 where it was not met.
    number: usize,
    // The least number of an unranked place that it is known to lead to, or its own.
    low: usize,
    // How many places of its row were looked at.
    looked: usize,
    rank: Option<u32>,
}

// Tarjan's search for strongly connected components, with stacks of its own in place of calls.
#[derive(Drop)]
struct Search<'a> {
    rows: &'a [Row],
    visits: Vec<Visit>,
    // The way from the start to where the search stands.
    trail: Vec<usize>,
    // The places that were met and have no rank yet.
    unranked: Vec<usize>,
    met: usize,
    rank: u32,
}

impl<'a> Search<'a> {
    fn new(alloc: Global, rows: &'a [Row]) -> Result<Search<'a>, OutOfMemory> {
        let mut visits = Vec::with_capacity(alloc, rows.len())?;
        for _ in 0..rows.len() {
            visits.push(Visit {
                number: 0,
                low: 0,
                looked: 0,
                rank: None,
            })?;
        }
        Ok(Search {
            rows,
            visits,
            trail: Vec::new(alloc),
            unranked: Vec::new(alloc),
            met: 0,
            rank: 0,
        })
    }

    // Goes to a place that was not met.
    fn enter(&mut self, place: usize) -> Result<(), OutOfMemory> {
        self.met = self.met.saturating_add(1);
        if let Some(visit) = self.visits.get_mut(place) {
            visit.number = self.met;
            visit.low = self.met;
        }
        self.unranked.push(place)?;
        self.trail.push(place)?;
        Ok(())
    }

    fn lower(&mut self, place: usize, low: usize) {
        if let Some(visit) = self.visits.get_mut(place) {
            visit.low = visit.low.min(low);
        }
    }

    // Looks along the way from a place to another.
    fn look(&mut self, place: usize, other: usize) -> Result<(), OutOfMemory> {
        let Some(visit) = self.visits.get(other).copied() else {
            return Ok(());
        };
        if visit.number == 0 {
            return self.enter(other);
        }
        if visit.rank.is_none() {
            self.lower(place, visit.number);
        }
        Ok(())
    }

    // The next place in a row that was not looked at.
    fn next_of(&mut self, place: usize) -> Option<usize> {
        let row = self.rows.get(place)?;
        let visit = self.visits.get_mut(place)?;
        let next = row.as_slice().get(visit.looked).copied();
        visit.looked = visit.looked.saturating_add(1);
        next
    }

    // Gives the next rank to the places that were met from this one on.
    fn close(&mut self, place: usize) {
        for _ in 0..self.unranked.len() {
            let Some(other) = self.unranked.pop() else {
                break;
            };
            if let Some(visit) = self.visits.get_mut(other) {
                visit.rank = Some(self.rank);
            }
            if other == place {
                break;
            }
        }
        self.rank = self.rank.saturating_add(1);
    }

    // Goes back from a place whose row was looked at. It is the first of its component where it
    // leads to none before.
    fn leave(&mut self, place: usize) {
        self.trail.pop();
        let Some(visit) = self.visits.get(place).copied() else {
            return;
        };
        if visit.low == visit.number {
            self.close(place);
        }
        if let Some(above) = self.trail.last().copied() {
            self.lower(above, visit.low);
        }
    }

    // One step, and whether there was one to make.
    fn step(&mut self) -> Result<bool, OutOfMemory> {
        let Some(place) = self.trail.last().copied() else {
            return Ok(false);
        };
        match self.next_of(place) {
            Some(other) => self.look(place, other)?,
            None => self.leave(place),
        }
        Ok(true)
    }

    fn is_met(&self, place: usize) -> bool {
        match self.visits.get(place) {
            Some(visit) => visit.number > 0,
            None => true,
        }
    }

    // Ranks all places to which a place leads. So many steps are enough.
    fn search_from(&mut self, start: usize, limit: usize) -> Result<(), OutOfMemory> {
        if self.is_met(start) {
            return Ok(());
        }
        self.enter(start)?;
        for _ in 0..limit {
            if !self.step()? {
                break;
            }
        }
        Ok(())
    }

    fn ranks(&self, alloc: Global) -> Result<Vec<u32>, OutOfMemory> {
        let mut ranks = Vec::with_capacity(alloc, self.visits.len())?;
        for visit in self.visits.as_slice() {
            ranks.push(visit.rank.unwrap_or(0))?;
        }
        Ok(ranks)
    }
}

// As many steps as a search takes at most: one for each place in a row, one to leave each row, and
// one to find no more.
fn most_steps(rows: &[Row]) -> usize {
    let mut steps = 1usize;
    for row in rows {
        steps = steps.saturating_add(row.as_slice().len()).saturating_add(1);
    }
    steps
}

// For each place the number of its strongly connected component, in the order in which these are
// complete: a place has no higher rank than one that names it, and the same exactly where the two
// lead to each other. This is not proved, since no answer rests on it: wrong ranks would only cost
// time.
pub(crate) fn ranks(alloc: Global, rows: &[Row]) -> Result<Vec<u32>, OutOfMemory> {
    let mut search = Search::new(alloc, rows)?;
    let limit = most_steps(rows);
    for start in 0..rows.len() {
        search.search_from(start, limit)?;
    }
    search.ranks(alloc)
}
