// Lists that grow side by side.
ghost use Rattle.std.specs.Prelude.{◌≡◌, ◌++◌, ◌∷◌, [], map, replicate, slice_index_or, slice_set};
ghost use Rattle.std.specs.Prelude.{IfOk};
ghost use Rattle.std.specs.Vec.Iter.{into_iter_items};

use rt_base::{List, OutOfMemory};
use std::alloc::Global;
use std::marker::Model;
use std::vec::IntoIter;

// So many lists, numbered from 0. Contracts see the list of them.
#[derive(Drop)]
pub(crate) struct Buckets<T> {
    lists: Vec<Vec<T>>,
}

impl<T> Model for Buckets<T> {
    ghost use Rattle.std.specs.Prelude.{List as Items, map};

    ghost Value = { Items (Items T) };

    ghost view = { λ b. map (λ list. list.items) b.lists.items };
}

// The vectors that are left, as lists.
fn lists_of<T: Drop>(
    alloc: Global,
    vectors: &mut IntoIter<Vec<T>>,
) -> Result<List<List<T>>, OutOfMemory>
    ensures { IfOk result (λ lists. lists ≡ map (λ vector. vector.items)
        (into_iter_items vectors.old)) }
{
    let mut lists = Vec::with_capacity(alloc, vectors.len())?;
    while let Some(vector) = vectors.next() {
        lists.push(List::of(vector))?;
    }
    Ok(List::of(lists))
}

impl<T: Drop> Buckets<T> {
    // So many empty lists.
    pub(crate) fn new(alloc: Global, count: usize) -> Result<Buckets<T>, OutOfMemory>
        ensures { IfOk result (λ buckets. buckets ≡ replicate count []) }
    {
        let mut lists = Vec::with_capacity(alloc, count)?;
        for _turn in 0..count {
            lists.push(Vec::new(alloc))?;
        }
        Ok(Buckets { lists })
    }

    // Puts an item behind the others of the list of this number, if there is one.
    pub(crate) fn push(&mut self, number: usize, item: T) -> Result<(), OutOfMemory>
        ensures { IfOk result (λ _. self.new ≡ slice_set self.old number
            (slice_index_or self.old number [] ++ (item ∷ []))) }
    {
        if let Some(list) = self.lists.get_mut(number) {
            list.push(item)?;
        }
        Ok(())
    }

    // The list of this number, empty if there is none.
    pub(crate) fn get(&self, number: usize) -> &[T]
        ensures { result.now ≡ slice_index_or self.now number [] }
    {
        match self.lists.get(number) {
            Some(list) => list.as_slice(),
            None => &[],
        }
    }

    // All lists, in order.
    pub(crate) fn into_lists(self, alloc: Global) -> Result<List<List<T>>, OutOfMemory>
        ensures { IfOk result (λ lists. lists ≡ self) }
    {
        lists_of(alloc, &mut self.lists.into_iter())
    }
}
