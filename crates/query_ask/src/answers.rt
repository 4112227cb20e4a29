// What readers are answered.
use ground_types::Point;

/// What is answered to a question (our own).
#[derive(Clone, Copy, Debug, PartialEq, Eq)]
pub enum Answer {
    /// The fluent has the value at the point, as the last publication has it.
    Yes,
    /// It has not.
    No,
    /// The point is no value point of the last publication, whose window is `(w, q]`: it is at most
    /// `w` or more than `q + 1`.
    Outside { w: Point, q: Point },
    /// Nothing is published yet.
    NothingYet,
    /// There are so many publications, of the queries from 0 on, and the one that is asked for is
    /// not among them.
    NotPublished { have: u32 },
    /// How many publications there are.
    Number(u32),
    /// The publication of this number is there.
    Block { number: u64 },
}
