// Publications, and how they are read.
ghost use Rattle.std.specs.Prelude.{◌≡◌, ◌<◌, length, slice_get, Some};
ghost use Rattle.std.specs.Arc.{arc_value};
ghost use Rattle.query_ask.specs.Right.{IsRightForItself};

use ground_types::{Occ, Opening, Program, UnitId};
use rt_base::List;
use span_algebra::UnitRows;
use std::marker::Model;
use std::sync::Arc;

/// What is published of a query: the rows of all units over its window, and the program, opening
/// values and events that they come from. By its type it is right for itself (our own): its number
/// is one of the plan's queries, and its rows are the maximal runs and the event points of what its
/// events and its opening values make true, point by point, in the window of that query. What its
/// front and its count of evaluations are, and which events and opening values these are, is as it
/// was handed in.
#[derive(Drop)]
pub struct Publication {
    number: u32,
    front: u32,
    program: Arc<Program>,
    opening: Opening,
    events: List<Occ>,
    rows: List<UnitRows>,
    evaluations: u64,
}

impl Model for Publication {
    ghost use Rattle.std.specs.Arc.{arc_value};
    ghost use Rattle.std.specs.Coded.{codes};
    ghost use Rattle.ground_types.specs.contracts.program.Expr as expr;
    ghost use Rattle.query_ask.specs.Right.{Parts, IsRightForItself};

    ghost Value = { Parts };

    ghost coded = { Prim.hlevel (codes, expr.the_row.coded) };

    ghost view = { λ p. record {
      number = p.number;
      front = p.front;
      program = arc_value p.program;
      opening = p.opening.values;
      events = p.events;
      rows = p.rows;
      evaluations = p.evaluations;
    } };

    ghost invariant = { λ p. IsRightForItself (record {
      number = p.number;
      front = p.front;
      program = arc_value p.program;
      opening = p.opening.values;
      events = p.events;
      rows = p.rows;
      evaluations = p.evaluations;
    }) };
}

impl Publication {
    /// The publication of these parts: the number of its query, counted from 0; its front, how many
    /// entries of the history there are up to and with its seal; its program; the value with which
    /// each unit opens; the events that stand in its window; the rows of the units, in their order;
    /// and how many evaluations the rules took. They have to be right for themselves. Nothing is
    /// copied, and no memory is taken.
    pub fn new(
        number: u32,
        front: u32,
        program: Arc<Program>,
        opening: Opening,
        events: Vec<Occ>,
        rows: Vec<UnitRows>,
        evaluations: u64,
    ) -> Publication
        requires right { IsRightForItself (record {
          number = number;
          front = front;
          program = arc_value program;
          opening = opening.values;
          events = events.items;
          rows = rows.items;
          evaluations = evaluations;
        }) }
        ensures parts { result ≡ record {
          number = number;
          front = front;
          program = arc_value program;
          opening = opening.values;
          events = events.items;
          rows = rows.items;
          evaluations = evaluations;
        } }
    {
        Publication {
            number,
            front,
            program,
            opening,
            events: List::of(events),
            rows: List::of(rows),
            evaluations,
        }
    }

    /// The number of its query, counted from 0 and below the plan's `queries`. No memory.
    pub fn number(&self) -> u32
        ensures number { result ≡ self.now.number }
        ensures right { IsRightForItself self.now }
    {
        self.number
    }

    /// The front that it was made with. No memory.
    pub fn front(&self) -> u32
        ensures { result ≡ self.now.front }
    {
        self.front
    }

    /// Its program. No memory.
    pub fn program(&self) -> &Arc<Program>
        ensures { arc_value result.now ≡ self.now.program }
    {
        &self.program
    }

    /// The opening values that it was made with. No memory.
    pub fn opening(&self) -> &Opening
        ensures { result.now.values ≡ self.now.opening }
    {
        &self.opening
    }

    /// The events that it was made with. No memory.
    pub fn events(&self) -> &[Occ]
        ensures { result.now ≡ self.now.events }
    {
        self.events.as_slice()
    }

    /// The rows of a unit: the spans of each value of a fluent over the value points of the window,
    /// or the event points of a derived event. No memory.
    pub fn rows(&self, unit: UnitId) -> &UnitRows
        requires unit { unit < length self.now.program.units }
        ensures row { slice_get self.now.rows unit ≡ Some result.now }
        ensures right { IsRightForItself self.now }
    {
        &self.rows.as_slice()[unit as usize]
    }

    /// The count of evaluations that it was made with. No memory.
    pub fn evaluations(&self) -> u64
        ensures { result ≡ self.now.evaluations }
    {
        self.evaluations
    }
}
