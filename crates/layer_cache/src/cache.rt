// The cache.
ghost use Rattle.std.specs.Prelude.{◌≡◌, ◌↔◌, ◌<◌, ℕ, false, [], Some, None, replicate, length};
ghost use Rattle.std.specs.Prelude.{map};
ghost use Rattle.std.specs.Prelude.{slice_get, slice_set, position, IfOk, IfSome, IfNone, IsTrue};
ghost use Rattle.ground_types.specs.Sound.{unit_values};
ghost use Rattle.layer_cache.specs.Cached.{empty_rows, all_empty, small_value, first_value_at};
ghost use Rattle.layer_cache.specs.Cached.{unit_shapes};
ghost use Rattle.layer_cache.specs.Shapes.{emptied, shape, shapes, empty_of, IsValueOf};
ghost use Rattle.layer_cache.specs.Told.{fluent_has, fluent_row};
ghost use Rattle.span_algebra.specs.Normal.{covers};

use ground_types::{Point, Program, Unit, UnitId, UnitKind, Value, value_count};
use rt_base::{List, OutOfMemory};
use span_algebra::{Points, Spans, UnitRows};
use std::alloc::Global;
use std::marker::Model;
use std::mem;

/// The rows of each unit of a program, as they are now and as they were before. Contracts see the
/// two lists, in the order of the units. By its type, the rows of a unit have the same shape in
/// both: those of a fluent tell of as many values.
#[derive(Drop)]
pub struct Cache {
    rows: Vec<UnitRows>,
    before: Vec<UnitRows>,
}

impl Model for Cache {
    ghost use Rattle.std.specs.Prelude.{◌≡◌};
    ghost use Rattle.layer_cache.specs.Rows.{Cached};
    ghost use Rattle.layer_cache.specs.Shapes.{shapes};

    ghost Value = { Cached };

    ghost view = { λ cache. record { rows = cache.rows.items; before = cache.before.items } };

    ghost invariant = { λ cache. shapes cache.rows.items ≡ shapes cache.before.items };
}

/// The row of a fluent's value; None for a value without a row, and for a derived event. It takes
/// no memory.
pub fn value_row(rows: &UnitRows, value: Value) -> Option<&Spans>
    ensures row { IfSome result (λ row. fluent_row rows.now value ≡ Some row.now) }
    ensures no_row { IfNone result (fluent_row rows.now value ≡ None) }
    ensures some { IfSome result (λ row. (t : ℕ) → fluent_has (Some rows.now) value t
        ≡ covers row.now t) }
    ensures none { IfNone result ((t : ℕ) → fluent_has (Some rows.now) value t ≡ false) }
{
    match rows {
        UnitRows::Fluent(rows) => rows.as_slice().get(value as usize),
        UnitRows::Event(_) => None,
    }
}

// So many rows without a span.
fn no_spans(alloc: Global, count: usize) -> Result<List<Spans>, OutOfMemory>
    ensures { IfOk result (λ rows. rows ≡ replicate count []) }
{
    let mut rows = Vec::with_capacity(alloc, count)?;
    for _turn in 0..count {
        rows.push(Spans::new(alloc))?;
    }
    Ok(List::of(rows))
}

// The empty rows of a unit.
fn empty_rows(alloc: Global, program: &Program, unit: &Unit) -> Result<UnitRows, OutOfMemory>
    ensures { IfOk result (λ rows. rows ≡ empty_rows program.now unit.now) }
{
    match unit.kind {
        UnitKind::Derived(_) => Ok(UnitRows::Event(Points::new(alloc))),
        _ => {
            let rows = no_spans(alloc, value_count(program, unit))?;
            Ok(UnitRows::Fluent(rows))
        }
    }
}

// The empty rows of all units of a program.
fn all_empty(alloc: Global, program: &Program) -> Result<Vec<UnitRows>, OutOfMemory>
    ensures { IfOk result (λ rows. rows.items ≡ all_empty program.now) }
{
    let units = program.units.as_slice();
    let mut rows = Vec::with_capacity(alloc, units.len())?;
    for unit in units {
        rows.push(empty_rows(alloc, program, unit)?)?;
    }
    Ok(rows)
}

// The first of some rows that has the point, by its place.
fn first_with(rows: &[Spans], at: Point) -> Option<usize>
    ensures { result ≡ position (λ row. covers row at) rows.now }
{
    rows.iter().position(|row| row.holds(at))
}

// A number of a value, if it has 32 bits.
fn small_value(value: Option<usize>) -> Option<Value>
    ensures { result ≡ small_value value }
{
    match value {
        Some(value) if value <= u32::MAX as usize => Some(value as Value),
        _ => None,
    }
}

// No span in place of those of each row.
fn clear_all(alloc: Global, rows: &mut [Spans])
    ensures { rows.new ≡ replicate (length rows.old) [] }
{
    for row in rows.iter_mut() {
        *row = Spans::new(alloc);
    }
}

// The rows without their spans or points, of the same shape.
fn emptied(alloc: Global, rows: UnitRows) -> UnitRows
    ensures { result ≡ empty_of (shape rows) }
{
    match rows {
        UnitRows::Fluent(rows) => {
            let mut rows = rows.into_vec();
            clear_all(alloc, &mut rows);
            UnitRows::Fluent(List::of(rows))
        }
        UnitRows::Event(_) => UnitRows::Event(Points::new(alloc)),
    }
}

// Takes the spans or points of rows away.
fn empty(alloc: Global, rows: &mut UnitRows)
    ensures { rows.new ≡ empty_of (shape rows.old) }
{
    let old = mem::replace(rows, UnitRows::Event(Points::new(alloc)));
    *rows = emptied(alloc, old);
}

// Takes the spans and points of the rows of all units away.
fn clear_rows(alloc: Global, rows: &mut [UnitRows])
    ensures { rows.new ≡ map emptied rows.old }
{
    for unit in rows.iter_mut() {
        empty(alloc, unit);
    }
}

// Whether no row has a span.
fn are_empty(rows: &[Spans]) -> bool
    ensures { IsTrue result ↔ rows.now ≡ replicate (length rows.now) [] }
{
    for row in rows {
        if !row.as_slice().is_empty() {
            return false;
        }
    }
    true
}

// Whether rows have no span and no point.
fn is_empty(rows: &UnitRows) -> bool
    ensures { IsTrue result ↔ rows.now ≡ empty_of (shape rows.now) }
{
    match rows {
        UnitRows::Fluent(rows) => are_empty(rows.as_slice()),
        UnitRows::Event(points) => points.as_slice().is_empty(),
    }
}

// The rows of all units again.
fn copies_of(alloc: Global, rows: &[UnitRows]) -> Result<List<UnitRows>, OutOfMemory>
    ensures { IfOk result (λ copies. copies ≡ rows.now) }
{
    let mut copies = Vec::with_capacity(alloc, rows.len())?;
    for unit in rows {
        copies.push(unit.copy(alloc)?)?;
    }
    Ok(List::of(copies))
}

impl Cache {
    /// The empty rows of all units of a program, old and new.
    pub fn new(alloc: Global, program: &Program) -> Result<Cache, OutOfMemory>
        ensures empty { IfOk result (λ cache. cache ≡ record {
          rows = all_empty program.now;
          before =
              all_empty program.now;
        }) }
        ensures shapes { IfOk result (λ cache. shapes cache.rows ≡ unit_shapes program.now) }
    {
        let rows = all_empty(alloc, program)?;
        let before = all_empty(alloc, program)?;
        Ok(Cache { rows, before })
    }

    /// The rows of a unit as they are now. The unit has to be one of the program. It takes no
    /// memory.
    pub fn row(&self, unit: UnitId) -> &UnitRows
        requires { unit < length self.now.rows }
        ensures { slice_get self.now.rows unit ≡ Some result.now }
    {
        &self.rows[unit as usize]
    }

    /// The rows of a unit as they were before the last turn. The unit has to be one of the program.
    /// It takes no memory.
    pub fn old_row(&self, unit: UnitId) -> &UnitRows
        requires { unit < length self.now.before }
        ensures { slice_get self.now.before unit ≡ Some result.now }
    {
        &self.before[unit as usize]
    }

    /// Whether the rows that a unit has now have no span and no point. The unit has to be one of
    /// the program. One look at each row; it takes no memory.
    pub fn is_empty_row(&self, unit: UnitId) -> bool
        requires { unit < length self.now.rows }
        ensures { IfSome (slice_get (shapes self.now.rows) unit) (λ shape. IsTrue result
            ↔ slice_get self.now.rows unit ≡ Some (empty_of shape)) }
    {
        is_empty(self.row(unit))
    }

    /// Puts the rows of a unit in place of those that it has now. The unit has to be one of the
    /// program, and the rows of its kind, one for each of a fluent's values. It takes no memory.
    pub fn put_row(&mut self, unit: UnitId, put: UnitRows)
        requires { slice_get (shapes self.old.rows) unit ≡ Some (shape put) }
        ensures put { self.new ≡ record {
          rows = slice_set self.old.rows unit put;
          before =
              self.old.before;
        } }
        ensures shapes { shapes self.new.rows ≡ shapes self.old.rows }
    {
        self.rows[unit as usize] = put;
    }

    /// Puts the empty rows of a unit in place of those that it has now. The unit has to be one of
    /// the program. It takes no memory.
    pub fn empty_row(&mut self, unit: UnitId)
        requires { unit < length self.old.rows }
        ensures emptied { IfSome (slice_get (shapes self.old.rows) unit)
            (λ shape. self.new ≡ record {
              rows = slice_set self.old.rows unit (empty_of shape);
              before =
                  self.old.before;
            }) }
        ensures shapes { shapes self.new.rows ≡ shapes self.old.rows }
    {
        let alloc = *self.rows.allocator();
        empty(alloc, &mut self.rows[unit as usize]);
    }

    /// Puts the empty rows of each unit in place of those that it has now. It takes no memory.
    pub fn clear(&mut self)
        ensures { self.new ≡ record {
          rows = map emptied self.old.rows;
          before =
              self.old.before;
        } }
    {
        let alloc = *self.rows.allocator();
        clear_rows(alloc, &mut self.rows);
    }

    /// The old and the new rows change places. It takes no memory.
    pub fn turn(&mut self)
        ensures turned { self.new ≡ record { rows = self.old.before; before = self.old.rows } }
        ensures shapes { shapes self.new.rows ≡ shapes self.old.rows }
        ensures old_shapes { shapes self.new.before ≡ shapes self.old.rows }
    {
        mem::swap(&mut self.rows, &mut self.before);
    }

    /// The first value of a fluent whose old row has the point; None where there is none, and for a
    /// derived event. The unit has to be one of the program, and the value is one of the unit's. A
    /// search by halves for each value; it takes no memory.
    pub fn opening(&self, unit: UnitId, at: Point) -> Option<Value>
        requires { unit < length self.now.before }
        ensures first { result ≡ first_value_at (slice_get self.now.before unit) at }
        ensures value { IfSome result (IsValueOf (slice_get (shapes self.now.rows) unit)) }
    {
        // By its type, the old rows have the shapes of the new ones.
        let _ = &self.before;
        match self.old_row(unit) {
            UnitRows::Fluent(rows) => small_value(first_with(rows.as_slice(), at)),
            UnitRows::Event(_) => None,
        }
    }

    /// A copy of the rows of all units as they are now, in their order, or `OutOfMemory`.
    pub fn copy_rows(&self) -> Result<List<UnitRows>, OutOfMemory>
        ensures { IfOk result (λ rows. rows ≡ self.now.rows) }
    {
        copies_of(*self.rows.allocator(), self.rows.as_slice())
    }

    /// The rows of all units as they are now, in their order. It takes no memory.
    pub fn into_rows(self) -> List<UnitRows>
        ensures { result ≡ self.rows }
    {
        List::of(self.rows)
    }
}
