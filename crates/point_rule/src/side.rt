// The two queries of which a rule's conditions are read.
ghost use Rattle.std.specs.Prelude.{◌≡◌, ◌<◌, Some, length, slice_get};
ghost use Rattle.point_rule.specs.Sides.{rows_on, occurs_on};

use event_store::EventStore;
use ground_types::{EventId, Point, UnitId};
use layer_cache::Cache;
use span_algebra::UnitRows;

// The query that is computed, or the one before.
#[derive(Clone, Copy)]
pub(crate) enum Side {
    Now,
    Before,
}

impl Side {
    // The rows of a unit.
    pub(crate) fn rows(self, cache: &Cache, unit: UnitId) -> &UnitRows
        requires { unit < length (rows_on self cache.now) }
        ensures { slice_get (rows_on self cache.now) unit ≡ Some result.now }
    {
        match self {
            Side::Now => cache.row(unit),
            Side::Before => cache.old_row(unit),
        }
    }

    // Whether an input event occurs at a point. Searches by halves.
    pub(crate) fn has(self, store: &EventStore, event: EventId, at: Point) -> bool
        ensures { result ≡ occurs_on self store.now event at }
    {
        let stands = store.points(event).has(at);
        match self {
            Side::Now => stands,
            Side::Before => stands != store.changed(event).has(at),
        }
    }
}
