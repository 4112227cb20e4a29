// What no clause says: that calls succeed with ample memory, and what stands, has changed and is
// read out after a row of them.
ghost use Rattle.std.specs.Prelude.{◌≡◌, length, OnOk};

use crate::{Ahead, EventStore, Told};
use std::alloc::Global;
use std::test::Fail;

// An event is told at a point.
fn on(event: u32, at: u64) -> Told {
    Told {
        event,
        at,
        stands: true,
    }
}

// An event is revoked at a point.
fn off(event: u32, at: u64) -> Told {
    Told {
        event,
        at,
        stands: false,
    }
}

// One call of a store.
#[derive(Clone, Copy)]
enum Call {
    Add(u32, u64),
    Revoke(u32, u64),
    Slide(u64),
    Settle,
}

// Makes a call, and says what it answered.
fn made(store: &mut EventStore, call: Call) -> Result<bool, Fail> {
    match call {
        Call::Add(event, at) => Ok(store.add(event, at)?),
        Call::Revoke(event, at) => Ok(store.revoke(event, at)?),
        Call::Slide(w) => {
            store.slide(w);
            Ok(true)
        }
        Call::Settle => {
            store.settle();
            Ok(true)
        }
    }
}

// Where an event stands, and what changed of it.
fn shown(alloc: Global, store: &EventStore, event: u32) -> Result<String, Fail> {
    let points = store.points(event).as_slice();
    let changed = store.changed(event).as_slice();
    Ok(format!(in alloc; "{points:?} {changed:?}")?)
}

// What the last of some calls answered, where the event stands after them, and what changed of it.
fn told(alloc: Global, mut store: EventStore, calls: &[Call], event: u32) -> Result<String, Fail> {
    let mut last = true;
    for call in calls {
        last = made(&mut store, *call)?;
    }
    let text = shown(alloc, &store, event)?;
    Ok(format!(in alloc; "{last} {text}")?)
}

#[test]
fn events_stand_where_they_were_added(rt: HostRuntime) -> Result<(), Fail> {
    use Call::{Add, Revoke};
    let mixed = [Add(7, 20), Add(3, 5), Add(7, 10), Add(7, 20)];
    let rows = [
        // Each point once, in order, whatever the order of the adds.
        (mixed.as_slice(), 7, "false [10, 20] [10, 20]"),
        (mixed.as_slice(), 3, "false [5] [5]"),
        (
            &[Add(7, 20), Add(7, 20), Add(7, 21)],
            7,
            "true [20, 21] [20, 21]",
        ),
        (
            &[Add(7, 20), Add(7, 21), Add(8, 20)],
            7,
            "true [20, 21] [20, 21]",
        ),
        // An event that was not added stands nowhere.
        (&[Revoke(0, 20)], 0, "false [] []"),
        (&[Add(7, 20)], 20, "true [] []"),
    ];
    for (calls, event, wanted) in rows {
        let found = told(rt.alloc(), EventStore::new(rt.alloc()), calls, event)?;
        assert_eq!(rt; found.as_str(), wanted);
    }
    Ok(())
}

// A store that was settled with event 7 at 3 and 9.
fn settled(alloc: Global) -> Result<EventStore, Fail> {
    let mut store = EventStore::new(alloc);
    store.add(7, 9)?;
    store.add(7, 3)?;
    store.settle();
    Ok(store)
}

#[test]
fn what_changed_is_known_until_it_is_turned_back(rt: HostRuntime) -> Result<(), Fail> {
    use Call::{Add, Revoke, Settle, Slide};
    let rows = [
        ([Settle].as_slice(), "true [3, 9] []"),
        // A point that is told late, and one that is taken back, and told again.
        (&[Add(7, 5)], "true [3, 5, 9] [5]"),
        (&[Add(7, 5), Revoke(7, 3)], "true [5, 9] [3, 5]"),
        (&[Add(7, 5), Revoke(7, 3), Add(7, 3)], "true [3, 5, 9] [5]"),
        // What does not stand is not revoked.
        (&[Revoke(7, 4)], "false [3, 9] []"),
        (&[Revoke(8, 3)], "false [3, 9] []"),
        (&[Revoke(7, 3)], "true [9] [3]"),
        (&[Revoke(7, 3), Revoke(7, 3)], "false [9] [3]"),
        // The point at which a slide ends goes, and the next one stays, changed or not.
        (&[Add(7, 4), Revoke(7, 3), Slide(3)], "true [4, 9] [4]"),
        (&[Add(7, 4), Revoke(7, 3), Slide(3), Slide(9)], "true [] []"),
        // An event that stands nowhere is kept while it has changed.
        (&[Slide(3), Revoke(7, 9), Slide(4)], "true [] [9]"),
        (&[Slide(9), Add(7, 12)], "true [12] [12]"),
    ];
    for (calls, wanted) in rows {
        let found = told(rt.alloc(), settled(rt.alloc())?, calls, 7)?;
        assert_eq!(rt; found.as_str(), wanted);
    }
    Ok(())
}

// What a settled store has of events 7 and 8 after some words.
fn after(alloc: Global, words: &[Told]) -> Result<String, Fail> {
    let mut store = settled(alloc)?;
    store.tell_all(words)?;
    let one = shown(alloc, &store, 7)?;
    let two = shown(alloc, &store, 8)?;
    Ok(format!(in alloc; "{one}; {two}")?)
}

#[test]
fn the_last_word_on_a_point_counts(rt: HostRuntime) -> Result<(), Fail> {
    let rows = [
        ([].as_slice(), "[3, 9] []; [] []"),
        // Rising and falling.
        (&[on(7, 1), on(7, 5)], "[1, 3, 5, 9] [1, 5]; [] []"),
        (&[on(7, 5), on(7, 1)], "[1, 3, 5, 9] [1, 5]; [] []"),
        // A point that stands is told again, and one that does not is revoked.
        (&[on(7, 9), off(7, 4), off(8, 4)], "[3, 9] []; [] []"),
        // More than one word on a point.
        (&[off(7, 3), on(7, 3)], "[3, 9] []; [] []"),
        (&[on(7, 3), off(7, 3)], "[9] [3]; [] []"),
        (&[on(7, 5), off(7, 5)], "[3, 9] []; [] []"),
        (&[off(7, 5), on(7, 5)], "[3, 5, 9] [5]; [] []"),
        // More than one event, by turns.
        (&[on(8, 4), off(7, 9), on(8, 2)], "[3] [9]; [2, 4] [2, 4]"),
    ];
    for (words, wanted) in rows {
        let found = after(rt.alloc(), words)?;
        assert_eq!(rt; found.as_str(), wanted);
    }
    Ok(())
}

// What is read out of a window where event 7 was told before 2 and 5.
fn read(alloc: Global, w: u64, q: u64) -> Result<String, Fail> {
    let mut store = settled(alloc)?;
    store.tell_all(&[on(5, 4), on(2, 12), on(2, 5), on(8, 4), off(8, 4)])?;
    let found = store.occurrences(w, q)?;
    Ok(format!(in alloc; "{found:?}")?)
}

#[test]
fn events_are_read_out_in_order(rt: HostRuntime) -> Result<(), Fail> {
    let rows = [
        (
            2,
            9,
            "[Occ { event: 2, at: 5 }, Occ { event: 5, at: 4 }, Occ { event: 7, at: 3 }, \
             Occ { event: 7, at: 9 }]",
        ),
        (4, 9, "[Occ { event: 2, at: 5 }, Occ { event: 7, at: 9 }]"),
        (12, 20, "[]"),
    ];
    for (w, q, wanted) in rows {
        let found = read(rt.alloc(), w, q)?;
        assert_eq!(rt; found.as_str(), wanted);
    }
    Ok(())
}

// Puts two words into the second of two lists, and one into the first.
fn put_some(ahead: &mut Ahead) -> Result<(), Fail>
    requires { length ahead.old ≡ 2 }
    ensures { OnOk result (length ahead.new ≡ 2) }
{
    ahead.put(1, on(7, 3))?;
    ahead.put(0, on(8, 1))?;
    ahead.put(1, off(7, 3))?;
    Ok(())
}

#[test]
fn words_wait_for_their_query(rt: HostRuntime) -> Result<(), Fail> {
    let mut ahead = Ahead::new(rt.alloc(), 2)?;
    put_some(&mut ahead)?;
    let waiting = ahead.told(1).len();
    ahead.clear(1);
    let first = ahead.told(0);
    let second = ahead.told(1);
    let found = format!(in rt.alloc(); "{waiting} {first:?} {second:?}")?;
    assert_eq!(rt;
        found.as_str(),
        "2 [Told { event: 8, at: 1, stands: true }] []"
    );
    Ok(())
}
