// Reports of scripts that tell of what lies in earlier windows or in later ones, as worked by hand.
use super::{LAMP, changed, recognised};
use std::test::Fail;

// A fluent whose rule has a condition on the layer below, and a static fluent above both.
const LAYERED: &str = "window(10).\nstep(5).\ninput up.\ninput hot.\ninput cold.\n\
    simple on [true].\nsimple heat [true].\nstatic idle [true].\n\
    initiatedAt(on=true) :- happensAt(up), not holdsAt(heat=true).\n\
    initiatedAt(heat=true) :- happensAt(hot).\nterminatedAt(heat=true) :- happensAt(cold).\n\
    holdsFor(idle=true) :- relative_complement_all(on=true, [heat=true]).\n";

#[test]
fn late_and_early_events_are_as_worked_by_hand(rt: HostRuntime) -> Result<(), Fail> {
    let rows = [
        // A late insertion.
        (
            "add,1,3,up\nadd,1,7,down\nadd,1,9,up\nseal\nadd,2,5,up\nadd,2,6,up\nseal\n",
            "0 \n1 add up 3 admitted\n1 add down 7 admitted\n1 add up 9 admitted\n\
             query 0 window (0,10] evaluations 3\n  on=true (3,7] (9,open)\n\
             2 add up 5 forgotten\n2 add up 6 delayed\n\
             query 1 window (5,15] evaluations 1\n  on=true (5,7] (9,open)\nignored 0\n\
             entries 5 admitted 3 delayed 1 already 0 revoked 0 delayed-revoked 0 \
             unknown 0 forgotten 1\n\
             queries 2 spans 4 points 0 evaluations 4\n",
        ),
        // A late revocation.
        (
            "add,1,3,up\nadd,1,7,down\nadd,1,9,up\nseal\nrevoke,1,7,down\nseal\n",
            "0 \n1 add up 3 admitted\n1 add down 7 admitted\n1 add up 9 admitted\n\
             query 0 window (0,10] evaluations 3\n  on=true (3,7] (9,open)\n\
             1 revoke down 7 delayed-revoked\n\
             query 1 window (5,15] evaluations 0\n  on=true (5,open)\nignored 0\n\
             entries 4 admitted 3 delayed 0 already 0 revoked 0 delayed-revoked 1 \
             unknown 0 forgotten 0\n\
             queries 2 spans 3 points 0 evaluations 3\n",
        ),
        // An event that is told twice.
        (
            "add,1,3,up\nadd,1,7,down\nadd,1,9,up\nadd,1,3,up\nseal\n",
            "0 \n1 add up 3 admitted\n1 add down 7 admitted\n1 add up 9 admitted\n\
             1 add up 3 already\n\
             query 0 window (0,10] evaluations 3\n  on=true (3,7] (9,open)\nignored 0\n\
             entries 4 admitted 3 delayed 0 already 1 revoked 0 delayed-revoked 0 \
             unknown 0 forgotten 0\n\
             queries 1 spans 2 points 0 evaluations 3\n",
        ),
        // An event that is revoked before the seal.
        (
            "add,1,3,up\nadd,1,7,down\nadd,1,9,up\nrevoke,1,9,up\nseal\n",
            "0 \n1 add up 3 admitted\n1 add down 7 admitted\n1 add up 9 admitted\n\
             1 revoke up 9 revoked\n\
             query 0 window (0,10] evaluations 2\n  on=true (3,7]\nignored 0\n\
             entries 4 admitted 3 delayed 0 already 0 revoked 1 delayed-revoked 0 \
             unknown 0 forgotten 0\n\
             queries 1 spans 1 points 0 evaluations 2\n",
        ),
        // What does not stand, and what lies before the window; the script ends without a seal.
        (
            "revoke,1,4,up\nseal\nrevoke,1,5,up\nadd,1,11,up\n",
            "0 \n1 revoke up 4 unknown\nquery 0 window (0,10] evaluations 0\n\
             1 revoke up 5 forgotten\n1 add up 11 admitted\nignored 0\n\
             entries 3 admitted 1 delayed 0 already 0 revoked 0 delayed-revoked 0 \
             unknown 1 forgotten 1\n\
             queries 1 spans 0 points 0 evaluations 0\n",
        ),
        // An event ahead of its window.
        (
            "add,1,20,up\nseal\nseal\nseal\n",
            "0 \n1 add up 20 admitted\nquery 0 window (0,10] evaluations 0\n\
             query 1 window (5,15] evaluations 0\n\
             query 2 window (10,20] evaluations 1\n  on=true (20,open)\nignored 0\n\
             entries 1 admitted 1 delayed 0 already 0 revoked 0 delayed-revoked 0 \
             unknown 0 forgotten 0\n\
             queries 3 spans 1 points 0 evaluations 1\n",
        ),
        // An empty script.
        (
            "",
            "0 \nignored 0\n\
             entries 0 admitted 0 delayed 0 already 0 revoked 0 delayed-revoked 0 \
             unknown 0 forgotten 0\n\
             queries 0 spans 0 points 0 evaluations 0\n",
        ),
    ];
    for (script, wanted) in rows {
        let found = recognised(&rt, LAMP, script)?;
        assert_eq!(rt; found.as_str(), wanted, "{script:?}");
    }
    Ok(())
}

// A part of a description, what stands in its place, the script and the report.
#[test]
fn windows_in_a_row_are_as_worked_by_hand(rt: HostRuntime) -> Result<(), Fail> {
    let rows = [
        // What holds at a left border is carried over it.
        (
            LAMP,
            "step(5)",
            "step(10)",
            "add,1,10,up\nseal\nseal\n",
            "0 \n1 add up 10 admitted\n\
             query 0 window (0,10] evaluations 1\n  on=true (10,open)\n\
             query 1 window (10,20] evaluations 0\n  on=true (10,open)\nignored 0\n\
             entries 1 admitted 1 delayed 0 already 0 revoked 0 delayed-revoked 0 \
             unknown 0 forgotten 0\n\
             queries 2 spans 2 points 0 evaluations 1\n",
        ),
        // Starts of a fluent are events.
        (
            LAMP,
            "happensAt(down).\n",
            "happensAt(down).\nderived alarm.\nhappensAt(alarm) :- happensAt(start(on=true)).\n",
            "add,1,3,up\nadd,1,7,down\nadd,1,9,up\nseal\nseal\n",
            "0 \n1 add up 3 admitted\n1 add down 7 admitted\n1 add up 9 admitted\n\
             query 0 window (0,10] evaluations 5\n  on=true (3,7] (9,open)\n  alarm 3 9\n\
             query 1 window (5,15] evaluations 0\n  on=true (5,7] (9,open)\n  alarm 9\n\
             ignored 0\n\
             entries 3 admitted 3 delayed 0 already 0 revoked 0 delayed-revoked 0 \
             unknown 0 forgotten 0\n\
             queries 2 spans 4 points 3 evaluations 5\n",
        ),
        // What a late event changes in one layer is seen in those above it.
        (
            LAYERED,
            "step(5).",
            "step(5).",
            "add,1,8,up\nseal\nadd,2,6,hot\nseal\n",
            "0 \n1 add up 8 admitted\n\
             query 0 window (0,10] evaluations 1\n  on=true (8,open)\n  idle=true (8,open)\n\
             2 add hot 6 delayed\n\
             query 1 window (5,15] evaluations 2\n  heat=true (6,open)\nignored 0\n\
             entries 2 admitted 1 delayed 1 already 0 revoked 0 delayed-revoked 0 \
             unknown 0 forgotten 0\n\
             queries 2 spans 3 points 0 evaluations 3\n",
        ),
    ];
    for (text, from, to, script, wanted) in rows {
        let description = changed(rt.alloc(), text, from, to)?;
        let found = recognised(&rt, description.as_str(), script)?;
        assert_eq!(rt; found.as_str(), wanted, "{to:?}");
    }
    Ok(())
}
