// Rows of fluents and points of derived events, as worked by hand: the block of the query.
use super::{FIRST_RUN, Long, changed, of_changed_lamp, recognised, written_out};
use std::test::Fail;

// A fluent of two values.
const GEAR: &str =
    "window(10).\nstep(5).\ninput low_on.\ninput high_on.\nsimple gear [low, high].\n\
    initiatedAt(gear=low) :- happensAt(low_on).\ninitiatedAt(gear=high) :- happensAt(high_on).\n";

// A rule with a condition on another fluent.
const HEATER: &str =
    "window(10).\nstep(5).\ninput up.\ninput hot.\ninput cold.\nsimple on [true].\n\
     simple heat [true].\n\
    initiatedAt(on=true) :- happensAt(up), not holdsAt(heat=true).\n\
    initiatedAt(heat=true) :- happensAt(hot).\nterminatedAt(heat=true) :- happensAt(cold).\n";

// A static fluent over two others.
const IDLE: &str = "window(10).\nstep(5).\ninput up.\ninput hot.\ninput cold.\nsimple on [true].\n\
     simple heat [true].\n\
    static idle [true].\ninitiatedAt(on=true) :- happensAt(up).\n\
    initiatedAt(heat=true) :- happensAt(hot).\nterminatedAt(heat=true) :- happensAt(cold).\n\
    holdsFor(idle=true) :- relative_complement_all(on=true, [heat=true]).\n";

// Declarations behind the rules that name them.
const LATE: &str =
    "window(10).\nstep(5).\ninitiatedAt(lamp=7) :- happensAt(up).\nsimple lamp [7].\ninput up.\n\
    terminatedAt(lamp=7) :- happensAt(down).\nsimple other [end].\ninput down.\n";

// Whether a run ended well and wrote this.
fn shows(said: &str, block: &str) -> bool {
    said.starts_with("0 \n") && said.split_once(block).is_some()
}

#[test]
fn fluents_and_conditions_are_as_worked_by_hand(rt: HostRuntime) -> Result<(), Fail> {
    let rows = [
        // Of two values that are initiated at one point the one declared first counts.
        (
            GEAR,
            "add,1,6,high_on\nadd,1,6,low_on\nseal\n",
            "query 0 window (0,10] evaluations 2\n  gear=low (6,open)\nignored 0\n",
        ),
        // A value breaks the one before it.
        (
            GEAR,
            "add,1,2,low_on\nadd,1,6,high_on\nseal\n",
            "query 0 window (0,10] evaluations 2\n  gear=low (2,6]\n  gear=high (6,open)\n\
             ignored 0\n",
        ),
        // What is outside the window does not count, and what is told twice counts once.
        (
            GEAR,
            "add,1,0,low_on\nadd,1,11,high_on\nadd,1,10,high_on\nadd,2,10,high_on\nseal\n",
            "query 0 window (0,10] evaluations 1\n  gear=high (10,open)\nignored 0\n",
        ),
        // The second condition is looked at where the first happens.
        (
            HEATER,
            "add,1,2,hot\nadd,1,3,up\nadd,1,5,cold\nadd,1,6,up\nseal\n",
            "query 0 window (0,10] evaluations 4\n  on=true (6,open)\n  heat=true (2,5]\n\
             ignored 0\n",
        ),
        // A value that begins at a point does not hold there yet, and one that ends there still
        // does.
        (
            HEATER,
            "add,1,3,hot\nadd,1,3,up\nseal\n",
            "query 0 window (0,10] evaluations 2\n  on=true (3,open)\n  heat=true (3,open)\n\
             ignored 0\n",
        ),
        (
            HEATER,
            "add,1,1,hot\nadd,1,5,cold\nadd,1,5,up\nseal\n",
            "query 0 window (0,10] evaluations 3\n  heat=true (1,5]\nignored 0\n",
        ),
        (
            LATE,
            FIRST_RUN,
            "query 0 window (0,10] evaluations 3\n  lamp=7 (3,7] (9,open)\nignored 0\n",
        ),
    ];
    for (description, script, block) in rows {
        let found = recognised(&rt, description, script)?;
        assert!(rt; shows(found.as_str(), block), "{block} in {found}");
    }
    Ok(())
}

// A part of the lamp's description, what stands in its place, the script and the block.
#[test]
fn derived_events_and_openings_are_as_worked_by_hand(rt: HostRuntime) -> Result<(), Fail> {
    let rows = [
        (
            "happensAt(down).\n",
            "happensAt(down).\nderived alarm.\nhappensAt(alarm) :- happensAt(start(on=true)).\n",
            FIRST_RUN,
            "query 0 window (0,10] evaluations 5\n  on=true (3,7] (9,open)\n  alarm 3 9\n\
             ignored 0\n",
        ),
        // An end at the right border.
        (
            "happensAt(down).\n",
            "happensAt(down).\nderived off.\nhappensAt(off) :- happensAt(end(on=true)).\n",
            "add,1,3,up\nadd,1,10,down\nseal\n",
            "query 0 window (0,10] evaluations 3\n  on=true (3,10]\n  off 10\nignored 0\n",
        ),
        // A value that is carried in does not start.
        (
            "happensAt(down).\n",
            "happensAt(down).\ninitially(on=true).\nderived alarm.\n\
             happensAt(alarm) :- happensAt(start(on=true)).\n",
            "add,1,7,down\nseal\n",
            "query 0 window (0,10] evaluations 1\n  on=true (0,7]\nignored 0\n",
        ),
        (
            "happensAt(down).\n",
            "happensAt(down).\ninitially(on=true).\n",
            "seal\n",
            "query 0 window (0,10] evaluations 0\n  on=true (0,open)\nignored 0\n",
        ),
        // Two values of a static fluent may hold together.
        (
            "simple on [true].",
            "static lit [dim, bright].\nholdsFor(lit=bright) :- on=true.\n\
             holdsFor(lit=dim) :- union_all([on=true]).\n\
             simple on [true].",
            FIRST_RUN,
            "  lit=dim (3,7] (9,open)\n  lit=bright (3,7] (9,open)\n  on=true (3,7] (9,open)\n\
             ignored 0\n",
        ),
        // A rule of eight conditions, three of them on a fluent without rules.
        (
            "initiatedAt(on=true) :- happensAt(up).",
            "simple far [a, b].\n\
             initiatedAt(on=true) :- happensAt(up), not happensAt(down), not holdsAt(far=a),\n\
             not happensAt(start(far=b)), not happensAt(end(far=a)), not holdsAt(far=b), \
             happensAt(up),\n\
             not happensAt(down).",
            "add,1,3,up\nadd,1,3,down\nadd,1,5,up\nseal\n",
            "query 0 window (0,10] evaluations 3\n  on=true (5,open)\nignored 0\n",
        ),
    ];
    for (from, to, script, block) in rows {
        let found = of_changed_lamp(&rt, from, to, script)?;
        assert!(rt; shows(found.as_str(), block), "{block} in {found}");
    }
    Ok(())
}

#[test]
fn static_fluents_are_as_worked_by_hand(rt: HostRuntime) -> Result<(), Fail> {
    let script = "add,1,2,up\nadd,1,4,hot\nadd,1,6,cold\nseal\n";
    let rows = [
        (
            "relative_complement_all(on=true, [heat=true])",
            "on=true (2,open)\n  heat=true (4,6]\n  idle=true (2,4] (6,open)\nignored 0\n",
        ),
        (
            "intersect_all([on=true, heat=true])",
            "on=true (2,open)\n  heat=true (4,6]\n  idle=true (4,6]\nignored 0\n",
        ),
        (
            "union_all([heat=true, on=true])",
            "on=true (2,open)\n  heat=true (4,6]\n  idle=true (2,open)\nignored 0\n",
        ),
        (
            "relative_complement_all(on=true, [on=true])",
            "on=true (2,open)\n  heat=true (4,6]\nignored 0\n",
        ),
        (
            "union_all([relative_complement_all(on=true, [heat=true]), \
             intersect_all([heat=true])])",
            "on=true (2,open)\n  heat=true (4,6]\n  idle=true (2,open)\nignored 0\n",
        ),
    ];
    for (expression, lines) in rows {
        let from = "relative_complement_all(on=true, [heat=true])";
        let description = changed(rt.alloc(), IDLE, from, expression)?;
        let found = recognised(&rt, description.as_str(), script)?;
        let wanted = format!(in rt.alloc(); "query 0 window (0,10] evaluations 3\n  {lines}")?;
        assert!(rt;
            shows(found.as_str(), wanted.as_str()),
            "{expression}: {found}"
        );
    }
    Ok(())
}

#[test]
fn the_largest_forms_are_as_worked_by_hand(rt: HostRuntime) -> Result<(), Fail> {
    // 64 values of a fluent.
    let values = Long {
        front: "window(10). step(5). input up. input down. simple level [v1",
        piece: ",v#",
        last: 64,
        back: "]. initially(level=v63).\n\
            initiatedAt(level=v64) :- happensAt(up). initiatedAt(level=v2) :- happensAt(down).\n",
    };
    // 60 layers.
    let layers = Long {
        front: "window(10). step(5). input up. derived e1. happensAt(e1) :- happensAt(up).\n",
        piece: "derived e#. happensAt(e#) :- happensAt(e@).\n",
        last: 60,
        back: "",
    };
    // An expression of 64 fluent-values, and one of eight constructs in one another.
    let expressions = Long {
        front: "window(10). step(5). input up. input down. simple on [true].\n\
            initiatedAt(on=true) :- happensAt(up). terminatedAt(on=true) :- happensAt(down).\n\
            static many [true]. holdsFor(many=true) :- intersect_all([on=true",
        piece: ",on=true",
        last: 64,
        back: "]).\nstatic deep [true]. holdsFor(deep=true) :- \
            union_all([union_all([union_all([union_all([union_all([union_all([union_all(\
            [union_all([on=true\
            ])])])])])])])]).\n",
    };
    let rows = [
        (
            values,
            "add,1,3,up\nadd,1,5,up\nadd,1,5,down\nseal\n",
            "query 0 window (0,10] evaluations 3\n  level=v2 (5,open)\n  level=v63 (0,3]\n\
             \x20 level=v64 (3,5]\nignored 0\n",
        ),
        (
            layers,
            "add,1,3,up\nseal\n",
            "  e59 3\n  e60 3\nignored 0\n",
        ),
        (
            layers,
            "add,1,3,up\nseal\n",
            "queries 1 spans 0 points 60 evaluations 60\n",
        ),
        (
            expressions,
            FIRST_RUN,
            "  on=true (3,7] (9,open)\n  many=true (3,7] (9,open)\n  deep=true (3,7] (9,open)\n\
             ignored 0\n",
        ),
    ];
    for (long, script, block) in rows {
        let description = written_out(rt.alloc(), long)?;
        let found = recognised(&rt, description.as_str(), script)?;
        assert!(rt; shows(found.as_str(), block), "{block} in {found}");
    }
    Ok(())
}
