// Workloads: what a program of its own writes for the same seeds and sizes.
use super::{LAMP, changed, first_line, of_files};
use std::test::Fail;

// Events over two domains.
const SHIPS: &str = "window(10).\nstep(5).\ndomain ship [s1, s2].\ndomain area [a, b].\n\
    input up.\ninput leaves(ship, area).\ninput enters(ship, area).\n\
    simple within(ship, area) [true].\nsimple met(ship, ship) [true].\n\
    initiatedAt(within(X, A)=true) :- happensAt(enters(X, A)).\n\
    terminatedAt(within(X, A)=true) :- happensAt(leaves(X, A)).\n\
    initiatedAt(met(X, Y)=true) :- happensAt(enters(X, A)), X \\= Y.\n";

// No input events, and three queries.
const STILL: &str = "window(10).\nstep(5).\nqueries(3).\nsimple on [true].\ninitially(on=true).\n";

#[test]
fn workloads_are_those_of_their_seeds(rt: HostRuntime) -> Result<(), Fail> {
    let rows = [
        (
            LAMP,
            "simulate|desc|7|5",
            "0 \nignored 0\n\
             entries 5 admitted 2 delayed 1 already 1 revoked 0 delayed-revoked 0 \
             unknown 0 forgotten 1\n\
             queries 5 spans 1 points 0 evaluations 3\n",
        ),
        (
            LAMP,
            "simulate|desc|7|5|--full",
            "0 \n8 add down 8 admitted\nquery 0 window (0,10] evaluations 1\n\
             8 add down 8 already\nquery 1 window (5,15] evaluations 0\n\
             7 add down 6 forgotten\nquery 2 window (10,20] evaluations 0\n\
             1 add down 18 delayed\nquery 3 window (15,25] evaluations 1\n\
             7 add up 29 admitted\nquery 4 window (20,30] evaluations 1\n\
             \x20 on=true (29,open)\nignored 0\n\
             entries 5 admitted 2 delayed 1 already 1 revoked 0 delayed-revoked 0 \
             unknown 0 forgotten 1\n\
             queries 5 spans 1 points 0 evaluations 3\n",
        ),
        (
            SHIPS,
            "simulate|desc|42|300",
            "0 \nignored 0\n\
             entries 300 admitted 96 delayed 86 already 2 revoked 0 delayed-revoked 0 \
             unknown 0 forgotten 116\n\
             queries 300 spans 1270 points 0 evaluations 253\n",
        ),
        // The greatest seed, more workers, and options that stand before the words.
        (
            SHIPS,
            "simulate|--workers=3|--full|desc|18446744073709551615|4",
            "0 \n1 add up 0 forgotten\nquery 0 window (0,10] evaluations 0\n\
             8 add enters(s2,a) 12 admitted\nquery 1 window (5,15] evaluations 2\n\
             \x20 within(s2,a)=true (12,open)\n  met(s2,s1)=true (12,open)\n\
             1 add enters(s1,a) 11 delayed\nquery 2 window (10,20] evaluations 2\n\
             \x20 within(s1,a)=true (11,open)\n  within(s2,a)=true (12,open)\n\
             \x20 met(s1,s2)=true (11,open)\n  met(s2,s1)=true (12,open)\n\
             8 add leaves(s2,b) 11 forgotten\nquery 3 window (15,25] evaluations 0\n\
             \x20 within(s1,a)=true (15,open)\n  within(s2,a)=true (15,open)\n\
             \x20 met(s1,s2)=true (15,open)\n  met(s2,s1)=true (15,open)\nignored 0\n\
             entries 4 admitted 1 delayed 1 already 0 revoked 0 delayed-revoked 0 \
             unknown 0 forgotten 2\n\
             queries 4 spans 10 points 0 evaluations 4\n",
        ),
        // Without input events there are the seals alone.
        (
            STILL,
            "simulate|desc|5|7|--full",
            "0 \nquery 0 window (0,10] evaluations 0\n  on=true (0,open)\n\
             query 1 window (5,15] evaluations 0\n  on=true (5,open)\n\
             query 2 window (10,20] evaluations 0\n  on=true (10,open)\nignored 0\n\
             entries 0 admitted 0 delayed 0 already 0 revoked 0 delayed-revoked 0 \
             unknown 0 forgotten 0\n\
             queries 3 spans 3 points 0 evaluations 0\n",
        ),
    ];
    for (description, words, wanted) in rows {
        let found = of_files(&rt, words, description, "")?;
        assert_eq!(rt; found.as_str(), wanted);
    }
    Ok(())
}

// Where an event may lie in 1,024 windows.
#[test]
fn sizes_are_bounded(rt: HostRuntime) -> Result<(), Fail> {
    let plan = "window(1024).\nstep(1).";
    let lamp = changed(rt.alloc(), LAMP, "window(10).\nstep(5).", plan)?;
    let still = changed(
        rt.alloc(),
        STILL,
        "window(10).\nstep(5).\nqueries(3).",
        plan,
    )?;
    let rows = [
        (lamp.as_str(), "simulate|desc|1|5", "0 "),
        (
            lamp.as_str(),
            "simulate|desc|1|16385",
            "5 too large: occurrences",
        ),
        // The size counts too where there are no events.
        (
            still.as_str(),
            "simulate|desc|1|16385",
            "5 too large: occurrences",
        ),
        (
            "window(10).\n",
            "simulate|desc|1|5",
            "3 description: bad plan",
        ),
        (LAMP, "simulate|other|1|5", "6 input 0 could not be read"),
    ];
    for (description, words, wanted) in rows {
        let found = of_files(&rt, words, description, "")?;
        assert_eq!(rt; first_line(found.as_str()), wanted);
    }
    Ok(())
}
