// Whole reports and ground texts, as worked by hand.
use super::{
    FIRST_REPORT, FIRST_RUN, LAMP, MEETING, of_changed_lamp, of_changed_run, of_files, recognised,
};
use std::test::Fail;

// The lamp under the greatest plan.
const FAR: &str = "window(1000000000000).\nstep(1000000000000).\nfrom(4000000000000000).\n\
     input up.\ninput down.\n\
    simple on [true].\ninitiatedAt(on=true) :- happensAt(up).\n\
    terminatedAt(on=true) :- happensAt(down).\n";

// Atoms of two arguments over two domains.
const SHIPS: &str = "window(10).\nstep(5).\ndomain ship [s1, s2].\ndomain area [a, b].\n\
    input up.\ninput leaves(ship, area).\ninput enters(ship, area).\n\
    simple within(ship, area) [true].\nsimple met(ship, ship) [true].\n\
    initiatedAt(within(X, A)=true) :- happensAt(enters(X, A)).\n\
    terminatedAt(within(X, A)=true) :- happensAt(leaves(X, A)).\n\
    initiatedAt(met(X, Y)=true) :- happensAt(enters(X, A)), X \\= Y.\n";

// A fluent with an opening value, one whose layer is below although it is declared later, a derived
// event, a static fluent, and a domain without entities.
const PORT: &str = "window(10).\nstep(5).\ndomain d [p, q].\ndomain none [].\ninput b(d).\n\
simple late(d) [true].\nsimple s(d) [none, some].\nsimple unseen(none) [true].\nderived alarm.\n\
static calm [true].\nterminatedAt(s(Z)=none) :- happensAt(b(Z)).\n\
initiatedAt(late(X)=true) :- happensAt(b(X)), not holdsAt(s(Y)=none), Y \\= X.\n\
initiatedAt(s(p)=some) :- happensAt(b(Y)).\n\
initially(s(X)=some).\ninitially(s(q)=none).\n\
happensAt(alarm) :- happensAt(start(late(q)=true)).\n\
holdsFor(calm=true) :- relative_complement_all(s(p)=none, [s(q)=some, late(p)=true]).\n";

#[test]
fn reports_are_as_worked_by_hand(rt: HostRuntime) -> Result<(), Fail> {
    let rows = [
        (LAMP, FIRST_RUN, FIRST_REPORT),
        // An empty window.
        (
            LAMP,
            "seal\n",
            "0 \nquery 0 window (0,10] evaluations 0\nignored 0\n\
             entries 0 admitted 0 delayed 0 already 0 revoked 0 delayed-revoked 0 \
             unknown 0 forgotten 0\n\
             queries 1 spans 0 points 0 evaluations 0\n",
        ),
        // An initiation beats a termination.
        (
            LAMP,
            "add,1,9,up\nadd,1,9,down\nseal\n",
            "0 \n1 add up 9 admitted\n1 add down 9 admitted\n\
             query 0 window (0,10] evaluations 2\n  on=true (9,open)\nignored 0\n\
             entries 2 admitted 2 delayed 0 already 0 revoked 0 delayed-revoked 0 \
             unknown 0 forgotten 0\n\
             queries 1 spans 1 points 0 evaluations 2\n",
        ),
        // The greatest number that a record may have.
        (
            LAMP,
            "add,1,9999999999999999,up\nseal\n",
            "0 \n1 add up 9999999999999999 admitted\n\
             query 0 window (0,10] evaluations 0\nignored 0\n\
             entries 1 admitted 1 delayed 0 already 0 revoked 0 delayed-revoked 0 \
             unknown 0 forgotten 0\n\
             queries 1 spans 0 points 0 evaluations 0\n",
        ),
        // The greatest borders.
        (
            FAR,
            "add,1,4000000000000000,up\nadd,1,4000000000000001,up\n\
             add,1,4001000000000000,down\nseal\n",
            "0 \n1 add up 4000000000000000 forgotten\n1 add up 4000000000000001 admitted\n\
             1 add down 4001000000000000 admitted\n\
             query 0 window (4000000000000000,4001000000000000] evaluations 2\n\
             \x20 on=true (4000000000000001,4001000000000000]\nignored 0\n\
             entries 3 admitted 2 delayed 0 already 0 revoked 0 delayed-revoked 0 \
             unknown 0 forgotten 1\n\
             queries 1 spans 1 points 0 evaluations 2\n",
        ),
        // Atoms have their arguments.
        (
            SHIPS,
            "add,1,3,enters,s2,a\nadd,2,7,leaves,s2,a\nadd,1,5,enters,s3,a\n\
             add,1,6,enters,s2\nseal\n",
            "0 \n1 add enters(s2,a) 3 admitted\n2 add leaves(s2,a) 7 admitted\n\
             query 0 window (0,10] evaluations 3\n\
             \x20 within(s2,a)=true (3,7]\n  met(s2,s1)=true (3,open)\n\
             ignored 2\n\
             entries 2 admitted 2 delayed 0 already 0 revoked 0 delayed-revoked 0 \
             unknown 0 forgotten 0\n\
             queries 1 spans 2 points 0 evaluations 3\n",
        ),
    ];
    for (description, script, wanted) in rows {
        let found = recognised(&rt, description, script)?;
        assert_eq!(rt; found.as_str(), wanted);
    }
    Ok(())
}

#[test]
fn spaces_comments_and_the_order_of_declarations_are_free(rt: HostRuntime) -> Result<(), Fail> {
    let rows = [
        ("window(10)", "window( 0010 )"),
        ("from(0).\n", ""),
        ("from(0).\n", "from(0).\nqueries(1).\n"),
        ("window(10).\nstep(5).\n", "step(5).\nwindow(10).\n"),
        ("simple on", "simple\t on % a comment\r\n"),
        ("input up.\n", "input up. domain v [].\n"),
        (
            "initiatedAt(on=true) :- happensAt(up).",
            "initiatedAt(on=true):-happensAt(up).",
        ),
        ("happensAt(down).\n", "happensAt(down)."),
        ("input down.\n", "input down.\n% not text: \u{e9}\n"),
    ];
    for (from, to) in rows {
        let found = of_changed_lamp(&rt, from, to, FIRST_RUN)?;
        assert_eq!(rt; found.as_str(), FIRST_REPORT, "{to:?} for {from:?}");
    }
    Ok(())
}

#[test]
fn records_are_read_as_csv_readers_do(rt: HostRuntime) -> Result<(), Fail> {
    let rows = [
        ("add,1,3,up\n", "\nadd,1,3,up\r\n"),
        ("add,1,3,up", "\u{feff}add,1,3,up"),
        ("add,1,3,up", "\"add\",1,\"003\",\"up\""),
        ("seal\n", "seal"),
        ("seal\n", "seal\r"),
    ];
    for (from, to) in rows {
        let found = of_changed_run(&rt, from, to)?;
        assert_eq!(rt; found.as_str(), FIRST_REPORT, "{to:?} for {from:?}");
    }
    Ok(())
}

#[test]
fn ground_texts_are_as_worked_by_hand(rt: HostRuntime) -> Result<(), Fail> {
    // The description, its canonical text, and what follows it.
    let rows = [
        (
            "step(5). window(10).",
            "step(5).\nwindow(10).\n",
            "events 0 units 0 rules 0 layers 0\n",
        ),
        (
            MEETING,
            MEETING,
            "events 1 units 1 rules 0 layers 1\nlayer 1 met(x,x)\n",
        ),
        (
            LAMP,
            LAMP,
            "events 2 units 1 rules 2 layers 1\nlayer 1 on\n\
             \x20 initiatedAt(on=true) :- happensAt(up).\n\
             \x20 terminatedAt(on=true) :- happensAt(down).\n",
        ),
        (
            PORT,
            PORT,
            "events 2 units 6 rules 8 layers 3\n\
             layer 1 s(p)\n\
             \x20 initially(s(p)=some).\n\
             \x20 terminatedAt(s(p)=none) :- happensAt(b(p)).\n\
             \x20 initiatedAt(s(p)=some) :- happensAt(b(p)).\n\
             \x20 initiatedAt(s(p)=some) :- happensAt(b(q)).\n\
             layer 1 s(q)\n\
             \x20 initially(s(q)=none).\n\
             \x20 terminatedAt(s(q)=none) :- happensAt(b(q)).\n\
             layer 2 late(p)\n\
             \x20 initiatedAt(late(p)=true) :- happensAt(b(p)), not holdsAt(s(q)=none).\n\
             layer 2 late(q)\n\
             \x20 initiatedAt(late(q)=true) :- happensAt(b(q)), not holdsAt(s(p)=none).\n\
             layer 3 alarm\n\
             \x20 happensAt(alarm) :- happensAt(start(late(q)=true)).\n\
             layer 3 calm\n\
             \x20 holdsFor(calm=true) :- relative_complement_all(s(p)=none, \
             [s(q)=some, late(p)=true]).\n",
        ),
    ];
    for (description, canonical, rest) in rows {
        let wanted = format!(in rt.alloc(); "0 \n{canonical}{rest}")?;
        let found = of_files(&rt, "ground|desc", description, "")?;
        assert_eq!(rt; found.as_str(), wanted.as_str());
    }
    Ok(())
}
