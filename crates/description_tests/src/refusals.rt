// Which texts are refused, and with which fault: a row is what stands behind a beginning (a bar for
// the end of a line), an arrow, and the answer.
use crate::answers::{joined, refusal};
use crate::samples::{LAMP, MEETING, PLAN, PORT};
use std::alloc::Global;
use std::test::Fail;

// The plan: what stands once, and the numbers that are allowed.
const PLANS: &str = "\
step(5).|input up. -> BadPlan
window(10).|input up. -> BadPlan
window(10).|step(11).input up. -> BadPlan
window(10).|step(0).input up. -> BadPlan
window(10).|step(10).input up. -> accepted
window(1000000000000). step(1000000000000). -> accepted
window(1000000000001). step(1). -> BadPlan
window(2). step(2). from(4000000000000000). -> accepted
window(2). step(2). from(4000000000000001). -> BadPlan
window(10).|simple on [true, true]. -> BadPlan";

// Behind a plan on three lines: the plan again, and declarations. Where there are two faults, the
// plan comes first, then in a declaration what it has too many of, then the first declaration.
const DECLARATIONS: &str = "\
step(5). -> BadPlan
window(10). -> BadPlan
from(0). -> BadPlan
queries(1). queries(1). -> BadPlan
queries(0). -> BadPlan
queries(1025). -> BadPlan
queries(1024). -> accepted
input up(v, v, v).|domain v []. -> accepted
input up(v, v, v, v).|domain v []. -> TooMany { line: 4 }
derived up(w).|input w. -> Undeclared { line: 4 }
input up.|domain up []. -> Twice { line: 5 }
domain up [].||static up [true]. -> Twice { line: 6 }
domain v [a, b, a]. -> Twice { line: 4 }
input up.|input down.|simple on [true, true]. -> Twice { line: 6 }
input up(u, u, u, u). -> TooMany { line: 4 }
simple on(u) [true, true]. -> Undeclared { line: 4 }
simple on [true, true].|input up(u, u, u, u). -> Twice { line: 4 }
initially(off=true).|simple on [true, true]. -> Twice { line: 5 }";

// Behind the declarations of a lamp, on line 7.
const LAMP_CASES: &str = "\
initiatedAt(on=true) :- happensAt(up).|terminatedAt(on=true) :- happensAt(down). -> accepted
initiatedAt(off=true) :- happensAt(up). -> Undeclared { line: 7 }
initiatedAt(on=false) :- happensAt(up). -> Undeclared { line: 7 }
initiatedAt(on=true) :- holdsAt(on=true). -> NoTrigger { line: 7 }
initiatedAt(on=true) :- happensAt(on). -> WrongKind { line: 7 }
initiatedAt(on=true) :- happensAt(up(X)). -> Arity { line: 7 }";

// Behind a description with a domain, on line 7.
const MEETING_CASES: &str = "\
initiatedAt(met(X, X)=true) :- happensAt(near(X, X)), X \\= Z. -> Loose { line: 7 }
domain u [x].|input far(u).|\
    initiatedAt(met(X, X)=true) :- happensAt(near(X, X)), \
    not happensAt(far(X)). -> Clash { line: 9 }";

// Behind two domains and a name of each kind, on line 10. Where there are two faults in a
// statement, the first test that fails decides, and else the first statement.
const PORT_CASES: &str = "\
initially(moored(s1, Q)=false). -> accepted
initially(calm=false). -> Undeclared { line: 10 }
initially(busy(q1)=true). -> WrongKind { line: 10 }
initially(ship=true). -> WrongKind { line: 10 }
initially(calm(s1)=true). -> Arity { line: 10 }
initially(moored(q1, q1)=true). -> Undeclared { line: 10 }
initially(moored(X, X)=true). -> Clash { line: 10 }
terminatedAt(calm=true) :- happensAt(start(busy(Q)=true)). -> accepted
terminatedAt(calm=true) :- not happensAt(seen(s1)). -> NoTrigger { line: 10 }
terminatedAt(calm=true) :- X \\= Y, happensAt(seen(X)). -> NoTrigger { line: 10 }
terminatedAt(calm=true) :- happensAt(sails(s1)). -> Undeclared { line: 10 }
terminatedAt(busy(q1)=true) :- happensAt(seen(s1)). -> WrongKind { line: 10 }
terminatedAt(calm=true) :- happensAt(end(seen(s1)=true)). -> WrongKind { line: 10 }
terminatedAt(calm=true) :- happensAt(end(busy(q1)=false)). -> Undeclared { line: 10 }
terminatedAt(calm=true) :- happensAt(lands(S)). -> Arity { line: 10 }
happensAt(seen(S)) :- happensAt(lands(S, Q)), S \\= Q. -> accepted
happensAt(seen(S)) :- holdsAt(calm=true). -> NoTrigger { line: 10 }
happensAt(lands(S, Q)) :- happensAt(seen(S)). -> WrongKind { line: 10 }
happensAt(seen(S)) :- happensAt(seen(S)), holdsAt(seen(S)=true). -> WrongKind { line: 10 }
happensAt(seen(s3)) :- happensAt(seen(s1)). -> Undeclared { line: 10 }
happensAt(seen(S)) :- happensAt(lands(Q, S)). -> Clash { line: 10 }
holdsFor(busy(Q)=true) :- union_all([moored(s1, Q)=true, calm=true]). -> accepted
holdsFor(calm=true) :- moored(s1, q1)=true. -> WrongKind { line: 10 }
holdsFor(busy(Q)=true) :- union_all([seen(s1)=true]). -> WrongKind { line: 10 }
holdsFor(busy(Q)=true) :- union_all([moored(Q)=true]). -> Arity { line: 10 }
holdsFor(busy(Q)=true) :- moored(s1, Q)=low. -> Undeclared { line: 10 }
holdsFor(busy(Q)=true) :- moored(Q, Q)=true. -> Clash { line: 10 }
holdsFor(busy(Q)=true) :- moored(S, Q)=true. -> Loose { line: 10 }
initiatedAt(calm=true) :- A \\= B, A \\= B, A \\= B, A \\= B, \
    A \\= B, A \\= B, A \\= B, A \\= B, A \\= B. -> TooMany { line: 10 }
initiatedAt(storm=true) :- holdsAt(calm=true). -> NoTrigger { line: 10 }
initiatedAt(busy(q1)=true) :- happensAt(sails). -> Undeclared { line: 10 }
initiatedAt(moored(s1)=true) :- happensAt(calm). -> WrongKind { line: 10 }
initiatedAt(calm=false) :- happensAt(lands(S)). -> Arity { line: 10 }
initiatedAt(moored(X, X)=low) :- happensAt(seen(X)). -> Undeclared { line: 10 }
initiatedAt(moored(X, X)=true) :- happensAt(seen(X)), X \\= Y. -> Clash { line: 10 }
initially(calm(s1)=true).|initially(storm=true). -> Arity { line: 10 }";

// The rows whose answer is another, each with what was answered.
fn missed(alloc: Global, start: &str, rows: &str) -> Result<String, Fail> {
    let mut missed = String::new(alloc);
    for row in rows.lines() {
        let (end, wanted) = row.split_once(" -> ").unwrap_or((row, ""));
        let text = joined(alloc, start, end)?;
        let found = refusal(alloc, text.as_str())?;
        if found.as_str() != wanted {
            let line = format!(in alloc; "{row}: {found}\n")?;
            missed.push_str(line.as_str())?;
        }
    }
    Ok(missed)
}

#[test]
fn texts_are_refused_by_the_first_rule_that_they_break(rt: HostRuntime) -> Result<(), Fail> {
    let tables = [
        ("", PLANS),
        (PLAN, DECLARATIONS),
        (LAMP, LAMP_CASES),
        (MEETING, MEETING_CASES),
        (PORT, PORT_CASES),
    ];
    for (start, rows) in tables {
        let missed = missed(rt.alloc(), start, rows)?;
        assert_eq!(rt; missed.as_str(), "");
    }
    Ok(())
}

// A plan on three lines, and 64 domains, one a line.
fn sixty_four_domains(alloc: Global) -> Result<String, Fail> {
    let mut text = String::from_str(alloc, PLAN)?;
    for number in 1..=64 {
        let line = format!(in alloc; "domain d{number} [].\n")?;
        text.push_str(line.as_str())?;
    }
    Ok(text)
}

// Behind 64 domains, on line 68.
const FURTHER: &str = "\
input e. -> accepted
domain e []. -> TooMany { line: 68 }
domain d1 []. -> TooMany { line: 68 }";

#[test]
fn there_are_at_most_64_domains(rt: HostRuntime) -> Result<(), Fail> {
    let start = sixty_four_domains(rt.alloc())?;
    let missed = missed(rt.alloc(), start.as_str(), FURTHER)?;
    assert_eq!(rt; missed.as_str(), "");
    Ok(())
}

// A text with a piece so many times in the middle.
fn repeated(alloc: Global, text: (&str, &str, &str), count: u32) -> Result<String, Fail> {
    let (start, piece, end) = text;
    let mut text = String::from_str(alloc, start)?;
    for _ in 0..count {
        text.push_str(piece)?;
    }
    text.push_str(end)?;
    Ok(text)
}

// What is in a list too often is in it twice, which is tested later.
#[test]
fn lists_have_most_members(rt: HostRuntime) -> Result<(), Fail> {
    let conditions = (
        "initiatedAt(on=true) :- happensAt(up)",
        ", holdsAt(on=true)",
        ".",
    );
    let leaves = (
        "static idle [true].|holdsFor(idle=true) :- union_all([on=true",
        ", on=true",
        "]).",
    );
    let cases = [
        (
            PLAN,
            ("domain v [x", ", x", "]."),
            4095,
            "Twice { line: 4 }",
        ),
        (
            PLAN,
            ("domain v [x", ", x", "]."),
            4096,
            "TooMany { line: 4 }",
        ),
        (PLAN, ("simple on [x", ", x", "]."), 63, "Twice { line: 4 }"),
        (
            PLAN,
            ("simple on [x", ", x", "]."),
            64,
            "TooMany { line: 4 }",
        ),
        (PLAN, ("static on [x", ", x", "]."), 63, "Twice { line: 4 }"),
        (
            PLAN,
            ("static on [x", ", x", "]."),
            64,
            "TooMany { line: 4 }",
        ),
        (LAMP, conditions, 7, "accepted"),
        (LAMP, conditions, 8, "TooMany { line: 7 }"),
        (LAMP, leaves, 63, "accepted"),
        (LAMP, leaves, 64, "TooMany { line: 8 }"),
    ];
    for (start, text, count, wanted) in cases {
        let end = repeated(rt.alloc(), text, count)?;
        let whole = joined(rt.alloc(), start, end.as_str())?;
        let found = refusal(rt.alloc(), whole.as_str())?;
        assert_eq!(rt; found.as_str(), wanted, "{count}");
    }
    Ok(())
}
