// Descriptions that are refused.
use super::{FIRST_RUN, Long, MEETING, REPORT, of_changed_lamp, of_files, recognised, written_out};
use std::test::Fail;

// The first rule of the lamp.
const SWITCH: &str = "initiatedAt(on=true) :- happensAt(up).";

// The words of `ground`.
const GROUND: &str = "ground|desc";

#[test]
fn the_first_fault_of_a_text_is_named(rt: HostRuntime) -> Result<(), Fail> {
    let rows = [
        ("input up.", "input up;", "3 description line 4: bad byte\n"),
        (
            "input up.",
            "input up",
            "3 description line 4: bad statement\n",
        ),
        (
            "input up.",
            "input start.",
            "3 description line 4: bad statement\n",
        ),
        // A byte order mark.
        (
            "window(10)",
            "\u{feff}window(10)",
            "3 description line 1: bad byte\n",
        ),
        // A bad byte before a bad statement, and text behind the last dot.
        (
            "input up.",
            "input Up.\n\u{e9}",
            "3 description line 5: bad byte\n",
        ),
        (
            "happensAt(down).",
            "happensAt(down). end",
            "3 description line 8: bad statement\n",
        ),
        // The plan before declarations, these before rules, and the first test of a rule before the
        // others.
        (
            "step(5).\nfrom(0).\ninput up.",
            "step(11).\nfrom(0).\ninput up. input up.",
            "3 description: bad plan\n",
        ),
        (
            "initiatedAt(on=true) :- happensAt(up).\n",
            "initiatedAt(off=true) :- happensAt(up).\ninput up.\n",
            "3 description line 8: twice\n",
        ),
        (
            SWITCH,
            "initiatedAt(up=true) :- holdsAt(off=true), happensAt(on(X)).",
            "3 description line 7: no trigger\n",
        ),
        ("window(10).\n", "", "3 description: bad plan\n"),
        ("step(5)", "step(11)", "3 description: bad plan\n"),
        ("step(5)", "step(0)", "3 description: bad plan\n"),
        (
            "from(0)",
            "from(4000000000000001)",
            "3 description: bad plan\n",
        ),
        ("from(0).", "queries(0).", "3 description: bad plan\n"),
    ];
    for (from, to, wanted) in rows {
        let found = of_changed_lamp(&rt, from, to, FIRST_RUN)?;
        assert_eq!(rt; found.as_str(), wanted, "{to:?}");
    }
    Ok(())
}

#[test]
fn the_first_fault_of_a_declaration_or_a_rule_is_named(rt: HostRuntime) -> Result<(), Fail> {
    let rows = [
        (" [true]", " [true, true]", "3 description line 6: twice\n"),
        ("input down.", "input up.", "3 description line 5: twice\n"),
        (
            "input down.",
            "input down(v).",
            "3 description line 5: undeclared\n",
        ),
        (
            "input down.",
            "input down(v, v, v, v).",
            "3 description line 5: too many\n",
        ),
        (
            SWITCH,
            "initiatedAt(off=true) :- happensAt(up).",
            "3 description line 7: undeclared\n",
        ),
        (
            SWITCH,
            "initiatedAt(on=false) :- happensAt(up).",
            "3 description line 7: undeclared\n",
        ),
        (
            SWITCH,
            "initiatedAt(on=true) :- holdsAt(on=true).",
            "3 description line 7: no trigger\n",
        ),
        (
            SWITCH,
            "initiatedAt(on=true) :- happensAt(on).",
            "3 description line 7: wrong kind\n",
        ),
        (
            SWITCH,
            "initiatedAt(on=true) :- happensAt(up(X)).",
            "3 description line 7: arity\n",
        ),
        (
            SWITCH,
            "initiatedAt(on=true) :- happensAt(up), happensAt(up), happensAt(up), happensAt(up), \
             happensAt(up), \
             happensAt(up), happensAt(up), happensAt(up), happensAt(up).",
            "3 description line 7: too many\n",
        ),
        (
            SWITCH,
            "initially(up=true).",
            "3 description line 7: wrong kind\n",
        ),
        (
            SWITCH,
            "holdsFor(on=true) :- on=true.",
            "3 description line 7: wrong kind\n",
        ),
        (
            SWITCH,
            "happensAt(up) :- happensAt(up).",
            "3 description line 7: wrong kind\n",
        ),
        (
            SWITCH,
            "initiatedAt(on=true) :- X \\= Y, happensAt(off).",
            "3 description line 7: no trigger\n",
        ),
    ];
    for (from, to, wanted) in rows {
        let found = of_changed_lamp(&rt, from, to, FIRST_RUN)?;
        assert_eq!(rt; found.as_str(), wanted, "{to:?}");
    }
    Ok(())
}

#[test]
fn arguments_are_of_their_domains(rt: HostRuntime) -> Result<(), Fail> {
    let rows = [
        ("", "", "3 description: bad plan\n"),
        ("", "% nothing", "3 description: bad plan\n"),
        (
            MEETING,
            "initiatedAt(met(X, X)=true) :- happensAt(near(X, X)), X \\= Z.\n",
            "3 description line 7: loose\n",
        ),
        (
            MEETING,
            "static apart(v, v) [true].\nholdsFor(apart(X, X)=true) :- met(X, Z)=true.\n",
            "3 description line 8: loose\n",
        ),
        (
            MEETING,
            "domain u [x].\ninput far(u).\n\
             initiatedAt(met(X, X)=true) :- happensAt(near(X, X)), not happensAt(far(X)).\n",
            "3 description line 9: clash\n",
        ),
        (
            MEETING,
            "initiatedAt(met(x, y)=true) :- happensAt(near(X, X)).\n",
            "3 description line 7: undeclared\n",
        ),
    ];
    for (front, rest, wanted) in rows {
        let description = format!(in rt.alloc(); "{front}{rest}")?;
        let found = recognised(&rt, description.as_str(), "seal\n")?;
        assert_eq!(rt; found.as_str(), wanted, "{rest:?}");
    }
    Ok(())
}

#[test]
fn cycles_are_faults(rt: HostRuntime) -> Result<(), Fail> {
    let rows = [
        (REPORT, "holdsAt(b=true)"),
        (REPORT, "not holdsAt(a=true)"),
        (GROUND, "holdsAt(b=true)"),
        (GROUND, "not holdsAt(a=true)"),
    ];
    for (words, body) in rows {
        let description = format!(in rt.alloc();
            "window(10).\nstep(5).\ninput up.\nsimple a [true].\nsimple b [true].\n\
             initiatedAt(a=true) :- happensAt(up), {body}.\n\
             initiatedAt(b=true) :- happensAt(up), holdsAt(a=true).\n"
        )?;
        let found = of_files(&rt, words, description.as_str(), "")?;
        assert_eq!(rt;
            found.as_str(),
            "3 description line 4: cyclic\n",
            "{words} {body}"
        );
    }
    Ok(())
}

// Words, how many entities the domain has, what stands behind it, and what comes of it.
#[test]
fn what_exceeds_a_limit_is_refused(rt: HostRuntime) -> Result<(), Fail> {
    // Each assignment has to be looked at, since the words of a pair have to differ.
    let pairs = "].\ninput e(d, d). simple on [true].\n\
        initiatedAt(on=true) :- happensAt(e(X, Y)), X \\= Y.";
    let more = "].\ninput e(d, d). simple on [true].\n\
        initiatedAt(on=true) :- happensAt(e(X, Y)), X \\= Y. \
        input up. terminatedAt(on=true) :- happensAt(up).";
    // A limit is tested before the form is.
    let forms = "].\nsimple p(d, d) [true]. static q [true].";
    let rows = [
        (REPORT, 513, pairs, "5 too large: rules\n"),
        (REPORT, 4097, "].\n", "3 description line 3: too many\n"),
        (
            REPORT,
            300,
            "].\nsimple p(d, d) [true].",
            "5 too large: units\n",
        ),
        (
            REPORT,
            257,
            "].\ninput e(d, d, d).",
            "5 too large: events\n",
        ),
        (
            REPORT,
            129,
            "].\nsimple p(d, d) [true].",
            "5 too large: cells\n",
        ),
        (REPORT, 1024, more, "5 too large: assignments\n"),
        (REPORT, 300, forms, "5 too large: units\n"),
        (GROUND, 4097, "].\n", "3 description line 3: too many\n"),
        (
            GROUND,
            300,
            "].\nsimple p(d, d) [true].",
            "5 too large: units\n",
        ),
        (
            GROUND,
            257,
            "].\ninput e(d, d, d).",
            "5 too large: events\n",
        ),
        (
            GROUND,
            129,
            "].\nsimple p(d, d) [true].",
            "5 too large: cells\n",
        ),
        (GROUND, 1024, more, "5 too large: assignments\n"),
        (GROUND, 300, forms, "5 too large: units\n"),
    ];
    for (words, last, back, wanted) in rows {
        let front = "window(10).\nstep(5).\ndomain d [d1";
        let description = written_out(
            rt.alloc(),
            Long {
                front,
                piece: ",d#",
                last,
                back,
            },
        )?;
        let found = of_files(&rt, words, description.as_str(), "")?;
        assert_eq!(rt; found.as_str(), wanted, "{words} {last} {back}");
    }
    Ok(())
}
