// Texts that are read, refused, printed and copied.
use crate::{
    ReadRefused, Statement, meaning_is_read, one_form, one_reading, print, put_form, read,
    reading_means,
};
use std::alloc::Global;
use std::test::Fail;

// Each form, with its parts apart, leading zeros and comments.
const ALL_FORMS: &str = "% a description
window(0010). step(5).from( 0 ) . queries(3).
domain v[ x,2y ]. % ? is passed over
domain none [].
input up.
input near(v,v)\r
.
simple on ( v ) [true,low].\tstatic idle[true].
derived seen(v).
initially ( on(x) = true ).
initiatedAt(on(X)=true):-happensAt(near(X,Y)),X\\=Y,not holdsAt(on(2y)=low).
terminatedAt(on(X)=true) :-
    happensAt(start(idle=true)), % and
    not happensAt(end(on(X)=low)).
happensAt(seen(X)) :- happensAt(up), holdsAt(on(X)=true).
holdsFor(idle=true):-relative_complement_all(union_all([on(x)=true,on(2y)=low]),\
    [intersect_all([on(x)=low])]).";

const ALL_FORMS_PRINTED: &str = "window(10).
step(5).
from(0).
queries(3).
domain v [x, 2y].
domain none [].
input up.
input near(v, v).
simple on(v) [true, low].
static idle [true].
derived seen(v).
initially(on(x)=true).
initiatedAt(on(X)=true) :- happensAt(near(X, Y)), X \\= Y, not holdsAt(on(2y)=low).
terminatedAt(on(X)=true) :- happensAt(start(idle=true)), not happensAt(end(on(X)=low)).
happensAt(seen(X)) :- happensAt(up), holdsAt(on(X)=true).
holdsFor(idle=true) :- relative_complement_all(union_all([on(x)=true, on(2y)=low]), \
    [intersect_all([on(x)=low])]).
";

const VESSEL_RULES: &str = "input enters(vessel, area).
input leaves(vessel, area).
input stops(vessel).
input moves(vessel).
simple within(vessel, area) [true].
simple stopped(vessel) [true].
static anchored(vessel, area) [true].
initiatedAt(within(X, A)=true) :- happensAt(enters(X, A)).
terminatedAt(within(X, A)=true) :- happensAt(leaves(X, A)).
initiatedAt(stopped(X)=true) :- happensAt(stops(X)).
terminatedAt(stopped(X)=true) :- happensAt(moves(X)).
holdsFor(anchored(X, A)=true) :- intersect_all([within(X, A)=true, stopped(X)=true]).
";

// Texts that are read, and how many statements they have.
const READ: [(&str, usize); 10] = [
    ("", 0),
    ("% nothing is said", 0),
    ("\tinput\tup\r.\r\n% to the end", 1),
    ("input up. % ?\n", 1),
    ("domain v []. domain w [end].", 2),
    ("window(1234567890123456).", 1),
    ("happensAt(a) :- not happensAt(start(b=c)).", 1),
    ("input a.input b.\ninput c\n.", 3),
    ("happensAt(a):-X\\=Y.", 1),
    ("holdsFor(a=b) :- c=d.", 1),
];

// Texts that have no form, parted by bars.
const UNFORMED: &str = "input up|. |input up. x|input : up.|input - up.|input \\ up.|input up:-.|\
    happensAt(a) : - happensAt(b).|happensAt(a) :- X \\ = Y.|\
    input start.|input Up.|input _up.|input 2up.|domain v [_x].|domain v [X].|\
    initially(on(x)=Y).|happensAt(a) :- X \\= y.|\
    window(12345678901234567).|window(00000000000000001).|window().|window(1x).|\
    simple on [].|domain v [x,].|input up().|happensAt(a) :- .|happensAt(a) :- happensAt(b),.|\
    holdsFor(a=b) :- union_all([]).|happensAt(a) :- not not happensAt(b).|\
    happensAt(a) :- not X \\= Y.|happensAt(a) :- happensAt(start(b)).|\
    holdsFor(a=b) :- happensAt(c).|initiatedAt(a=b).";

// The parts of texts that are read, or refused where the part stands once more.
const BOUNDS: [(&str, &str, usize, &str, &str); 5] = [
    ("input ", "a", 64, "", ""),
    ("domain v [", "2", 64, "]", ""),
    ("happensAt(a) :- X \\= ", "Y", 64, "", ""),
    ("holdsFor(a=b) :- ", "union_all([", 8, "c=d", "])"),
    (
        "holdsFor(a=b) :- ",
        "relative_complement_all(",
        8,
        "c=d",
        ",[c=d])",
    ),
];

// What is printed of a text.
fn printed(alloc: Global, text: &str) -> Result<String, Fail> {
    let syntax = read(alloc, text.as_bytes())?;
    Ok(print(alloc, &syntax)?)
}

// A domain whose entities have this letter and the numbers from 1 on.
fn put_domain(
    alloc: Global,
    out: &mut String,
    name: &str,
    letter: &str,
    count: u32,
) -> Result<(), Fail> {
    let front = format!(in alloc; "domain {name} [{letter}1")?;
    out.push_str(front.as_str())?;
    for number in 2..=count {
        let entity = format!(in alloc; ", {letter}{number}")?;
        out.push_str(entity.as_str())?;
    }
    out.push_str("].\n")?;
    Ok(())
}

// A text in which two parts stand so many times on both sides of its middle.
fn nested(
    alloc: Global,
    front: &str,
    part: &str,
    count: usize,
    middle: &str,
    closing: &str,
) -> Result<String, Fail> {
    let mut text = front.to_string(alloc)?;
    for _ in 0..count {
        text.push_str(part)?;
    }
    text.push_str(middle)?;
    for _ in 0..count {
        text.push_str(closing)?;
    }
    text.push_str(".")?;
    Ok(text)
}

// The line of a copy of the statement; 0 where memory ran out.
fn line_of_copy(alloc: Global, statement: &Statement) -> u32 {
    match statement.copy(alloc) {
        Ok(copied) => copied.line,
        Err(_) => 0,
    }
}

#[test]
fn each_text_has_its_canonical_text(rt: HostRuntime) -> Result<(), Fail> {
    let cases = [("% nothing is said", ""), (ALL_FORMS, ALL_FORMS_PRINTED)];
    for (text, want) in cases {
        let found = printed(rt.alloc(), text)?;
        assert_eq!(rt; found.as_str(), want);
    }
    Ok(())
}

#[test]
fn canonical_texts_are_printed_as_they_stand(rt: HostRuntime) -> Result<(), Fail> {
    let alloc = rt.alloc();
    let cases = [
        (
            "a lamp",
            "window(10).\nstep(5).\nfrom(0).\ninput up.\ninput down.\nsimple on [true].\n\
             initiatedAt(on=true) :- happensAt(up).\nterminatedAt(on=true) :- happensAt(down).\n",
        ),
        (
            "a gear",
            "window(10).\nstep(5).\ninput low_on.\ninput high_on.\nsimple gear [low, high].\n\
             initiatedAt(gear=low) :- happensAt(low_on).\n\
             initiatedAt(gear=high) :- happensAt(high_on).\n",
        ),
        (
            "a heater",
            "window(10).\nstep(5).\ninput up.\ninput hot.\ninput cold.\nsimple on [true].\n\
             simple heat [true].\nstatic idle [true].\n\
             initiatedAt(on=true) :- happensAt(up), not holdsAt(heat=true).\n\
             initiatedAt(heat=true) :- happensAt(hot).\n\
             terminatedAt(heat=true) :- happensAt(cold).\n\
             holdsFor(idle=true) :- relative_complement_all(on=true, [heat=true]).\n",
        ),
        (
            "a cycle",
            "window(10).\nstep(5).\ninput up.\nsimple a [true].\nsimple b [true].\n\
             initiatedAt(a=true) :- happensAt(up), holdsAt(b=true).\n\
             initiatedAt(b=true) :- happensAt(up), holdsAt(a=true).\n",
        ),
        (
            "a meeting",
            "window(10).\nstep(5).\ndomain v [x].\ninput near(v, v).\nsimple met(v, v) [true].\n\
             initiatedAt(met(X, Y)=true) :- happensAt(near(X, Y)), X \\= Y.\n",
        ),
        ("each form", ALL_FORMS_PRINTED),
    ];
    for (name, text) in cases {
        let found = printed(alloc, text)?;
        assert_eq!(rt; found.as_str(), text, "{name}");
    }
    let mut vessels = "window(1200).\nstep(600).\nfrom(1443650400).\nqueries(48).\n".to_string(
        alloc,
    )?;
    put_domain(alloc, &mut vessels, "vessel", "v", 200)?;
    put_domain(alloc, &mut vessels, "area", "a", 5)?;
    vessels.push_str(VESSEL_RULES)?;
    let found = printed(alloc, vessels.as_str())?;
    assert_eq!(rt; found.as_str(), vessels.as_str(), "vessels");
    Ok(())
}

#[test]
fn a_line_is_put_behind_what_there_is(rt: HostRuntime) -> Result<(), Fail> {
    let alloc = rt.alloc();
    let syntax = read(alloc, b"input up. simple on(v)[true,low].")?;
    let mut out = b"  ".to_vec(alloc)?;
    for statement in syntax.statements.as_slice() {
        put_form(alloc, &mut out, &statement.form)?;
    }
    assert_eq!(rt;
        out.as_slice(),
        b"  input up.\nsimple on(v) [true, low].\n".as_slice()
    );
    Ok(())
}

#[test]
fn texts_are_read(rt: HostRuntime) -> Result<(), Fail> {
    for (text, count) in READ {
        let syntax = read(rt.alloc(), text.as_bytes())?;
        assert_eq!(rt; syntax.statements.as_slice().len(), count, "{text:?}");
    }
    let syntax = read(rt.alloc(), b"% \xff\xfe ? ; {\ninput up.")?;
    assert_eq!(rt; syntax.statements.as_slice().len(), 1);
    Ok(())
}

#[test]
fn statements_of_another_form_refuse(rt: HostRuntime) {
    let unformed = Some(ReadRefused::BadStatement { line: 1 });
    for text in UNFORMED.split('|') {
        let found = read(rt.alloc(), text.as_bytes()).err();
        assert_eq!(rt; found, unformed, "{text:?}");
    }
}

#[test]
fn the_first_fault_refuses_with_its_line(rt: HostRuntime) {
    let cases = [
        ("input up;", Some(ReadRefused::BadByte { line: 1 })),
        ("input up.\r\n\n?", Some(ReadRefused::BadByte { line: 3 })),
        (
            "input step.\ninput ?.",
            Some(ReadRefused::BadByte { line: 2 }),
        ),
        ("input up. % ?\n? ?", Some(ReadRefused::BadByte { line: 2 })),
        (
            "input up.\ninput",
            Some(ReadRefused::BadStatement { line: 2 }),
        ),
        ("input up.\n.", Some(ReadRefused::BadStatement { line: 2 })),
        (
            "\ninput\nsimple.",
            Some(ReadRefused::BadStatement { line: 2 }),
        ),
        (
            "input\nup\n. input\n\nend.",
            Some(ReadRefused::BadStatement { line: 3 }),
        ),
    ];
    for (text, refused) in cases {
        let found = read(rt.alloc(), text.as_bytes()).err();
        assert_eq!(rt; found, refused, "{text:?}");
    }
}

#[test]
fn bounds_are_kept(rt: HostRuntime) -> Result<(), Fail> {
    let alloc = rt.alloc();
    let unformed = Some(ReadRefused::BadStatement { line: 1 });
    for (front, part, count, middle, closing) in BOUNDS {
        let text = nested(alloc, front, part, count, middle, closing)?;
        assert_eq!(rt; read(alloc, text.as_bytes()).err(), None, "{front}");
        let text = nested(alloc, front, part, count + 1, middle, closing)?;
        assert_eq!(rt; read(alloc, text.as_bytes()).err(), unformed, "{front}");
    }
    // A comment of 1,048,576 bytes.
    let text = nested(alloc, "%", "x", 1_048_574, "", "")?;
    assert_eq!(rt; read(alloc, text.as_bytes()).err(), None);
    let text = nested(alloc, "%", "x", 1_048_575, "", "")?;
    assert_eq!(rt;
        read(alloc, text.as_bytes()).err(),
        Some(ReadRefused::TooLong)
    );
    Ok(())
}

#[test]
fn copies_have_the_lines_of_statements(rt: HostRuntime) -> Result<(), Fail> {
    one_form();
    one_reading();
    reading_means();
    meaning_is_read();
    let syntax = read(rt.alloc(), ALL_FORMS.as_bytes())?;
    let mut lines = Vec::new(rt.alloc());
    for statement in syntax.statements.as_slice() {
        lines.push(line_of_copy(rt.alloc(), statement))?;
    }
    let want = [2, 2, 2, 2, 3, 4, 5, 6, 8, 8, 9, 10, 11, 12, 15, 16];
    assert_eq!(rt; lines.as_slice(), want.as_slice());
    Ok(())
}
