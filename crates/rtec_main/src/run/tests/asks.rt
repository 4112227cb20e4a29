// What questions of a script are answered, as worked by hand.
use super::{FIRST_RUN, LAMP, recognised};
use std::alloc::Global;
use std::test::Fail;
use std::thread::Threads;

// Ships in areas, and which of them meet.
const SHIPS: &str = "window(10).\nstep(5).\ndomain ship [s1, s2].\ndomain area [a, b].\n\
    input enters(ship, area).\n\
    simple within(ship, area) [in, out].\nsimple met(ship, ship) [true].\n\
    initiatedAt(within(X, A)=out) :- happensAt(enters(X, A)).\n\
    initiatedAt(met(X, Y)=true) :- happensAt(enters(X, A)), X \\= Y.\n";

#[test]
fn questions_are_answered_at_their_place(rt: HostRuntime) -> Result<(), Fail> {
    let script = "ask,holds,4,true,on\nadd,1,3,up\nadd,1,7,down\nadd,1,9,up\nseal\n\
        ask,holds,8,true,on\nask,holds,4,true,on\nask,holds,12,true,on\nask,count\n\
        ask,block,1\nask,block,0\n";
    let wanted = "0 \nask holds on=true 4 nothing-yet\n\
        1 add up 3 admitted\n1 add down 7 admitted\n1 add up 9 admitted\n\
        query 0 window (0,10] evaluations 3\n  on=true (3,7] (9,open)\n\
        ask holds on=true 8 no\nask holds on=true 4 yes\nask holds on=true 12 outside 0 10\n\
        ask count 1\nask block 1 not-published 1\nask block 0\n\
        ask query 0 window (0,10] evaluations 3\nask   on=true (3,7] (9,open)\nignored 0\n\
        entries 3 admitted 3 delayed 0 already 0 revoked 0 delayed-revoked 0 unknown 0 \
        forgotten 0\n\
        queries 1 spans 2 points 0 evaluations 3\n";
    let found = recognised(&rt, LAMP, script)?;
    assert_eq!(rt; found.as_str(), wanted);
    Ok(())
}

// The answers in a report, without the words that all begin with.
fn answers(alloc: Global, report: &str) -> Result<String, Fail> {
    let mut answers = String::new(alloc);
    for line in report.lines() {
        if let Some(answer) = line.strip_prefix("ask ") {
            answers.push_str(answer)?;
            answers.push('\n')?;
        }
    }
    Ok(answers)
}

// A description, what was told before, the questions and their answers.
#[test]
fn the_last_window_answers(rt: HostRuntime) -> Result<(), Fail> {
    let two_windows = "add,1,3,up\nadd,1,7,down\nadd,1,9,up\nseal\nseal\n";
    let entered = "add,1,3,enters,s1,a\nseal\n";
    let rows = [
        // Before anything is published.
        (
            LAMP,
            "",
            "ask,count\nask,block,0\n",
            "count 0\nblock 0 not-published 0\n",
        ),
        // The borders of the first window, and of the second.
        (
            LAMP,
            FIRST_RUN,
            "ask,holds,0,true,on\nask,holds,1,true,on\nask,holds,11,true,on\n\
             ask,holds,12,true,on\n",
            "holds on=true 0 outside 0 10\nholds on=true 1 no\nholds on=true 11 yes\n\
             holds on=true 12 outside 0 10\n",
        ),
        (
            LAMP,
            two_windows,
            "ask,holds,5,true,on\nask,holds,6,true,on\nask,holds,16,true,on\n\
             ask,holds,9999999999999999,true,on\n",
            "holds on=true 5 outside 5 15\nholds on=true 6 yes\nholds on=true 16 yes\n\
             holds on=true 9999999999999999 outside 5 15\n",
        ),
        // Blocks, the older one too.
        (
            LAMP,
            two_windows,
            "ask,count\nask,block,0\nask,block,01\nask,block,2\nask,block,9999999999999999\n",
            "count 2\nblock 0\nquery 0 window (0,10] evaluations 3\n  on=true (3,7] (9,open)\n\
             block 1\nquery 1 window (5,15] evaluations 0\n  on=true (5,7] (9,open)\n\
             block 2 not-published 2\nblock 9999999999999999 not-published 2\n",
        ),
        // Fluents with arguments and of two values.
        (
            SHIPS,
            entered,
            "ask,holds,4,out,within,s1,a\nask,holds,4,in,within,s1,a\n\
             ask,holds,4,out,within,s2,a\nask,holds,3,true,met,s1,s2\nask,holds,4,true,met,s1,s2\n",
            "holds within(s1,a)=out 4 yes\nholds within(s1,a)=in 4 no\n\
             holds within(s2,a)=out 4 no\nholds met(s1,s2)=true 3 no\n\
             holds met(s1,s2)=true 4 yes\n",
        ),
    ];
    for (description, told, asked, wanted) in rows {
        let script = format!(in rt.alloc(); "{told}{asked}")?;
        let report = recognised(&rt, description, script.as_str())?;
        let found = answers(rt.alloc(), report.as_str())?;
        assert_eq!(rt; found.as_str(), wanted, "{asked:?}");
    }
    Ok(())
}
