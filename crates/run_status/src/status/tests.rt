// What no clause says: the fault lines.
use super::{DescFault, ScriptFault, Status};
use rt_base::Limit;
use std::alloc::Global;
use std::test::Fail;

// The number and the fault line of a status.
fn told(alloc: Global, status: Status) -> Result<String, Fail> {
    let number = status.number();
    Ok(format!(in alloc; "{number} {status}")?)
}

// A fault of a record of the first script.
fn at_record(place: u32, fault: ScriptFault) -> Status {
    Status::BadScript {
        input: 1,
        place,
        fault,
    }
}

#[test]
fn statuses_have_their_numbers_and_lines(rt: HostRuntime) -> Result<(), Fail> {
    let input = 1;
    let rows = [
        (Status::Done, "0 "),
        (Status::BadWords, "2 words are not of a known command"),
        (
            Status::BadDescription(DescFault::BadPlan),
            "3 description: bad plan",
        ),
        (
            at_record(2, ScriptFault::BadRecord),
            "4 input 1 record 2: bad record",
        ),
        (
            at_record(1, ScriptFault::Stuck),
            "4 input 1 record 1: stuck",
        ),
        (Status::ReadFault { input }, "6 input 1 could not be read"),
        (Status::WriteFault, "7 output could not be written"),
        (Status::OutOfMemory, "8 out of memory"),
        (
            Status::Differs { number: 0, line: 5 },
            "9 report differs at line 5",
        ),
    ];
    for (status, line) in rows {
        let found = told(rt.alloc(), status)?;
        assert_eq!(rt; found.as_str(), line);
    }
    Ok(())
}

#[test]
fn limits_have_their_words(rt: HostRuntime) -> Result<(), Fail> {
    let rows = [
        (Limit::Description, "5 too large: description"),
        (Limit::Script, "5 too large: script"),
        (Limit::Inputs, "5 too large: inputs"),
        (Limit::Units, "5 too large: units"),
        (Limit::Events, "5 too large: events"),
        (Limit::Assignments, "5 too large: assignments"),
        (Limit::Rules, "5 too large: rules"),
        (Limit::Conditions, "5 too large: conditions"),
        (Limit::Cells, "5 too large: cells"),
        (Limit::Commands, "5 too large: commands"),
        (Limit::Seals, "5 too large: seals"),
        (Limit::Occurrences, "5 too large: occurrences"),
        (Limit::Points, "5 too large: points"),
    ];
    for (limit, line) in rows {
        let found = told(rt.alloc(), Status::TooLarge { limit })?;
        assert_eq!(rt; found.as_str(), line);
    }
    Ok(())
}

#[test]
fn faults_of_descriptions_have_their_words(rt: HostRuntime) -> Result<(), Fail> {
    let rows = [
        (
            DescFault::BadByte { line: 1 },
            "3 description line 1: bad byte",
        ),
        (
            DescFault::BadStatement { line: 2 },
            "3 description line 2: bad statement",
        ),
        (
            DescFault::TooMany { line: 3 },
            "3 description line 3: too many",
        ),
        (
            DescFault::Undeclared { line: 4 },
            "3 description line 4: undeclared",
        ),
        (DescFault::Twice { line: 5 }, "3 description line 5: twice"),
        (
            DescFault::NoTrigger { line: 6 },
            "3 description line 6: no trigger",
        ),
        (
            DescFault::WrongKind { line: 7 },
            "3 description line 7: wrong kind",
        ),
        (DescFault::Arity { line: 8 }, "3 description line 8: arity"),
        (DescFault::Clash { line: 9 }, "3 description line 9: clash"),
        (
            DescFault::Loose { line: 10 },
            "3 description line 10: loose",
        ),
        (
            DescFault::Cyclic { line: 11 },
            "3 description line 11: cyclic",
        ),
    ];
    for (fault, line) in rows {
        let found = told(rt.alloc(), Status::BadDescription(fault))?;
        assert_eq!(rt; found.as_str(), line);
    }
    Ok(())
}
