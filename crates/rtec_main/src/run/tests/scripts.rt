// Scripts that are refused, records that are ignored, and the bounds of descriptions and scripts.
use super::{
    LAMP, Long, changed, first_line, of_changed_lamp, of_changed_run, recognised, written_out,
};
use std::alloc::Global;
use std::test::Fail;
use std::thread::Threads;

// What the script of the first run says with a part of it changed.
#[test]
fn the_first_record_without_a_form_is_named(rt: HostRuntime) -> Result<(), Fail> {
    let rows = [
        (
            "add,1,3,up",
            "add,0,3,up",
            "4 input 1 record 1: bad record\n",
        ),
        (
            "add,1,3,up",
            "add,9,3,up",
            "4 input 1 record 1: bad record\n",
        ),
        (
            "add,1,3,up",
            "add,1,10000000000000000,up",
            "4 input 1 record 1: bad record\n",
        ),
        (
            "add,1,7,down",
            "add,10,7,down",
            "4 input 1 record 2: bad record\n",
        ),
        (
            "add,1,7,down",
            "add,1,10000000000000000,down",
            "4 input 1 record 2: bad record\n",
        ),
        (
            "add,1,7,down",
            "add,1,,down",
            "4 input 1 record 2: bad record\n",
        ),
        (
            "add,1,7,down",
            "add,1,-7,down",
            "4 input 1 record 2: bad record\n",
        ),
        (
            "add,1,7,down",
            "add,1,7",
            "4 input 1 record 2: bad record\n",
        ),
        (
            "add,1,7,down",
            "add,1,7,",
            "4 input 1 record 2: bad record\n",
        ),
        (
            "add,1,7,down",
            "add,7,down",
            "4 input 1 record 2: bad record\n",
        ),
        ("add,1,7,down", "wait,1", "4 input 1 record 2: bad record\n"),
        (
            "add,1,7,down",
            "\"add,1,7,down",
            "4 input 1 record 2: bad record\n",
        ),
        (
            "add,1,7,down",
            "ask,holds,8,false,on",
            "4 input 1 record 2: bad record\n",
        ),
        (
            "add,1,3,up\n",
            "\r\n\nadd,1,3,up\nadd\n",
            "4 input 1 record 2: bad record\n",
        ),
        ("seal\n", "seal,\n", "4 input 1 record 4: bad record\n"),
    ];
    for (from, to, wanted) in rows {
        let found = of_changed_run(&rt, from, to)?;
        assert_eq!(rt; found.as_str(), wanted, "{to:?} for {from:?}");
    }
    Ok(())
}

#[test]
fn more_seals_than_queries_do_not_run(rt: HostRuntime) -> Result<(), Fail> {
    let one_seal = "0 \nquery 0 window (0,10] evaluations 0\nignored 0\n\
        entries 0 admitted 0 delayed 0 already 0 revoked 0 delayed-revoked 0 unknown 0 forgotten \
        0\n\
        queries 1 spans 0 points 0 evaluations 0\n";
    for (script, wanted) in [
        ("seal\nseal\n", "5 too large: seals\n"),
        ("ask,count\nseal\nseal\n", "5 too large: seals\n"),
        ("seal\n", one_seal),
    ] {
        let found = of_changed_lamp(&rt, "from(0).", "from(0).\nqueries(1).", script)?;
        assert_eq!(rt; found.as_str(), wanted, "{script:?}");
    }
    Ok(())
}

#[test]
fn records_of_what_is_not_declared_are_counted(rt: HostRuntime) -> Result<(), Fail> {
    let wanted = "0 \nquery 0 window (0,10] evaluations 0\nignored 1\n\
        entries 0 admitted 0 delayed 0 already 0 revoked 0 delayed-revoked 0 unknown 0 forgotten \
        0\n\
        queries 1 spans 0 points 0 evaluations 0\n";
    for script in [
        "add,1,3,sideways\nseal\n",
        "add,1,3,on\nseal\n",
        "add,1,3,up,\nseal\n",
        "add,1,3, up\nseal\n",
        "revoke,8,3,up,x\nseal\n",
    ] {
        let found = recognised(&rt, LAMP, script)?;
        assert_eq!(rt; found.as_str(), wanted, "{script:?}");
    }
    Ok(())
}

// How the run of two long texts ends.
fn end(
    alloc: Global,
    rt: &(impl Threads + Sync + AllocGlobal),
    description: Long,
    script: Long,
) -> Result<String, Fail> {
    let description = written_out(alloc, description)?;
    let script = written_out(alloc, script)?;
    let found = recognised(rt, description.as_str(), script.as_str())?;
    Ok(first_line(found.as_str()).to_string(alloc)?)
}

#[test]
fn the_bounds_are_kept(rt: HostRuntime) -> Result<(), Fail> {
    let lamp = Long {
        front: LAMP,
        piece: "",
        last: 1,
        back: "",
    };
    let seal = Long {
        front: "seal\n",
        piece: "",
        last: 1,
        back: "",
    };

    // Letters of a name.
    let letters = Long {
        front: "window(10).\nstep(5).\ninput up.\ninput a",
        piece: "a",
        last: 64,
        back: ".\nsimple on [true].\ninitiatedAt(on=true) :- happensAt(up).\n",
    };
    let rows = [
        (lamp, seal, "0 "),
        (letters, seal, "0 "),
        (
            Long {
                last: 65,
                ..letters
            },
            seal,
            "3 description line 4: bad statement",
        ),
    ];
    for (description, script, wanted) in rows {
        let found = end(rt.alloc(), &rt, description, script)?;
        assert_eq!(rt; found.as_str(), wanted);
    }
    Ok(())
}

#[test]
fn a_description_has_up_to_1_048_576_bytes(rt: HostRuntime) -> Result<(), Fail> {
    // The lamp and the comment behind it have 152 bytes.
    for (count, wanted) in [(1_048_424, "0 "), (1_048_425, "5 too large: description")] {
        let spaces = " ".repeat(rt.alloc(), count)?;
        let description = format!(in rt.alloc(); "{LAMP}%{spaces}")?;
        let found = recognised(&rt, description.as_str(), "seal\n")?;
        assert_eq!(rt; first_line(found.as_str()), wanted);
    }
    Ok(())
}

// A record so many times, where an event may lie in 1,024 windows, and there are as many queries.
#[test]
fn seals_and_occurrences_are_bounded(rt: HostRuntime) -> Result<(), Fail> {
    let description = changed(
        rt.alloc(),
        LAMP,
        "window(10).\nstep(5).",
        "window(1024).\nstep(1).",
    )?;
    for (records, count, wanted) in [
        ("add,1,1,up\n", 16_384, "0 "),
        ("revoke,1,1,up\n", 16_385, "5 too large: occurrences"),
        ("seal\n", 1024, "0 "),
        ("add,1,1,up\nseal\n", 1025, "5 too large: seals"),
        ("add,1,1,up\nseal\n", 16_385, "5 too large: seals"),
        (
            "add,1,1,up\nask,count\n",
            16_385,
            "5 too large: occurrences",
        ),
    ] {
        let script = records.repeat(rt.alloc(), count)?;
        let found = recognised(&rt, description.as_str(), script.as_str())?;
        assert_eq!(rt;
            first_line(found.as_str()),
            wanted,
            "{count} of {records:?}"
        );
    }
    Ok(())
}
