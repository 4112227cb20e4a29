// Words of no command, and faults of files and sinks.
use super::{FIRST_REPORT, FIRST_RUN, LAMP, MEETING, REPORT, Run, said};
use std::test::Fail;

// A run over the lamp and its script, in which nothing fails.
const WELL: Run = Run {
    words: REPORT,
    description: Some(LAMP),
    script: Some(FIRST_RUN),
    failing_reads: &[],
    failing_writes: &[],
    piece: 1000,
};

#[test]
fn words_of_no_command_are_refused(rt: HostRuntime) -> Result<(), Fail> {
    for words in [
        "",
        "recognise|desc",
        "recognise|desc|script|more",
        "recognise|-x|script",
        "recognise|desc|--",
        "recognise|desc|",
        "recognise|desc|script|--workers|0",
        "ground",
        "ground|",
        "ground|-x",
        "ground|desc|script",
        "simulate|desc|1",
        "simulate|desc|1|0",
        "simulate|desc|1|2097153",
        "simulate|desc|18446744073709551616|1",
        "simulate|desc|1|1|--feeders|1",
        "live|--feeders|1|desc|script|script",
        "report|desc|script",
    ] {
        let found = said(&rt, Run { words, ..WELL })?;
        assert_eq!(rt;
            found.as_str(),
            "2 words are not of a known command\n",
            "{words}"
        );
    }
    Ok(())
}

#[test]
fn faults_name_their_cause(rt: HostRuntime) -> Result<(), Fail> {
    let empty = "0 \nquery 0 window (0,10] evaluations 0\nignored 0\n\
        entries 0 admitted 0 delayed 0 already 0 revoked 0 delayed-revoked 0 \
            unknown 0 forgotten 0\n\
        queries 1 spans 0 points 0 evaluations 0\n";
    let ground = Run {
        words: "ground|desc",
        script: None,
        ..WELL
    };
    let rows = [
        // A file is not there, or a read fails: the description takes two, and then the script.
        (
            Run {
                description: None,
                ..WELL
            },
            "6 input 0 could not be read\n",
        ),
        (
            Run {
                script: None,
                ..WELL
            },
            "6 input 1 could not be read\n",
        ),
        (
            Run {
                failing_reads: &[0],
                ..WELL
            },
            "6 input 0 could not be read\n",
        ),
        (
            Run {
                failing_reads: &[1],
                ..WELL
            },
            "6 input 0 could not be read\n",
        ),
        (
            Run {
                failing_reads: &[2],
                ..WELL
            },
            "6 input 1 could not be read\n",
        ),
        (
            Run {
                description: None,
                ..ground
            },
            "6 input 0 could not be read\n",
        ),
        // A write fails, the first or the one behind ten bytes.
        (
            Run {
                failing_writes: &[0],
                ..WELL
            },
            "7 output could not be written\n",
        ),
        (
            Run {
                failing_writes: &[1],
                piece: 10,
                ..WELL
            },
            "7 output could not be written\n1 add up 3",
        ),
        (
            Run {
                failing_writes: &[1],
                piece: 10,
                ..ground
            },
            "7 output could not be written\nwindow(10)",
        ),
        // A write offers at least a line, so that the report of eight lines needs no ninth write.
        (
            Run {
                failing_writes: &[8],
                ..WELL
            },
            FIRST_REPORT,
        ),
        // What was made is written at each seal.
        (
            Run {
                script: Some("seal\nseal\n"),
                failing_writes: &[1],
                ..WELL
            },
            "7 output could not be written\nquery 0 window (0,10] evaluations 0\n",
        ),
        // A sink of one byte a call gets all.
        (
            Run {
                script: Some("seal\n"),
                piece: 1,
                ..WELL
            },
            empty,
        ),
    ];
    for (case, wanted) in rows {
        let found = said(&rt, case)?;
        assert_eq!(rt; found.as_str(), wanted);
    }
    Ok(())
}

#[test]
fn the_description_is_refused_before_the_script_is_read(rt: HostRuntime) -> Result<(), Fail> {
    let rows = [
        ("input up;", "3 description line 1: bad byte\n"),
        (
            "window(1). step(1). static alarm [true].",
            "6 input 1 could not be read\n",
        ),
        (MEETING, "6 input 1 could not be read\n"),
        (LAMP, "6 input 1 could not be read\n"),
    ];
    for (text, wanted) in rows {
        let found = said(
            &rt,
            Run {
                description: Some(text),
                script: None,
                ..WELL
            },
        )?;
        assert_eq!(rt; found.as_str(), wanted, "{text}");
    }
    Ok(())
}

#[test]
fn no_more_than_a_byte_past_the_bound_is_read(rt: HostRuntime) -> Result<(), Fail> {
    let long = "%".repeat(rt.alloc(), 1_200_000)?;

    // 16 reads take 1,048,576 bytes, the next one takes one, and none may follow.
    let description = Some(long.as_str());
    let found = said(
        &rt,
        Run {
            description,
            failing_reads: &[17],
            ..WELL
        },
    )?;
    assert_eq!(rt; found.as_str(), "5 too large: description\n");
    Ok(())
}
