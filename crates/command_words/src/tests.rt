// Words of commands, and what they ask for.
use crate::{Task, task_of, texts_of};
use rt_base::Word;
use std::alloc::Global;
use std::test::Fail;

// Words with a comma behind each.
fn joined(alloc: Global, words: &[&str]) -> Result<String, Fail> {
    let mut text = String::new(alloc);
    for word in words {
        text.push_str(word)?;
        text.push_str(",")?;
    }
    Ok(text)
}

// What a task asks for, in words.
fn shown(alloc: Global, task: &Task) -> Result<String, Fail> {
    let text = match task {
        Task::Recognise {
            description,
            script,
            workers,
        } => format!(in alloc; "recognise {description} {script} {workers}"),
        Task::Ground { description } => format!(in alloc; "ground {description}"),
        Task::Simulate {
            description,
            seed,
            size,
            workers,
            is_full,
        } => format!(in alloc; "simulate {description} {seed} {size} {workers} {is_full}"),
        Task::Live {
            description,
            clock,
            feeders,
            readers,
            workers,
        } => {
            let feeders = joined(alloc, feeders.as_slice())?;
            let readers = joined(alloc, readers.as_slice())?;
            format!(in alloc; "live {description} {clock} [{feeders}] [{readers}] {workers}")
        }
    };
    Ok(text?)
}

// The words of a line. They are parted by spaces, and `''` is the empty word.
fn words_of(alloc: Global, line: &str) -> Result<Vec<Word>, Fail> {
    let mut words = Vec::new(alloc);
    for word in line.split(' ') {
        let word = if word == "''" { "" } else { word };
        words.push(Word::new(alloc, word)?)?;
    }
    Ok(words)
}

// What the words of a line ask for.
fn asked(alloc: Global, line: &str) -> Result<String, Fail> {
    let words = words_of(alloc, line)?;
    let texts = texts_of(alloc, &words)?;
    match task_of(alloc, &texts)? {
        Some(task) => shown(alloc, &task),
        None => Ok(String::from_str(alloc, "nothing")?),
    }
}

const ROWS: &str = "recognise a b => recognise a b 1
recognise a b --workers=2 => recognise a b 2
recognise --workers 2 -- a b => recognise a b 2
recognise a --workers 02 b => recognise a b 2
recognise - -- -b => recognise - -b 1
recognise a b --workers 0 => nothing
recognise a b --workers 17 => nothing
recognise a b --workers 002 => nothing
recognise a b --workers +2 => nothing
recognise a b --workers => nothing
recognise a b --workers= => nothing
recognise a b --work 2 => nothing
recognise a b --workers 1 --workers 1 => nothing
recognise a b --workers -- 2 => nothing
recognise a b --=x => nothing
recognise -- a b --workers 2 => nothing
recognise -- -- b => recognise -- b 1
recognise a b --feeders 1 => nothing
recognise a -b => nothing
recognise a b --full => nothing
recognise '' b => nothing
recognise a => nothing
recognise a b c => nothing
ground a => ground a
ground -- --help => ground --help
ground --help => nothing
ground a --workers 1 => nothing
ground a --full => nothing
--help => nothing
help => nothing
'' => nothing
audit a b => nothing
simulate d 7 2097152 => simulate d 7 2097152 1 false
simulate --full d 07 --workers=16 0000010 => simulate d 7 10 16 true
simulate d 18446744073709551615 1 -- => simulate d 18446744073709551615 1 1 false
simulate d 18446744073709551616 1 => nothing
simulate d 000000000000000000007 1 => nothing
simulate d 7 0 => nothing
simulate d 7 2097153 => nothing
simulate d 7 00000001 => nothing
simulate d 7 10 --full=1 => nothing
simulate d 7 10 --full --full => nothing
simulate d 7 10 --feeders 1 => nothing
live d c --feeders 1 f r1 r2 => live d c [f,] [r1,r2,] 1
live d c f1 f2 --workers 4 --feeders=2 => live d c [f1,f2,] [] 4
live d c --feeders 1 f 1 2 3 4 5 6 7 8 => live d c [f,] [1,2,3,4,5,6,7,8,] 1
live d c --feeders 8 1 2 3 4 5 6 7 8 => live d c [1,2,3,4,5,6,7,8,] [] 1
live d c f --feeders 01 => nothing
live d c f --feeders 0 => nothing
live d c f --feeders 1 --full => nothing
live d '' f --feeders 1 => nothing
live d c f => nothing
live d c f --feeders 2 => nothing
live d c f --feeders 9 => nothing
live d c --feeders 1 f 1 2 3 4 5 6 7 8 9 => nothing";

#[test]
fn no_words_ask_for_nothing(rt: HostRuntime) -> Result<(), Fail> {
    assert!(rt; task_of(rt.alloc(), &[])?.is_none());
    Ok(())
}

#[test]
fn words_ask_for_tasks(rt: HostRuntime) -> Result<(), Fail> {
    for row in ROWS.lines() {
        let (words, answer) = row.split_once(" => ").ok_or("words and an answer")?;
        let found = asked(rt.alloc(), words)?;
        assert_eq!(rt; found.as_str(), answer, "{words}");
    }
    Ok(())
}
