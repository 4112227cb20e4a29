// The lines of answers. Each private `put_` function adds to the end of a text. Where memory runs
// out, it may leave a part of what was to be added.
ghost use Rattle.std.specs.Prelude.{◌≡◌, ◌++◌, ◌∷◌, [], map, length, slice_get, take, OnOk, OnErr};
ghost use Rattle.std.specs.Arc.{arc_value};
ghost use Rattle.text_pieces.specs.Lines.{text_of_lines};
ghost use Rattle.report_text.specs.Report.{value_text, query_text, answer_text, asked_block};
ghost use Rattle.report_text.specs.Report.{answer_lines};
ghost use Rattle.report_text.specs.Printed.{block_at, AreSound};

use crate::blocks::put_pieces;
use crate::rows::value_words;
use crate::whole::append;
use ground_types::{Program, Query, UnitId, Value};
use query_ask::{Answer, Publication};
use rt_base::OutOfMemory;
use std::sync::Arc;
use text_pieces::{Piece, put_all, put_text, put_unit_atom};

// Adds a fluent with one of its values.
fn put_value(
    out: &mut Vec<u8>,
    program: &Program,
    unit: UnitId,
    value: Value,
) -> Result<(), OutOfMemory>
    ensures { OnOk result (out.new.items ≡ out.old.items ++ value_text program.now
        (slice_get program.now.units unit) value) }
{
    let Some(unit) = program.units.as_slice().get(unit as usize) else {
        return Ok(());
    };
    let word = match value_words(program, unit).get(value as usize) {
        Some(word) => word.as_str(),
        None => "",
    };
    put_unit_atom(out, program, unit)?;
    put_all(out, &[Piece::Text("="), Piece::Text(word)])
}

// Adds what is asked.
fn put_question(out: &mut Vec<u8>, program: &Program, query: &Query) -> Result<(), OutOfMemory>
    ensures { OnOk result (out.new.items ≡ out.old.items ++ query_text program.now query.now) }
{
    match *query {
        Query::Holds { unit, value, at } => {
            put_text(out, "ask holds ")?;
            put_value(out, program, unit, value)?;
            put_all(out, &[Piece::Text(" "), Piece::Number(at)])
        }
        Query::Count => put_text(out, "ask count"),
        Query::Block { number } => put_all(
            out,
            &[Piece::Text("ask block "), Piece::Number(number)],
        ),
    }
}

// Adds what is answered.
fn put_reply(out: &mut Vec<u8>, answer: &Answer) -> Result<(), OutOfMemory>
    ensures { OnOk result (out.new.items ≡ out.old.items ++ answer_text answer.now) }
{
    match *answer {
        Answer::Yes => put_text(out, " yes"),
        Answer::No => put_text(out, " no"),
        Answer::Outside { w, q } => {
            let outside = Piece::Text(" outside ");
            put_all(
                out,
                &[
                    outside,
                    Piece::Number(w),
                    Piece::Text(" "),
                    Piece::Number(q),
                ],
            )
        }
        Answer::NothingYet => put_text(out, " nothing-yet"),
        Answer::NotPublished { have } => {
            put_all(
                out,
                &[Piece::Text(" not-published "), Piece::Number(have as u64)],
            )
        }
        Answer::Number(count) => put_all(out, &[Piece::Text(" "), Piece::Number(count as u64)]),
        Answer::Block { .. } => Ok(()),
    }
}

// Adds the first line of an answer.
fn put_first_line(
    text: &mut Vec<u8>,
    program: &Program,
    query: &Query,
    answer: &Answer,
) -> Result<(), OutOfMemory>
    ensures { OnOk result (text.new.items ≡ text.old.items ++ text_of_lines
        ((query_text program.now query.now ++ answer_text answer.now) ∷ [])) }
{
    put_question(text, program, query)?;
    put_reply(text, answer)?;
    put_text(text, "\n")
}

// Adds the lines of a block that is there. Refused, it leaves what was there, and may leave a part
// of them behind it.
fn put_asked_block(
    list: &[Arc<Publication>],
    answer: &Answer,
    out: &mut Vec<u8>,
) -> Result<(), OutOfMemory>
    requires sound { AreSound (map arc_value list.now) }
    ensures added { OnOk result (out.new.items ≡ out.old.items ++ text_of_lines
        (asked_block (block_at (map arc_value list.now)) answer.now)) }
    ensures kept { OnErr result (take (length out.old.items) out.new.items ≡ out.old.items) }
{
    let Answer::Block { number } = *answer else {
        return Ok(());
    };
    let Some(publication) = list.get(number as usize) else {
        return Ok(());
    };
    put_pieces(publication, "ask ", out)
}

// Adds the lines of an answer piece by piece. Refused, it leaves what was there, and may leave a
// part of them behind it.
fn put_lines(
    program: &Program,
    list: &[Arc<Publication>],
    query: &Query,
    answer: &Answer,
    out: &mut Vec<u8>,
) -> Result<(), OutOfMemory>
    requires sound { AreSound (map arc_value list.now) }
    ensures added { OnOk result (out.new.items ≡ out.old.items ++ text_of_lines
        (answer_lines program.now (block_at (map arc_value list.now)) query.now answer.now)) }
    ensures kept { OnErr result (take (length out.old.items) out.new.items ≡ out.old.items) }
{
    let mut text = Vec::new(*out.allocator());
    put_first_line(&mut text, program, query, answer)?;
    append(out, text.as_slice())?;
    put_asked_block(list, answer, out)
}

/// Adds the lines of the answer to a question: what is asked and answered, and behind it the block
/// that is asked for, if it is there, with `ask ` before each of its lines. The program of each
/// publication has to be sound. `OutOfMemory` leaves the text as it was.
pub fn put_answer(
    program: &Program,
    list: &[Arc<Publication>],
    query: &Query,
    answer: &Answer,
    out: &mut Vec<u8>,
) -> Result<(), OutOfMemory>
    requires sound { AreSound (map arc_value list.now) }
    ensures added { OnOk result (out.new.items ≡ out.old.items ++ text_of_lines
        (answer_lines program.now (block_at (map arc_value list.now)) query.now answer.now)) }
    ensures refused { OnErr result (out.new.items ≡ out.old.items) }
{
    let length = out.len();
    let put = put_lines(program, list, query, answer, out);
    if put.is_err() {
        out.truncate(length);
    }
    put
}
