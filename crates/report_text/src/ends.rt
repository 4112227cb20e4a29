// The last three lines of a report, and what they count. Each `put_` function adds to the end of a
// text. Where memory runs out, a private one may leave a part of what was to be added.
ghost use Rattle.std.specs.Prelude.{◌≡◌, ◌^◌, ◌≤◌, ◌++◌, [], ◌∷◌, not, map, flat_map, length};
ghost use Rattle.std.specs.Prelude.{sum_by, count_by, codes, decimal, OnOk, OnErr};
ghost use Rattle.std.specs.Arc.{arc_value};
ghost use Rattle.ground_types.specs.History.{is_seal};
ghost use Rattle.ground_types.specs.Sound.{IsSound};
ghost use Rattle.query_ask.specs.Right.{published, IsRightForItself};
ghost use Rattle.span_algebra.specs.Normal.{pairs};
ghost use Rattle.text_pieces.specs.Lines.{text_of_lines};
ghost use Rattle.report_text.specs.Report.{has_reply, reply_count_text, entries_line, span_count};
ghost use Rattle.report_text.specs.Report.{point_count};
ghost use Rattle.report_text.specs.Printed.{totals_line, spans_in, points_in, end_of, IsCounted};
ghost use Rattle.report_text.specs.Printed.{AreCounted};

use crate::entries::reply_word;
use crate::whole::append;
use ground_types::{Entry, Reply};
use query_ask::Publication;
use rt_base::OutOfMemory;
use span_algebra::{Spans, UnitRows};
use std::sync::Arc;
use text_pieces::{Piece, put_all, put_text};

// The replies in the order in which they are counted.
const REPLIES: [Reply; 7] = [
    Reply::Admitted,
    Reply::Delayed,
    Reply::Already,
    Reply::Revoked,
    Reply::DelayedRevoked,
    Reply::Unknown,
    Reply::Forgotten,
];

// Whether the entry is an add or a revoke with this reply.
fn has_reply(entry: &Entry, wanted: Reply) -> bool
    ensures { result ≡ has_reply wanted entry.now }
{
    match entry {
        Entry::Fed { reply, .. } => *reply == wanted,
        Entry::Seal { .. } => false,
    }
}

// How many adds and revokes have a reply.
fn count_replies(history: &[Entry], wanted: Reply) -> usize
    ensures { result ≡ count_by (has_reply wanted) history.now }
{
    history
        .iter()
        .filter(|entry| has_reply(entry, wanted))
        .count()
}

// How many adds and revokes there are.
fn count_feeds(history: &[Entry]) -> usize
    ensures { result ≡ count_by (λ entry. not (is_seal entry)) history.now }
{
    history
        .iter()
        .filter(|entry| !matches!(entry, Entry::Seal { .. }))
        .count()
}

// Adds a reply and how many entries have it.
fn put_reply_count(out: &mut Vec<u8>, history: &[Entry], reply: Reply) -> Result<(), OutOfMemory>
    ensures { OnOk result (out.new.items ≡ out.old.items ++ reply_count_text history.now reply) }
{
    let space = Piece::Text(" ");
    let count = Piece::Number(count_replies(history, reply) as u64);
    put_all(out, &[space, Piece::Text(reply_word(reply)), space, count])
}

// Adds replies, each with how many entries have it.
fn put_reply_counts(
    out: &mut Vec<u8>,
    history: &[Entry],
    wanted: &[Reply],
) -> Result<(), OutOfMemory>
    ensures { OnOk result (out.new.items ≡ out.old.items ++ flat_map (reply_count_text history.now)
        wanted.now) }
{
    for reply in wanted {
        put_reply_count(out, history, *reply)?;
    }
    Ok(())
}

// Adds the line of the entries and of each reply.
fn put_entries(out: &mut Vec<u8>, history: &[Entry]) -> Result<(), OutOfMemory>
    ensures { OnOk result (out.new.items ≡ out.old.items ++ text_of_lines (entries_line history.now
        ∷ [])) }
{
    let count = Piece::Number(count_feeds(history) as u64);
    put_all(out, &[Piece::Text("entries "), count])?;
    put_reply_counts(out, history, &REPLIES)?;
    put_text(out, "\n")
}

// Adds the line of the records that are ignored.
fn put_ignored(out: &mut Vec<u8>, ignored: u64) -> Result<(), OutOfMemory>
    ensures { OnOk result (out.new.items ≡ out.old.items ++ text_of_lines
        ((codes "ignored " ++ decimal ignored) ∷ [])) }
{
    put_all(
        out,
        &[
            Piece::Text("ignored "),
            Piece::Number(ignored),
            Piece::Text("\n"),
        ],
    )?;
    Ok(())
}

// How many spans rows have. The sum fits: there are fewer than 2^64 rows, of fewer than 2^64 spans
// each.
fn count_spans(rows: &[Spans]) -> u128
    ensures { result ≡ sum_by length (map pairs rows.now) }
{
    let mut count = 0;
    for spans in rows {
        count += spans.as_slice().len() as u128;
    }
    count
}

// How many spans the rows of a unit have.
fn unit_spans(rows: &UnitRows) -> u128
    ensures { result ≡ span_count (published rows.now) }
{
    match rows {
        UnitRows::Fluent(rows) => count_spans(rows.as_slice()),
        UnitRows::Event(_) => 0,
    }
}

// How many points the row of a derived event has.
fn unit_points(rows: &UnitRows) -> u128
    ensures { result ≡ point_count (published rows.now) }
{
    match rows {
        UnitRows::Fluent(_) => 0,
        UnitRows::Event(points) => points.as_slice().len() as u128,
    }
}

// What publications sum up to.
#[derive(Clone, Copy)]
struct Sums {
    spans: u128,
    points: u128,
    evaluations: u128,
}

// How many units the program of a publication has.
fn unit_count(publication: &Publication) -> u32
    requires { IsSound publication.now.program }
    ensures count { result ≡ length publication.now.program.units }
    ensures right { IsRightForItself publication.now }
{
    // (what gives its number says that the publication is right for itself)
    let _number = publication.number();
    publication.program().units.as_slice().len() as u32
}

// How many spans the rows of a publication have.
fn spans_in(publication: &Publication) -> u128
    requires { IsCounted publication.now.program }
    ensures value { result ≡ spans_in publication.now }
    ensures few { result ≤ 2 ^ 63 }
{
    let mut spans = 0;
    for unit in 0..unit_count(publication) {
        spans += unit_spans(publication.rows(unit));
    }
    spans
}

// How many points the rows of a publication have.
fn points_in(publication: &Publication) -> u128
    requires { IsCounted publication.now.program }
    ensures value { result ≡ points_in publication.now }
    ensures few { result ≤ 2 ^ 63 }
{
    let mut points = 0;
    for unit in 0..unit_count(publication) {
        points += unit_points(publication.rows(unit));
    }
    points
}

// What publications sum up to. The sums fit: there are fewer than 2^63 publications, of fewer than
// 2^64 spans, points and evaluations each.
fn totals(list: &[Arc<Publication>]) -> Sums
    requires { AreCounted (map arc_value list.now) }
    ensures spans { result.spans ≡ sum_by spans_in (map arc_value list.now) }
    ensures points { result.points ≡ sum_by points_in (map arc_value list.now) }
    ensures evaluations { result.evaluations ≡ sum_by (λ parts. parts.evaluations)
        (map arc_value list.now) }
{
    let mut spans = 0;
    let mut points = 0;
    let mut evaluations = 0;
    for publication in list {
        spans += spans_in(publication);
        points += points_in(publication);
        evaluations += u128::from(publication.evaluations());
    }
    Sums {
        spans,
        points,
        evaluations,
    }
}

// How many publications there are.
fn query_count(list: &[Arc<Publication>]) -> usize
    ensures { result ≡ length (map arc_value list.now) }
{
    list.len()
}

// Adds the line of the publications and of what they sum up to.
fn put_totals(out: &mut Vec<u8>, queries: usize, sums: Sums) -> Result<(), OutOfMemory>
    ensures { OnOk result (out.new.items ≡ out.old.items ++ text_of_lines
        (totals_line queries sums.spans sums.points sums.evaluations ∷ [])) }
{
    put_all(
        out,
        &[
            Piece::Text("queries "),
            Piece::Number(queries as u64),
            Piece::Text(" spans "),
            Piece::Sum(sums.spans),
            Piece::Text(" points "),
            Piece::Sum(sums.points),
            Piece::Text(" evaluations "),
            Piece::Sum(sums.evaluations),
            Piece::Text("\n"),
        ],
    )?;
    Ok(())
}

/// Adds the last three lines: the records that are ignored, the entries of the history with the
/// count of each reply, and what the publications sum up to. The program of each publication has to
/// be sound, with at most 64 values for a fluent. `OutOfMemory` leaves the text as it was.
pub fn put_end(
    ignored: u64,
    history: &[Entry],
    list: &[Arc<Publication>],
    out: &mut Vec<u8>,
) -> Result<(), OutOfMemory>
    requires counted { AreCounted (map arc_value list.now) }
    ensures added { OnOk result (out.new.items ≡ out.old.items ++ text_of_lines
        (end_of history.now ignored (map arc_value list.now))) }
    ensures refused { OnErr result (out.new.items ≡ out.old.items) }
{
    let mut text = Vec::new(*out.allocator());
    put_ignored(&mut text, ignored)?;
    put_entries(&mut text, history)?;
    put_totals(&mut text, query_count(list), totals(list))?;
    append(out, text.as_slice())
}
