// The lines of rows, each with a lead before it. Each `put_` function adds to the end of a text.
// Where memory runs out, it may leave a part of what was to be added.
ghost use Rattle.std.specs.Prelude.{◌≡◌, ◌++◌, map, flat_map, slice_get, codes, decimal};
ghost use Rattle.std.specs.Prelude.{length, take, OnOk, OnErr};
ghost use Rattle.ground_types.specs.Publication.{fluent_rows};
ghost use Rattle.ground_types.specs.Sound.{IsSound};
ghost use Rattle.ground_types.specs.Windows.{right};
ghost use Rattle.span_algebra.specs.Normal.{pairs};
ghost use Rattle.query_ask.specs.Right.{published};
ghost use Rattle.text_pieces.specs.Lines.{text_of_lines};
ghost use Rattle.text_pieces.specs.Atoms.{unit_atom};
ghost use Rattle.report_text.specs.Report.{value_words, span_text, fluent_lines, unit_lines};
ghost use Rattle.report_text.specs.Report.{row_lines, behind};
ghost use Rattle.report_text.specs.EventLines.{event_lines};
ghost use Rattle.report_text.specs.Printed.{rows_in};

use crate::whole::append;
use ground_types::{Point, Program, Unit, name_of};
use query_ask::Publication;
use rt_base::{OutOfMemory, Word};
use span_algebra::{Span, Spans, UnitRows};
use text_pieces::{Piece, put_all, put_text, put_unit_atom};

// The words of the values of a unit.
pub(crate) fn value_words<'a>(program: &'a Program, unit: &Unit) -> &'a [Word]
    ensures { result.now ≡ value_words (slice_get program.now.names unit.now.name) }
{
    name_of(program, unit).map_or(&[], |name| name.values.as_slice())
}

// Adds what the line of a row begins with: the unit's atom behind the lead and two spaces.
fn put_row_front(
    out: &mut Vec<u8>,
    lead: &str,
    program: &Program,
    unit: &Unit,
) -> Result<(), OutOfMemory>
    ensures { OnOk result (out.new.items ≡ out.old.items ++ (lead.now ++ codes "  " ++ unit_atom
        program.now unit.now)) }
{
    put_all(out, &[Piece::Text(lead), Piece::Text("  ")])?;
    put_unit_atom(out, program, unit)
}

// Adds a span, which is open where it ends after the window.
fn put_span(out: &mut Vec<u8>, q: Point, span: Span) -> Result<(), OutOfMemory>
    ensures { OnOk result (out.new.items ≡ out.old.items ++ span_text q (span.after, span.until)) }
{
    let after = Piece::Number(span.after);
    if span.until > q {
        put_all(out, &[Piece::Text(" ("), after, Piece::Text(",open)")])
    } else {
        let until = Piece::Number(span.until);
        put_all(
            out,
            &[
                Piece::Text(" ("),
                after,
                Piece::Text(","),
                until,
                Piece::Text("]"),
            ],
        )
    }
}

// Adds spans, one after the other.
fn put_spans(out: &mut Vec<u8>, q: Point, spans: &[Span]) -> Result<(), OutOfMemory>
    ensures { OnOk result (out.new.items ≡ out.old.items ++ flat_map (span_text q)
        (pairs spans.now)) }
{
    for span in spans {
        put_span(out, q, *span)?;
    }
    Ok(())
}

// Adds the line of a value of a unit, if its row is not empty.
fn put_fluent(
    out: &mut Vec<u8>,
    lead: &str,
    program: &Program,
    q: Point,
    unit: &Unit,
    value: &str,
    spans: &[Span],
) -> Result<(), OutOfMemory>
    ensures { OnOk result (out.new.items
        ≡ out.old.items ++ text_of_lines (behind lead.now (fluent_lines q
        (unit_atom program.now unit.now) (value.now, pairs spans.now)))) }
{
    if spans.is_empty() {
        return Ok(());
    }
    put_row_front(out, lead, program, unit)?;
    put_all(out, &[Piece::Text("="), Piece::Text(value)])?;
    put_spans(out, q, spans)?;
    put_text(out, "\n")
}

// Adds the lines of a fluent, from the rows of its values.
fn put_fluents(
    out: &mut Vec<u8>,
    lead: &str,
    program: &Program,
    q: Point,
    unit: &Unit,
    rows: &[Spans],
) -> Result<(), OutOfMemory>
    ensures { OnOk result (out.new.items
        ≡ out.old.items ++ text_of_lines (behind lead.now (unit_lines program.now q unit.now
        (fluent_rows (map pairs rows.now))))) }
{
    for (value, spans) in value_words(program, unit).iter().zip(rows) {
        put_fluent(
            out,
            lead,
            program,
            q,
            unit,
            value.as_str(),
            spans.as_slice(),
        )?;
    }
    Ok(())
}

// Adds points, one after the other.
fn put_points(out: &mut Vec<u8>, points: &[Point]) -> Result<(), OutOfMemory>
    ensures { OnOk result (out.new.items ≡ out.old.items ++ flat_map (λ t. codes " " ++ decimal t)
        points.now) }
{
    for point in points {
        put_all(out, &[Piece::Text(" "), Piece::Number(*point)])?;
    }
    Ok(())
}

// Adds the line of a derived event, if it occurs.
fn put_event(
    out: &mut Vec<u8>,
    lead: &str,
    program: &Program,
    unit: &Unit,
    points: &[Point],
) -> Result<(), OutOfMemory>
    ensures { OnOk result (out.new.items ≡ out.old.items ++ text_of_lines
        (behind lead.now (event_lines (unit_atom program.now unit.now) points.now))) }
{
    if points.is_empty() {
        return Ok(());
    }
    put_row_front(out, lead, program, unit)?;
    put_points(out, points)?;
    put_text(out, "\n")
}

// Adds the lines of a unit.
fn put_unit(
    out: &mut Vec<u8>,
    lead: &str,
    program: &Program,
    q: Point,
    unit: &Unit,
    rows: &UnitRows,
) -> Result<(), OutOfMemory>
    ensures { OnOk result (out.new.items
        ≡ out.old.items ++ text_of_lines (behind lead.now (unit_lines program.now q unit.now
        (published rows.now)))) }
{
    match rows {
        UnitRows::Fluent(rows) => put_fluents(out, lead, program, q, unit, rows.as_slice()),
        UnitRows::Event(points) => put_event(out, lead, program, unit, points.as_slice()),
    }
}

// Adds the lines of the rows of a publication that are not empty, unit by unit, with a text in
// which those of one unit are made. Refused, it leaves what was there, and the lines of some units
// behind it.
pub(crate) fn put_rows(
    publication: &Publication,
    lead: &str,
    lines: &mut Vec<u8>,
    out: &mut Vec<u8>,
) -> Result<(), OutOfMemory>
    requires sound { IsSound publication.now.program }
    ensures added { OnOk result (out.new.items ≡ out.old.items ++ text_of_lines
        (behind lead.now (row_lines publication.now.program (right publication.now.program.plan
        publication.now.number) (rows_in publication.now)))) }
    ensures kept { OnErr result (take (length out.old.items) out.new.items ≡ out.old.items) }
{
    let program = publication.program();
    let q = program.plan.right(publication.number());
    for (number, unit) in program.units.as_slice().iter().enumerate() {
        lines.clear();
        put_unit(
            lines,
            lead,
            program,
            q,
            unit,
            publication.rows(number as u32),
        )?;
        append(out, lines.as_slice())?;
    }
    Ok(())
}
