// The block of a publication.
ghost use Rattle.std.specs.Prelude.{◌≡◌, ◌++◌, ◌∷◌, [], length, take, OnOk, OnErr};
ghost use Rattle.ground_types.specs.Sound.{IsSound};
ghost use Rattle.ground_types.specs.Windows.{left, right};
ghost use Rattle.text_pieces.specs.Lines.{text_of_lines};
ghost use Rattle.report_text.specs.Report.{query_line, behind};
ghost use Rattle.report_text.specs.Printed.{block_in};

use crate::rows::put_rows;
use crate::whole::append;
use ground_types::Point;
use query_ask::Publication;
use rt_base::OutOfMemory;
use text_pieces::{Piece, put_all};

// Adds the line of a query, with a lead before it.
fn put_query(
    text: &mut Vec<u8>,
    lead: &str,
    k: u32,
    w: Point,
    q: Point,
    evaluations: u64,
) -> Result<(), OutOfMemory>
    ensures { OnOk result (text.new.items ≡ text.old.items ++ text_of_lines
        (behind lead.now (query_line k w q evaluations ∷ []))) }
{
    put_all(
        text,
        &[
            Piece::Text(lead),
            Piece::Text("query "),
            Piece::Number(k as u64),
            Piece::Text(" window ("),
            Piece::Number(w),
            Piece::Text(","),
            Piece::Number(q),
            Piece::Text("] evaluations "),
            Piece::Number(evaluations),
            Piece::Text("\n"),
        ],
    )?;
    Ok(())
}

// Adds the line of a publication's query, with a lead before it.
fn put_front(text: &mut Vec<u8>, lead: &str, publication: &Publication) -> Result<(), OutOfMemory>
    requires sound { IsSound publication.now.program }
    ensures { OnOk result (text.new.items ≡ text.old.items ++ text_of_lines
        (behind lead.now (query_line publication.now.number (left publication.now.program.plan
        publication.now.number) (right publication.now.program.plan publication.now.number)
        publication.now.evaluations ∷ []))) }
{
    let k = publication.number();
    let plan = &publication.program().plan;
    put_query(
        text,
        lead,
        k,
        plan.left(k),
        plan.right(k),
        publication.evaluations(),
    )
}

// Adds a block piece by piece, with a lead before each line. Refused, it leaves what was there, and
// may leave a part of the block behind it.
pub(crate) fn put_pieces(
    publication: &Publication,
    lead: &str,
    out: &mut Vec<u8>,
) -> Result<(), OutOfMemory>
    requires sound { IsSound publication.now.program }
    ensures added { OnOk result (out.new.items ≡ out.old.items ++ text_of_lines
        (behind lead.now (block_in publication.now))) }
    ensures kept { OnErr result (take (length out.old.items) out.new.items ≡ out.old.items) }
{
    let mut text = Vec::new(*out.allocator());
    put_front(&mut text, lead, publication)?;
    append(out, text.as_slice())?;
    put_rows(publication, lead, &mut text, out)
}

/// Adds the block of a publication: the line of its query, and its rows that are not empty. Its
/// program has to be sound. `OutOfMemory` leaves the text as it was.
pub fn put_block(publication: &Publication, out: &mut Vec<u8>) -> Result<(), OutOfMemory>
    requires sound { IsSound publication.now.program }
    ensures added { OnOk result (out.new.items ≡ out.old.items ++ text_of_lines
        (block_in publication.now)) }
    ensures refused { OnErr result (out.new.items ≡ out.old.items) }
{
    let length = out.len();
    let put = put_pieces(publication, "", out);
    if put.is_err() {
        out.truncate(length);
    }
    put
}
