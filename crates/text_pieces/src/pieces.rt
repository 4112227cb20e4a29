// Pieces of a line. Each `put_` function adds to the end of a text. Where memory runs out, the text
// keeps what it had, and may have a part of what was to be added behind it.
ghost use Rattle.std.specs.Prelude.{◌≡◌, ◌++◌, flat_map, OnOk};
ghost use Rattle.text_pieces.specs.Pieces.{text_of_piece};

use itoa::{Buffer, Integer};
use rt_base::OutOfMemory;

/// A piece of a line.
#[derive(Clone, Copy)]
pub enum Piece<'a> {
    /// A text as it is.
    Text(&'a str),
    /// A number in decimal digits.
    Number(u64),
    /// A number that may be a large sum.
    Sum(u128),
}

/// Adds a text. The one error is want of memory.
pub fn put_text(out: &mut Vec<u8>, text: &str) -> Result<(), OutOfMemory>
    ensures { OnOk result (out.new.items ≡ out.old.items ++ text.now) }
{
    out.extend_from_slice(text.as_bytes())?;
    Ok(())
}

// Adds a number in decimal digits.
fn put_number<I: Integer>(out: &mut Vec<u8>, n: I) -> Result<(), OutOfMemory>
    ensures { OnOk result (out.new.items ≡ out.old.items ++ I.text n) }
{
    let mut buffer = Buffer::new();
    out.extend_from_slice(buffer.format(n).as_bytes())?;
    Ok(())
}

// Adds a piece.
fn put_piece(out: &mut Vec<u8>, piece: Piece) -> Result<(), OutOfMemory>
    ensures { OnOk result (out.new.items ≡ out.old.items ++ text_of_piece piece.entry) }
{
    match piece {
        Piece::Text(text) => put_text(out, text),
        Piece::Number(n) => put_number(out, n),
        Piece::Sum(n) => put_number(out, n),
    }
}

/// Adds pieces, one after the other. The one error is want of memory; a part of them may be left.
pub fn put_all(out: &mut Vec<u8>, pieces: &[Piece]) -> Result<(), OutOfMemory>
    ensures { OnOk result (out.new.items ≡ out.old.items ++ flat_map text_of_piece pieces.now) }
{
    for piece in pieces {
        put_piece(out, *piece)?;
    }
    Ok(())
}
