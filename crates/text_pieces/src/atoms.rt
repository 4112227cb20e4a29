// The atoms of ground events and units, which are added to the end of a text. Where memory runs
// out, the text keeps what it had, and may have a part of the atom behind it.
ghost use Rattle.std.specs.Prelude.{◌≡◌, ◌++◌, flat_map, codes, OnOk};
ghost use Rattle.text_pieces.specs.Atoms.{entity_words, atom_by, unit_atom};

use crate::pieces::{Piece, put_all, put_text};
use ground_types::{Domain, Name, Program, Unit, entity_word, name_of};
use rt_base::OutOfMemory;

// Adds further arguments, each behind a comma.
fn put_further(
    out: &mut Vec<u8>,
    domains: &[Domain],
    places: &[u32],
    args: &[u32],
) -> Result<(), OutOfMemory>
    ensures { OnOk result (out.new.items ≡ out.old.items ++ flat_map (λ word. codes "," ++ word)
        (entity_words domains.now places.now args.now)) }
{
    for (domain, entity) in places.iter().zip(args) {
        let word = entity_word(domains, *domain, *entity);
        put_all(out, &[Piece::Text(","), Piece::Text(word)])?;
    }
    Ok(())
}

/// Adds the atom of a ground event or a unit: its name, and in parentheses the entities of its
/// arguments.
pub fn put_atom<'a>(
    out: &mut Vec<u8>,
    domains: &'a [Domain],
    name: &'a Name,
    args: &[u32],
) -> Result<(), OutOfMemory>
    ensures { OnOk result (out.new.items ≡ out.old.items ++ atom_by domains.now name.now args.now) }
{
    let word = name.word.as_str();
    let [domain, places @ ..] = name.args.as_slice() else {
        return put_text(out, word);
    };
    let [first, others @ ..] = args else {
        return put_text(out, word);
    };
    let first = entity_word(domains, *domain, *first);
    put_all(
        out,
        &[Piece::Text(word), Piece::Text("("), Piece::Text(first)],
    )?;
    put_further(out, domains, places, others)?;
    put_text(out, ")")
}

/// Adds the atom of a unit.
pub fn put_unit_atom(out: &mut Vec<u8>, program: &Program, unit: &Unit) -> Result<(), OutOfMemory>
    ensures { OnOk result (out.new.items ≡ out.old.items ++ unit_atom program.now unit.now) }
{
    match name_of(program, unit) {
        Some(name) => put_atom(out, program.domains.as_slice(), name, unit.args.as_slice()),
        None => Ok(()),
    }
}
