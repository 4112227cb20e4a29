// The fields of a record, one after the other, and the numbers in them.
ghost use Rattle.std.specs.Prelude.{◌≡◌, ◌∷◌, [], MatchOption};
ghost use Rattle.csv.specs.Records.{fields_of};
ghost use Rattle.stream_read.specs.Fields.{number_of, feeder_of};

use csv::ByteRecord;
use std::marker::Model;

// The fields of a record that are left.
#[derive(Drop)]
pub(crate) struct Fields<'a> {
    row: &'a ByteRecord,
    at: usize,
}

impl<'a> Model for Fields<'a> {
    ghost use Rattle.std.specs.Prelude.{List, ℕ, drop};
    ghost use Rattle.csv.specs.Records.{fields_of};

    ghost Value = { List (List ℕ) };

    ghost view = { λ fields. drop fields.at (fields_of fields.row.now) };
}

impl<'a> Fields<'a> {
    // All fields of a record.
    pub(crate) fn of(row: &'a ByteRecord) -> Fields<'a>
        ensures { result ≡ fields_of row.now }
    {
        Fields { row, at: 0 }
    }

    // The next field, which is then no longer left.
    pub(crate) fn next(&mut self) -> Option<&'a [u8]>
        ensures { MatchOption result (self.old ≡ []) (λ field. self.old ≡ field.now ∷ self.new) }
    {
        let field = self.row.get(self.at)?;
        self.at += 1;
        Some(field)
    }
}

// The number of 1 to 16 digits, leading zeros allowed.
pub(crate) fn number(text: &[u8]) -> Option<u64>
    ensures { result ≡ number_of text.now }
{
    if text.is_empty() || text.len() > 16 {
        return None;
    }
    let mut value = 0u64;
    for c in text {
        if !c.is_ascii_digit() {
            return None;
        }
        value = 10 * value + u64::from(*c - b'0');
    }
    Some(value)
}

// The number of a feeder, one digit, 1 to 8.
pub(crate) fn feeder(text: &[u8]) -> Option<u8>
    ensures { result ≡ feeder_of text.now }
{
    match text {
        [c] if (b'1'..=b'8').contains(c) => Some(*c - b'0'),
        _ => None,
    }
}
