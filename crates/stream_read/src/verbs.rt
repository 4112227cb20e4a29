// The verbs of records.
ghost use Rattle.std.specs.Prelude.{◌≡◌};
ghost use Rattle.stream_read.specs.Records.{verb_of};

// What the first field of a record is.
#[derive(Clone, Copy)]
pub(crate) enum Verb {
    Adds,
    Revokes,
    Seals,
    Asks,
    Waits,
    Follows,
    Other,
}

// The verb of these bytes.
pub(crate) fn verb_of(field: &[u8]) -> Verb
    ensures { result ≡ verb_of field.now }
{
    if field == b"add".as_slice() {
        Verb::Adds
    } else if field == b"revoke".as_slice() {
        Verb::Revokes
    } else if field == b"seal".as_slice() {
        Verb::Seals
    } else if field == b"ask".as_slice() {
        Verb::Asks
    } else if field == b"wait".as_slice() {
        Verb::Waits
    } else if field == b"after".as_slice() {
        Verb::Follows
    } else {
        Verb::Other
    }
}
