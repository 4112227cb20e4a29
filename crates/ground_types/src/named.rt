// What the numbers in a program name.
ghost use Rattle.std.specs.Prelude.{◌≡◌, slice_get};
ghost use Rattle.std.specs.Option.{option_copied};
ghost use Rattle.ground_types.specs.Words.{entity_word};
ghost use Rattle.ground_types.specs.Sound.{is_input, unit_values};

use crate::{Domain, Name, NameKind, Program, Unit};

/// Whether a name of this kind is an input event.
pub fn is_input(kind: NameKind) -> bool
    ensures { result ≡ is_input kind }
{
    matches!(kind, NameKind::Input)
}

/// The name of a unit; None where there is no such name. It takes no memory.
pub fn name_of<'a>(program: &'a Program, unit: &Unit) -> Option<&'a Name>
    ensures { option_copied result ≡ slice_get program.now.names unit.now.name }
{
    program.names.as_slice().get(unit.name as usize)
}

/// How many values the name of a unit has; none where there is no such name. It takes no memory.
pub fn value_count(program: &Program, unit: &Unit) -> usize
    ensures { result ≡ unit_values program.now unit.now }
{
    match program.names.as_slice().get(unit.name as usize) {
        Some(name) => name.values.as_slice().len(),
        None => 0,
    }
}

/// The word of an entity of a domain; empty where there is none. It takes no memory.
pub fn entity_word(domains: &[Domain], domain: u32, entity: u32) -> &str
    ensures { result.now ≡ entity_word domains.now (domain, entity) }
{
    match domains.get(domain as usize) {
        Some(domain) => match domain.entities.as_slice().get(entity as usize) {
            Some(word) => word.as_str(),
            None => "",
        },
        None => "",
    }
}
