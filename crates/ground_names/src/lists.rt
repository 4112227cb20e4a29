// Lists of numbers below given sizes, in order, the first number slowest: how many there are, which
// stands at a place, and at which place one stands.
ghost use Rattle.std.specs.Prelude.{◌≡◌, ◌<◌, ◌^◌, true, length, slice_get, Some, option_map, IfOk};
ghost use Rattle.std.specs.List.{list_all};
ghost use Rattle.ground_types.specs.Sound.{argument_lists, domain_sizes, entity_count};
ghost use Rattle.decl_known.specs.Sound.{is_sound_domain};
ghost use Rattle.ground_names.specs.Counted.{capped, ranked};

use ground_types::Domain;
use rt_base::OutOfMemory;
use std::alloc::Global;

/// How many entities the domain of this number has, 0 where there is no such domain.
pub fn entity_count(domains: &[Domain], number: u32) -> u32
    requires { list_all is_sound_domain domains.now ≡ true }
    ensures { result ≡ entity_count (slice_get domains.now number) }
{
    match domains.get(number as usize) {
        Some(domain) => domain.entities.as_slice().len() as u32,
        None => 0,
    }
}

// Puts how many entities each of the domains of these numbers has in place of what was there.
fn put_sizes(domains: &[Domain], numbers: &[u32], into: &mut Vec<u32>) -> Result<(), OutOfMemory>
    requires { list_all is_sound_domain domains.now ≡ true }
    ensures { IfOk result (λ _. into.new.items ≡ domain_sizes domains.now numbers.now) }
{
    into.clear();
    for number in numbers {
        into.push(entity_count(domains, *number))?;
    }
    Ok(())
}

/// How many entities each of the domains of these numbers has.
pub fn sizes_of(alloc: Global, domains: &[Domain], numbers: &[u32]) -> Result<Vec<u32>, OutOfMemory>
    requires { list_all is_sound_domain domains.now ≡ true }
    ensures { IfOk result (λ sizes. sizes.items ≡ domain_sizes domains.now numbers.now) }
{
    let mut sizes = Vec::with_capacity(alloc, numbers.len())?;
    put_sizes(domains, numbers, &mut sizes)?;
    Ok(sizes)
}

/// How many lists of numbers below these sizes there are, or the greatest number where there are
/// more.
pub fn count_lists(sizes: &[u32]) -> u64
    ensures { result ≡ capped (length (argument_lists sizes.now)) }
{
    let mut count: u64 = 1;
    for size in sizes {
        count = count.saturating_mul(*size as u64);
    }
    count
}

/// How many arguments over the domains of these numbers there are, or the greatest number where
/// there are more.
pub fn count_arguments(domains: &[Domain], numbers: &[u32]) -> u64
    requires { list_all is_sound_domain domains.now ≡ true }
    ensures { result ≡ capped (length (argument_lists (domain_sizes domains.now numbers.now))) }
{
    let mut count: u64 = 1;
    for number in numbers {
        count = count.saturating_mul(entity_count(domains, *number) as u64);
    }
    count
}

// Puts the list at a place in the order of all lists of numbers below these sizes in their place.
fn take_apart(sizes: &mut [u32], place: u32)
    requires inside { place < length (argument_lists sizes.old) }
    requires few { length (argument_lists sizes.old) < 2 ^ 64 }
    ensures { slice_get (argument_lists sizes.old) place ≡ Some sizes.new }
{
    // How many lists there are of the numbers that are left, and at which place of theirs the list
    // is.
    let mut count = count_lists(sizes);
    let mut rest = place as u64;
    for size in sizes.iter_mut() {
        count /= *size as u64;
        *size = (rest / count) as u32;
        rest %= count;
    }
}

/// Puts the list at a place in the order of all lists of numbers below these sizes in place of what
/// was there.
pub fn list_at(sizes: &[u32], place: u32, into: &mut Vec<u32>) -> Result<(), OutOfMemory>
    requires inside { place < length (argument_lists sizes.now) }
    requires few { length (argument_lists sizes.now) < 2 ^ 64 }
    ensures { IfOk result (λ _. slice_get (argument_lists sizes.now) place ≡ Some into.new.items) }
{
    into.clear();
    into.extend_from_slice(sizes)?;
    take_apart(into.as_mut_slice(), place);
    Ok(())
}

// Puts the arguments at a place in the order of all arguments over the domains of these numbers in
// place of what was there.
pub(crate) fn arguments_at(
    domains: &[Domain],
    numbers: &[u32],
    place: u32,
    into: &mut Vec<u32>,
) -> Result<(), OutOfMemory>
    requires domains { list_all is_sound_domain domains.now ≡ true }
    requires inside { place < length (argument_lists (domain_sizes domains.now numbers.now)) }
    requires few { length (argument_lists (domain_sizes domains.now numbers.now)) < 2 ^ 64 }
    ensures { IfOk result (λ _. slice_get (argument_lists (domain_sizes domains.now numbers.now))
        place ≡ Some into.new.items) }
{
    put_sizes(domains, numbers, into)?;
    take_apart(into.as_mut_slice(), place);
    Ok(())
}

/// The place of a list that goes on by a number below a size, from that of the numbers before it;
/// None where the number is not below the size. It is the greatest number where it would be more.
pub fn next_place(place: u64, size: u32, number: u32) -> Option<u64>
    ensures { result ≡ option_map capped (ranked (Some place) (size, number)) }
{
    if number < size {
        Some(
            place
                .saturating_mul(size as u64)
                .saturating_add(number as u64),
        )
    } else {
        None
    }
}
