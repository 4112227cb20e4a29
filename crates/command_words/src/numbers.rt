// Numbers in words.
ghost use Rattle.std.specs.Prelude.{◌≡◌, ◌≤◌, IfSome, option_map};
ghost use Rattle.std.specs.List.{list_all};
ghost use Rattle.std.specs.Char.{is_ascii_digit};
ghost use Rattle.command_words.specs.Words.{are_digits, number_in, seed_of, size_of, workers_of};
ghost use Rattle.command_words.specs.Words.{feeders_of};
ghost use Rattle.command_words.specs.Matching.{Digits, value_of};

// Whether all bytes are digits.
fn are_all_digits(bytes: &[u8]) -> bool
    ensures { result ≡ list_all is_ascii_digit bytes.now }
{
    bytes.iter().all(|c| c.is_ascii_digit())
}

// Whether a text is one digit or more, and no more than these.
fn are_digits(most: usize, text: &str) -> bool
    ensures { result ≡ are_digits most text.now }
{
    are_all_digits(text.as_bytes()) && !text.is_empty() && text.len() <= most
}

// The number that digits write, where it has 64 bits.
fn value_of(text: &str) -> Option<u64>
    requires { Digits text.now }
    ensures { result ≡ value_of text.now }
{
    match text.parse::<u64>() {
        Ok(value) => Some(value),
        Err(_) => None,
    }
}

// The number of at most so many digits that lies within its bounds, both allowed.
fn number_in(digits: usize, least: u64, most: u64, text: &str) -> Option<u64>
    ensures is { result ≡ number_in digits least most text.now }
    ensures within { IfSome result (λ number. number ≤ most) }
{
    if !are_digits(digits, text) {
        return None;
    }
    let value = value_of(text)?;
    if least <= value && value <= most {
        Some(value)
    } else {
        None
    }
}

// The seed of a generator.
pub(crate) fn seed_of(text: &str) -> Option<u64>
    ensures { result ≡ seed_of text.now }
{
    number_in(20, 0, u64::MAX, text)
}

// The size of a workload.
pub(crate) fn size_of(text: &str) -> Option<u32>
    ensures { result ≡ size_of text.now }
{
    let size = number_in(7, 1, 2_097_152, text)?;
    Some(size as u32)
}

// The number of workers; without the option there is one.
pub(crate) fn workers_of(given: Option<&str>) -> Option<u8>
    ensures { result ≡ workers_of (option_map (λ v. v.now) given.entry) }
{
    let Some(text) = given else {
        return Some(1);
    };
    let workers = number_in(2, 1, 16, text)?;
    Some(workers as u8)
}

// The number of feeders, which is required.
pub(crate) fn feeders_of(given: Option<&str>) -> Option<usize>
    ensures { result ≡ feeders_of (option_map (λ v. v.now) given.entry) }
{
    let feeders = number_in(1, 1, 8, given?)?;
    Some(feeders as usize)
}
