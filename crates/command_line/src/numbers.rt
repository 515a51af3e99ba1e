ghost use Rattle.std.specs.Prelude.{◌≡◌, ◌≤◌, option_map, IfSome};
ghost use Rattle.command_line.specs.{number_in, number_or, turns_of};

use itoa::Buffer;

/// The number from `low` to `high` that a text gives in decimal digits, without a sign or a needless zero.
pub(crate) fn read_number(text: &str, low: u32, high: u32) -> Option<u32>
    ensures is { result ≡ number_in low high text.now }
    ensures in_range { IfSome result (λ n. (low ≤ n) × (n ≤ high)) }
{
    let Ok(n) = text.parse::<u32>() else {
        return None;
    };
    let mut buffer = Buffer::new();
    if text == buffer.format(n) && low <= n && n <= high {
        Some(n)
    } else {
        None
    }
}

fn number_or(text: Option<&str>, low: u32, high: u32, given: u32) -> Option<u32>
    requires { (low ≤ given) × (given ≤ high) }
    ensures is { result ≡ number_or low high given (option_map (λ s. s.now) text.entry) }
    ensures in_range { IfSome result (λ n. (low ≤ n) × (n ≤ high)) }
{
    match text {
        None => Some(given),
        Some(text) => read_number(text, low, high),
    }
}

/// The digits of conductances after the point; 12 if they aren't given.
pub(crate) fn digits_or_given(text: Option<&str>) -> Option<u32>
    ensures is { result ≡ number_or 0 18 12 (option_map (λ s. s.now) text.entry) }
    ensures in_range { IfSome result (λ n. n ≤ 18) }
{
    number_or(text, 0, 18, 12)
}

/// The number of workers that settle a step; 4 if it isn't given.
pub(crate) fn workers_or_given(text: Option<&str>) -> Option<u32>
    ensures is { result ≡ number_or 1 64 4 (option_map (λ s. s.now) text.entry) }
    ensures in_range { IfSome result (λ n. (1 ≤ n) × (n ≤ 64)) }
{
    number_or(text, 1, 64, 4)
}

/// The plain rounds of a step; a million if they aren't given.
pub(crate) fn rounds_or_given(text: Option<&str>) -> Option<u32>
    ensures is { result ≡ number_or 1 4000000000 1000000 (option_map (λ s. s.now) text.entry) }
    ensures in_range { IfSome result (λ n. (1 ≤ n) × (n ≤ 4000000000)) }
{
    number_or(text, 1, 4_000_000_000, 1_000_000)
}

/// The turns of the watching seat, which exists only if they are given.
pub(crate) fn turns_or_none(text: Option<&str>) -> Option<Option<u32>>
    ensures is { result ≡ turns_of (option_map (λ s. s.now) text.entry) }
    ensures in_range { IfSome result (λ turns. IfSome turns (λ n. (1 ≤ n) × (n ≤ 1000))) }
{
    match text {
        None => Some(None),
        Some(text) => Some(Some(read_number(text, 1, 1000)?)),
    }
}
