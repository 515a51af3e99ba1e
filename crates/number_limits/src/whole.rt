// Integers.
ghost use Rattle.std.specs.Prelude.{◌≡◌};
ghost use Rattle.number_limits.specs.{within};

/// An integer as a count from 1 to a limit; None where it isn't one.
pub fn within(number: i64, limit: u32) -> Option<u32>
    ensures { result ≡ within number limit }
{
    if number < 1 || number > limit as i64 {
        return None;
    }
    Some(number as u32)
}
