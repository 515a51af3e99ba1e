ghost use Rattle.std.specs.Prelude.{◌≡◌, ◌≤◌, ◌<◌, ◌^◌, ◌++◌, replicate, decimal, IfOk};
ghost use Rattle.fixed_text.specs.{fixed_text, padded_digits};

use itoa::Buffer;
use std::alloc::AllocError;

// 10 to the power of `places`.
fn scale(places: u32) -> u128
    requires { places ≤ 27 }
    ensures value { result ≡ 10 ^ places }
    ensures positive { 0 < result }
{
    let mut scale = 1u128;
    for _ in 0..places {
        scale *= 10;
    }
    scale
}

fn push_zeros(text: &mut Vec<u8>, count: usize) -> Result<(), AllocError>
    ensures { IfOk result (λ _. text.new.items ≡ text.old.items ++ replicate count 48) }
{
    for _ in 0..count {
        text.push(b'0')?;
    }
    Ok(())
}

/// Appends a number in decimal, without leading zeros.
pub fn push_number(text: &mut Vec<u8>, n: u128) -> Result<(), AllocError>
    ensures { IfOk result (λ _. text.new.items ≡ text.old.items ++ decimal n) }
{
    let mut buffer = Buffer::new();
    text.extend_from_slice(buffer.format(n).as_bytes())
}

fn push_padded(text: &mut Vec<u8>, places: usize, n: u128) -> Result<(), AllocError>
    ensures { IfOk result (λ _. text.new.items ≡ text.old.items ++ padded_digits places n) }
{
    let mut buffer = Buffer::new();
    let digits = buffer.format(n).as_bytes();
    push_zeros(text, places.saturating_sub(digits.len()))?;
    text.extend_from_slice(digits)
}

/// Appends z * 10 ^ -places: a minus sign if z is negative, the whole part, a point, and exactly
/// `places` digits.
pub fn push_fixed(text: &mut Vec<u8>, places: u32, z: i128) -> Result<(), AllocError>
    requires some { 0 < places }
    requires few { places ≤ 27 }
    ensures { IfOk result (λ _. text.new.items ≡ text.old.items ++ fixed_text places z) }
{
    if z < 0 {
        text.push(b'-')?;
    }
    let scale = scale(places);
    let n = z.unsigned_abs();
    push_number(text, n / scale)?;
    text.push(b'.')?;
    push_padded(text, places as usize, n % scale)
}
