//! Digits of base 16, sixteen bytes of them read at once.

ghost use Rattle.std.specs.Prelude.{◌≡◌, map, length, IfSome};
ghost use Rattle.am_trace_text.specs.Words.{hex_digits};
ghost use Rattle.am_trace_text.specs.Bounds.{IsByteList};
ghost use Rattle.am_trace_read.specs.Lanes.{lane_number};

use std::simd::prelude::*;

/// The bytes of 32 digits, where all of them are digits.
#[inline(always)]
pub(crate) fn sixteen_bytes(digits: &[u8]) -> Option<[u8; 16]>
    requires { length digits.now ≡ 32 }
    ensures bytes { IfSome result IsByteList }
    ensures text { IfSome result (λ bytes. digits.now ≡ hex_digits bytes) }
{
    let numbers = numbers(u8x32::from_slice(digits));
    if numbers.simd_ge(u8x32::splat(16)).to_bitmask() != 0 {
        return None;
    }
    let high = numbers.swizzle([0, 2, 4, 6, 8, 10, 12, 14, 16, 18, 20, 22, 24, 26, 28, 30]);
    let low = numbers.swizzle([1, 3, 5, 7, 9, 11, 13, 15, 17, 19, 21, 23, 25, 27, 29, 31]);
    Some((high * u8x16::splat(16) + low).to_array())
}

// The number of each digit, and 255 for a byte that is none.
#[inline(always)]
fn numbers(bytes: u8x32) -> u8x32
    ensures { result ≡ map lane_number bytes }
{
    let tens = bytes - u8x32::splat(b'0');
    let letters = bytes - u8x32::splat(b'a');
    let high = letters
        .simd_lt(u8x32::splat(6))
        .select(letters + u8x32::splat(10), u8x32::splat(255));
    tens.simd_lt(u8x32::splat(10)).select(tens, high)
}
