//! Finds the end of a string without escapes, sixteen bytes at a time.
ghost use Rattle.std.specs.Prelude.{◌≡◌, ◌+◌, ◌≤◌, length, drop, map};
ghost use Rattle.std.specs.List.{prefix_len};
ghost use Rattle.std.specs.Simd.Lanes.{mask_l};
ghost use Rattle.json.specs.Run.{is_stop, is_plain};

use std::simd::prelude::*;

/// The number of bytes before the first quote, backslash or control byte.
#[inline(never)]
pub(crate) fn plain_len(text: &str) -> usize
    ensures { result ≡ prefix_len is_plain text.now }
{
    let bytes = text.as_bytes();
    let mut len = 0;
    while bytes.len() - len >= 16 {
        let found = stops(u8x16::from_slice(&bytes[len..]));
        if found != 0 {
            return len + found.trailing_zeros() as usize;
        }
        len += 16;
    }
    plain_end(bytes, len)
}

/// A bit for each quote, backslash and control byte.
#[inline(always)]
fn stops(bytes: u8x16) -> u64
    ensures { result ≡ mask_l (map is_stop bytes) }
{
    (bytes.simd_eq(u8x16::splat(b'"'))
        | bytes.simd_eq(u8x16::splat(b'\\'))
        | bytes.simd_lt(u8x16::splat(0x20))).to_bitmask()
}

/// Where the plain bytes from here on end, byte by byte.
#[inline(always)]
fn plain_end(bytes: &[u8], from: usize) -> usize
    requires { from ≤ length bytes.now }
    ensures { result ≡ from + prefix_len is_plain (drop from bytes.now) }
{
    let mut end = from;
    while end < bytes.len() && bytes[end] != b'"' && bytes[end] != b'\\' && bytes[end] >= 0x20 {
        end += 1;
    }
    end
}
