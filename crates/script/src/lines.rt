ghost use Rattle.std.specs.Prelude.{◌≡◌, ◌≢◌, ◌+◌, ◌-◌, ◌<◌, ◌≤◌, ◌∷◌, drop, false, length, slice_index, take};
ghost use Rattle.text_model.specs.Lines.{Closes, lines_of};
ghost use Rattle.script.specs.Fields.{IsFront, IsPrintableTo, is_printable, is_printable_byte};

use std::simd::prelude::*;

/// How many of the 16 bytes from a place on come before the first that isn't a printable ASCII character or a space.
#[inline(always)]
fn printable_lanes(bytes: &[u8], at: usize) -> usize
    requires { at + 16 ≤ length bytes.now }
    ensures { IsFront bytes.now at 16 result }
{
    let block = u8x16::from_slice(&bytes[at..]);
    let others = block.simd_lt(u8x16::splat(b' ')) | block.simd_gt(u8x16::splat(b'~'));
    let others = others.to_bitmask();
    if others == 0 {
        16
    } else {
        others.trailing_zeros() as usize
    }
}

/// The place of the first byte from a place on that isn't a printable ASCII character or a space; their number where
/// there is none.
#[tactic(auto, using(crate::proofs::LaneLaws::front_taken, std::proofs::lemmas::Grind::common_steps))]
fn printable_to(bytes: &[u8], from: usize) -> usize
    requires within { from ≤ length bytes.now }
    requires front { IsPrintableTo bytes.now from }
    ensures within { result ≤ length bytes.now }
    ensures front { IsPrintableTo bytes.now result }
    ensures end { result < length bytes.now → is_printable_byte (slice_index bytes.now result) ≡ false }
{
    for i in from..bytes.len() {
        if !matches!(bytes[i], b' '..=b'~') {
            return i;
        }
    }
    bytes.len()
}

/// How many bytes at the front are printable ASCII characters or spaces. It looks at 16 bytes at a time.
#[tactic(auto, using(crate::proofs::LaneLaws::front_taken, std::proofs::lemmas::Grind::common_steps))]
fn printable_front(bytes: &[u8]) -> usize
    ensures within { result ≤ length bytes.now }
    ensures front { IsPrintableTo bytes.now result }
    ensures end { result < length bytes.now → is_printable_byte (slice_index bytes.now result) ≡ false }
{
    let mut at = 0;
    while bytes.len() - at >= 16 {
        let run = printable_lanes(bytes, at);
        if run < 16 {
            return at + run;
        }
        at += 16;
    }
    printable_to(bytes, at)
}

/// The first line, without its line feed, and what follows it, where a byte of the line is known that isn't printable,
/// and none before it is a line feed.
#[tactic(auto, using(crate::proofs::LineLaws::line_cut_steps))]
fn line_from(bytes: &[u8], from: usize) -> (&[u8], &[u8])
    requires within { from < length bytes.now }
    requires front { IsPrintableTo bytes.now from }
    requires other { slice_index bytes.now from ≢ 10 }
    requires unprintable { is_printable_byte (slice_index bytes.now from) ≡ false }
    ensures lines { lines_of bytes.now ≡ result.0.now ∷ lines_of result.1.now }
    ensures within { length result.0.now ≤ length bytes.now }
    ensures shorter { length result.1.now < length bytes.now }
    ensures rest { result.1.now ≡ drop (length bytes.now - length result.1.now) bytes.now }
    ensures closes { 0 < length result.1.now
        → Closes (take (length bytes.now - length result.1.now) bytes.now) result.0.now }
    ensures unprintable { is_printable result.0.now ≡ false }
{
    for i in from + 1..bytes.len() {
        if bytes[i] == b'\n' {
            return (&bytes[..i], &bytes[i + 1..]);
        }
    }
    (bytes, &[])
}

/// The first line, without its line feed, what follows it, and whether each byte of the line is a
/// printable ASCII character or a space.
#[tactic(auto, using(crate::proofs::LineLaws::line_cut_steps))]
pub(crate) fn next_checked(bytes: &[u8]) -> (&[u8], &[u8], bool)
    requires { 0 < length bytes.now }
    ensures lines { lines_of bytes.now ≡ result.0.now ∷ lines_of result.1.now }
    ensures within { length result.0.now ≤ length bytes.now }
    ensures shorter { length result.1.now < length bytes.now }
    ensures rest { result.1.now ≡ drop (length bytes.now - length result.1.now) bytes.now }
    ensures closes { 0 < length result.1.now
        → Closes (take (length bytes.now - length result.1.now) bytes.now) result.0.now }
    ensures printable { result.2 ≡ is_printable result.0.now }
{
    let front = printable_front(bytes);
    if front == bytes.len() {
        return (bytes, &[], true);
    }
    if bytes[front] == b'\n' {
        return (&bytes[..front], &bytes[front + 1..], true);
    }
    let (line, rest) = line_from(bytes, front);
    (line, rest, false)
}

/// The first line of some bytes, without its line feed, and what follows it. It looks at 16 bytes at a time, as far as
/// they are printable.
pub fn next_line(bytes: &[u8]) -> (&[u8], &[u8])
    requires { 0 < length bytes.now }
    ensures lines { lines_of bytes.now ≡ result.0.now ∷ lines_of result.1.now }
    ensures within { length result.0.now ≤ length bytes.now }
    ensures shorter { length result.1.now < length bytes.now }
    ensures rest { result.1.now ≡ drop (length bytes.now - length result.1.now) bytes.now }
    ensures closes { 0 < length result.1.now
        → Closes (take (length bytes.now - length result.1.now) bytes.now) result.0.now }
{
    let (line, rest, _printable) = next_checked(bytes);
    (line, rest)
}
