//! A row of positions, each with a mark and a byte. The byte is present if the mark is set.
ghost use Rattle.std.specs.Prelude.{◌≡◌, ◌≤◌, ◌+◌, ◌++◌, length, OnOk, OnErr};
ghost use Rattle.segments.specs.Cells.{Bytes, differing, fill, known, run};
ghost use Rattle.segments.specs.Pages.{marked, set_marks};
ghost use Rattle.segments.specs.Places.{over};

use std::alloc::AllocError;

/// Returns how many marks are set.
pub(crate) fn count_marks(marks: &[bool]) -> usize
    ensures is { result ≡ set_marks marks.now }
    ensures within { result ≤ length marks.now }
{
    let mut count = 0;
    for mark in marks {
        if *mark {
            count += 1;
        }
    }
    count
}

/// Returns the bytes before the first position without a byte.
pub(crate) fn front_before_gap<'a>(marks: &[bool], bytes: &'a [u8]) -> &'a [u8]
    requires { length bytes.now ≡ length marks.now }
    ensures { result.now ≡ run (marked marks.now bytes.now) }
{
    for i in 0..marks.len() {
        if !marks[i] {
            return &bytes[..i];
        }
    }
    bytes
}

/// Returns at how many positions a byte is present that differs from the new one.
pub(crate) fn count_unlike(marks: &[bool], bytes: &[u8], new: &[u8]) -> usize
    requires bytes { length bytes.now ≡ length marks.now }
    requires new { length new.now ≡ length marks.now }
    ensures is { result ≡ differing 0 new.now (marked marks.now bytes.now) }
    ensures within { result ≤ length new.now }
{
    let mut count = 0;
    for i in 0..new.len() {
        let is_unlike = bytes[i] != new[i];
        if marks[i] && is_unlike {
            count += 1;
        }
    }
    count
}

/// Writes the new bytes to the positions without a byte, one by one, and returns how many it wrote.
fn fill_each(marks: &mut [bool], bytes: &mut [u8], new: &[u8]) -> usize
    requires bytes { length bytes.old ≡ length marks.old }
    requires new { length new.now ≡ length marks.old }
    ensures filled { marked marks.new bytes.new ≡ fill (marked marks.old bytes.old) new.now }
    ensures counted { known (marked marks.new bytes.new)
        ≡ known (marked marks.old bytes.old) + result }
    ensures within { result ≤ length new.now }
{
    let mut count = 0;
    for i in 0..new.len() {
        if !marks[i] {
            marks[i] = true;
            bytes[i] = new[i];
            count += 1;
        }
    }
    count
}

/// Writes the new bytes to the positions without a byte, and returns how many it wrote. `standing`
/// is how many bytes are present. If none or all are, which is usual, the new ones are copied at
/// once, or not at all.
pub(crate) fn fill_empty(standing: usize, marks: &mut [bool], bytes: &mut [u8], new: &[u8]) -> usize
    requires bytes { length bytes.old ≡ length marks.old }
    requires new { length new.now ≡ length marks.old }
    requires standing { standing ≡ known (marked marks.old bytes.old) }
    ensures filled { marked marks.new bytes.new ≡ fill (marked marks.old bytes.old) new.now }
    ensures counted { known (marked marks.new bytes.new)
        ≡ known (marked marks.old bytes.old) + result }
    ensures within { result ≤ length new.now }
{
    if standing == new.len() {
        return 0;
    }
    if standing == 0 {
        marks.fill(true);
        bytes.copy_from_slice(new);
        return new.len();
    }
    fill_each(marks, bytes, new)
}

/// Appends the new bytes to `out`, one by one, but a byte that is present in place of the new one.
fn append_each(
    out: &mut Vec<u8>,
    marks: &[bool],
    bytes: &[u8],
    new: &[u8],
) -> Result<(), AllocError>
    requires bytes { length bytes.now ≡ length marks.now }
    requires new { length new.now ≡ length marks.now }
    ensures out { OnOk result
        (out.new.items ≡ out.old.items ++ over (marked marks.now bytes.now) new.now) }
    ensures err { OnErr result ((s : Bytes) × (out.new.items ≡ out.old.items ++ s)) }
{
    for i in 0..new.len() {
        out.push(if marks[i] { bytes[i] } else { new[i] })?;
    }
    Ok(())
}

/// Appends the new bytes to `out`, but a byte that is present in place of the new one. `standing`
/// is how many bytes are present. If none or all are, which is usual, they are copied at once.
pub(crate) fn append_standing(
    standing: usize,
    out: &mut Vec<u8>,
    marks: &[bool],
    bytes: &[u8],
    new: &[u8],
) -> Result<(), AllocError>
    requires bytes { length bytes.now ≡ length marks.now }
    requires new { length new.now ≡ length marks.now }
    requires standing { standing ≡ known (marked marks.now bytes.now) }
    ensures out { OnOk result
        (out.new.items ≡ out.old.items ++ over (marked marks.now bytes.now) new.now) }
    ensures err { OnErr result ((s : Bytes) × (out.new.items ≡ out.old.items ++ s)) }
{
    if standing == 0 {
        out.extend_from_slice(new)?;
        return Ok(());
    }
    if standing == marks.len() {
        out.extend_from_slice(bytes)?;
        return Ok(());
    }
    append_each(out, marks, bytes, new)?;
    Ok(())
}
