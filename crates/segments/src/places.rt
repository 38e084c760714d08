//! Operations on a window of positions, each with or without a byte.
ghost use Rattle.std.specs.Prelude.{◌≡◌, ◌≤◌, ◌++◌, length, drop, OnOk, OnErr};
ghost use Rattle.segments.specs.Cells.{Bytes, differing, empties, fill, run};
ghost use Rattle.segments.specs.Places.{over};

use crate::window::Window;
use std::alloc::AllocError;

/// Returns how many positions are empty before the first byte.
pub(crate) fn count_empty(window: &Window) -> usize
    ensures is { result ≡ empties window.now }
    ensures within { result ≤ length window.now }
{
    for i in 0..window.len() {
        if window.place(i).is_some() {
            return i;
        }
    }
    window.len()
}

/// Returns at how many positions from `at` on a byte is present that differs from the given one.
pub(crate) fn count_differing(window: &Window, at: usize, bytes: &[u8]) -> usize
    ensures is { result ≡ differing at bytes.now window.now }
    ensures within { result ≤ length bytes.now }
{
    if window.len() < at {
        return 0;
    }
    let common = bytes.len().min(window.len() - at);
    window.differing(at, &bytes[..common])
}

/// Appends the bytes to `out`, but a byte that is present in the window in place of the given one.
fn append_over(out: &mut Vec<u8>, bytes: &[u8], window: &Window) -> Result<(), AllocError>
    ensures out { OnOk result (out.new.items ≡ out.old.items ++ over window.now bytes.now) }
    ensures err { OnErr result ((s : Bytes) × (out.new.items ≡ out.old.items ++ s)) }
{
    let common = bytes.len().min(window.len());
    window.append_over(&bytes[..common], out)?;
    out.extend_from_slice(&bytes[common..])?;
    Ok(())
}

/// Appends the bytes up to the first empty position to `out`, as if `bytes` had been written to the
/// first positions.
pub(crate) fn append_joined(
    out: &mut Vec<u8>,
    bytes: &[u8],
    window: &Window,
) -> Result<(), AllocError>
    ensures out { OnOk result (out.new.items ≡ out.old.items ++ run (fill window.now bytes.now)) }
    ensures err { OnErr result ((s : Bytes) × (out.new.items ≡ out.old.items ++ s)) }
{
    append_over(out, bytes, window)?;
    window.append_run(bytes.len().min(window.len()), out)?;
    Ok(())
}

/// Removes the first `n` bytes.
pub(crate) fn drop_first(bytes: &mut Vec<u8>, n: usize)
    requires { n ≤ length bytes.old.items }
    ensures { bytes.new.items ≡ drop n bytes.old.items }
{
    bytes.drain(..n);
}
