//! Binary search in a table of numbers.
ghost use Rattle.std.specs.Prelude.{◌≡◌, ◌↔◌, ℕ, Some, slice_get};
ghost use Rattle.std.specs.List.Sorted.{IsStrictlyIncreasing};

/// Returns the position of `n` in a strictly increasing table, by binary search; `None` if it isn't
/// there.
pub fn place(table: &[u16], n: u16) -> Option<usize>
    requires { IsStrictlyIncreasing table.now }
    ensures { (k : ℕ) → (result ≡ Some k) ↔ (slice_get table.now k ≡ Some n) }
{
    table.binary_search(&n).ok()
}
