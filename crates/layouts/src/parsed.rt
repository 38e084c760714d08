//! A `?` for parse calls.

/// Expands to the rest and the value that a parse call returns, or returns its refusal. `?` does
/// the same through `Try`, and takes up to twice as long to prove.
#[macro_export]
macro_rules! parsed {
    ($call:expr) => {
        match $call {
            Ok(read) => read,
            Err(refusal) => return Err(refusal),
        }
    };
}
