//! Appends numbers and bytes to a vector with enough capacity.
ghost use Rattle.std.specs.Prelude.{◌≡◌, ◌<◌, ◌≤◌, ◌+◌, ◌^◌, ◌++◌, length, vec_len, vec_capacity};
ghost use Rattle.std.specs.Option.{option_map};
ghost use Rattle.layouts.specs.Bytes.{bytes_of};
ghost use Rattle.layouts.specs.Text.{held as held_of};

/// Appends a number of 1 byte.
pub fn append1(out: &mut Vec<u8>, n: u8)
    requires { vec_len out.old + 1 ≤ vec_capacity out.old }
    ensures items { out.new.items ≡ out.old.items ++ bytes_of 1 n }
    ensures range { n < 256 ^ 1 }
    ensures len { vec_len out.new ≡ vec_len out.old + 1 }
    ensures capacity { vec_capacity out.old ≤ vec_capacity out.new }
{
    out.push_reserved(n);
}

/// Appends a number of 2 bytes, big-endian.
pub fn append2(out: &mut Vec<u8>, n: u16)
    requires { vec_len out.old + 2 ≤ vec_capacity out.old }
    ensures items { out.new.items ≡ out.old.items ++ bytes_of 2 n }
    ensures range { n < 256 ^ 2 }
    ensures len { vec_len out.new ≡ vec_len out.old + 2 }
    ensures capacity { vec_capacity out.old ≤ vec_capacity out.new }
{
    out.push_reserved((n / 256) as u8);
    out.push_reserved((n % 256) as u8);
}

/// Appends a number of 3 bytes, big-endian.
pub fn append3(out: &mut Vec<u8>, n: u32)
    requires room { vec_len out.old + 3 ≤ vec_capacity out.old }
    requires range { n < 256 ^ 3 }
    ensures items { out.new.items ≡ out.old.items ++ bytes_of 3 n }
    ensures len { vec_len out.new ≡ vec_len out.old + 3 }
    ensures capacity { vec_capacity out.old ≤ vec_capacity out.new }
{
    out.push_reserved((n / 256 / 256) as u8);
    out.push_reserved((n / 256 % 256) as u8);
    out.push_reserved((n % 256) as u8);
}

/// Appends `b`.
pub fn append_bytes(out: &mut Vec<u8>, b: &[u8])
    requires { vec_len out.old + length b.now ≤ vec_capacity out.old }
    ensures items { out.new.items ≡ out.old.items ++ b.now }
    ensures len { vec_len out.new ≡ vec_len out.old + length b.now }
    ensures capacity { vec_capacity out.old ≤ vec_capacity out.new }
{
    let _added = out.extend_from_slice(b);
}

/// Returns the content of an optional block, or no bytes if there is none.
pub fn held<'a>(o: Option<&'a [u8]>) -> &'a [u8]
    ensures bytes { result.now ≡ held_of (option_map (λ x. x.now) o.entry) }
    ensures len { length result.now ≡ length (held_of (option_map (λ x. x.now) o.entry)) }
{
    match o {
        Some(b) => b,
        None => &[],
    }
}
