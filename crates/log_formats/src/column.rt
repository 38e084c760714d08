//! The types of a line's fields.

/// A field's type, with its text in docs/TLSLOG.md, and its type in Zeek's logs.
#[derive(Clone, Copy)]
pub enum Type {
    /// seconds since 1970-01-01 00:00 UTC, with 6 digits behind the point
    Time,
    /// seconds, with 6 digits behind the point
    Interval,
    /// an address of IPv4 or IPv6
    Address,
    /// a number
    Port,
    /// a name
    Enum,
    /// a text
    Text,
    /// `T` or `F`
    Mark,
    /// a number
    Count,
    /// the version's number
    Version,
    /// the method's name, `NULL`, `DEFLATE` or `LZS`; of any other `unknown-` and its number
    Method,
    /// the names of methods, as that of one, with `,` between them
    Methods,
    /// `uncompressed`, `ansiX962_compressed_prime`, `ansiX962_compressed_char2`, or `unknown-` and
    /// the number, with `,` between them
    PointFormats,
    /// `psk_ke`, `psk_dhe_ke`, or `unknown-` and the number, with `,` between them
    Modes,
    /// texts, with `,` between them
    Texts,
    /// numbers, with `,` between them
    Counts,
    /// addresses, with `,` between them
    Addresses,
    /// JSON of an object's fields
    Fields,
}

/// A field: its name, its type, and what computes it.
pub type Column<T> = (&'static str, Type, T);
