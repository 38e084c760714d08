//! Tables of numbers and names, and how numbers are shown.
ghost use Rattle.std.specs.Prelude.{◌≡◌, Some};
ghost use Rattle.std.specs.List.{zip};
ghost use Rattle.std.specs.List.Sorted.{IsStrictlyIncreasing};
ghost use Rattle.std.specs.Option.{option_map};
ghost use Rattle.std.specs.Fmt.{DisplaysOnOk};
ghost use Rattle.tls_base.specs.Names.{look_up, name, names_of, shown};

use layouts::place;
use std::fmt;

/// Expands to the constants of a type, each as its number and its name. The input is a list of
/// constants, or rows of a registry.
///
/// A row has one of three forms:
/// - `Constant = "name";` a constant, and the name that IANA's registry has for its number;
/// - `[Constant];` a constant whose number has no name there;
/// - `number = "name";` a number without a constant, and its name there.
macro_rules! names {
    ($type:ident: $($constant:ident),*) => {
        &[$(($type::$constant.0 as u16, stringify!($constant))),*]
    };
    ($type:ident:
        $($($constant:ident = $name:literal)? $([$own:ident])?
        $($number:literal = $other:literal)?;)*) => {
        &[$($(($type::$constant.0 as u16, stringify!($constant)),)?
            $(($type::$own.0 as u16, stringify!($own)),)?)*]
    };
}

pub(crate) use names;

/// Expands to the numbers of the constants in a registry's rows.
macro_rules! numbers {
    ($type:ident:
        $($($constant:ident = $name:literal)? $([$own:ident])?
        $($number:literal = $other:literal)?;)*) => {
        &[$($($type::$constant.0,)? $($type::$own.0,)?)*]
    };
}

pub(crate) use numbers;

/// Expands to the names of the constants in a registry's rows.
macro_rules! texts {
    ($type:ident:
        $($($constant:ident = $name:literal)? $([$own:ident])?
        $($number:literal = $other:literal)?;)*) => {
        &[$($(stringify!($constant),)? $(stringify!($own),)?)*]
    };
}

pub(crate) use texts;

/// Expands to the numbers with a name in IANA's registry, each with that name.
macro_rules! registered {
    ($type:ident:
        $($($constant:ident = $name:literal)? $([$own:ident])?
        $($number:literal = $other:literal)?;)*) => {
        &[$($(($type::$constant.0 as u16, $name),)? $(($number, $other),)?)*]
    };
}

pub(crate) use registered;

/// Returns what a table has for `n`, in its first entry with that number.
pub(crate) fn find_number<T: Copy>(table: &[(u16, T)], n: u16) -> Option<T>
    ensures { result ≡ look_up table.now n }
{
    table.iter().find(|x| x.0 == n).map(|x| x.1)
}

/// Returns the name of `n` in a table.
pub(crate) fn find_name(table: &[(u16, &'static str)], n: u16) -> Option<&'static str>
    ensures { option_map (λ t. t.now) result ≡ look_up (names_of table.now) n }
{
    find_number(table, n)
}

/// Writes a number: its name if it has one, else the type with the number in decimal and
/// hexadecimal.
#[tactic(auto, unfolding(crate::specs::Names::shown))]
pub(crate) fn write_shown<W: fmt::Write>(
    f: &mut fmt::Formatter<W>,
    type_name: &str,
    n: u16,
    known: Option<&'static str>,
) -> fmt::Result
    ensures { DisplaysOnOk W.Write.write_str_gives f.old result
        (Some (shown type_name.now n (option_map (λ t. t.now) known.entry))) f.new }
{
    match known {
        Some(name) => f.write_str(name),
        None => write!(f, "{type_name}({n} / 0x{n:x})"),
    }
}

/// Writes a number by its name in a table, or else as the type with the number in decimal and
/// hexadecimal.
pub(crate) fn write_name<W: fmt::Write>(
    f: &mut fmt::Formatter<W>,
    type_name: &str,
    table: &[(u16, &'static str)],
    n: u16,
) -> fmt::Result
    ensures { DisplaysOnOk W.Write.write_str_gives f.old result
        (Some (name type_name.now (names_of table.now) n)) f.new }
{
    write_shown(f, type_name, n, find_number(table, n))
}

/// Looks `n` up by binary search in a table of strictly increasing numbers.
fn find_rising(numbers: &[u16], names: &[&'static str], n: u16) -> Option<&'static str>
    requires { IsStrictlyIncreasing numbers.now }
    ensures { result ≡ look_up (zip numbers.now names.now) n }
{
    match place(numbers, n) {
        Some(k) => names.get(k).copied(),
        None => None,
    }
}

/// Returns the name of `n`, looked up by binary search: `numbers` increase strictly, and `names`
/// are in the same order.
pub(crate) fn find_rising_name(
    numbers: &[u16],
    names: &[&'static str],
    n: u16,
) -> Option<&'static str>
    requires { IsStrictlyIncreasing numbers.now }
    ensures { option_map (λ t. t.now) result ≡ look_up (names_of (zip numbers.now names.now)) n }
{
    find_rising(numbers, names, n)
}

/// Writes a number by its name, or else as the type with the number. `numbers` increase strictly,
/// `names` are in the same order.
pub(crate) fn write_rising<W: fmt::Write>(
    f: &mut fmt::Formatter<W>,
    type_name: &str,
    numbers: &[u16],
    names: &[&'static str],
    n: u16,
) -> fmt::Result
    requires { IsStrictlyIncreasing numbers.now }
    ensures { DisplaysOnOk W.Write.write_str_gives f.old result
        (Some (name type_name.now (names_of (zip numbers.now names.now)) n)) f.new }
{
    write_shown(f, type_name, n, find_rising(numbers, names, n))
}
