//! Lines as Zeek writes its logs: tab-separated values, behind header lines with the fields' names
//! and types (docs.zeek.org, "Zeek Log Formats and Inspection").
use crate::cell::{Cell, Row};
use crate::column::{Column, Type};
use crate::lists::{Numbers, TakesTexts, Texts};
use crate::objects::{LINE_LEN, json_text};
use crate::text::Text;
use std::alloc::{AllocError, Global};
use x509_text::time_text;

/// A missing field.
const UNSET: &str = "-";

/// An empty text or list.
const EMPTY: &str = "(empty)";

/// The start of header and footer lines.
const META: char = '#';

impl Type {
    /// Returns the type's name in Zeek.
    fn name(self) -> &'static str {
        match self {
            Type::Time => "time",
            Type::Interval => "interval",
            Type::Address => "addr",
            Type::Port => "port",
            Type::Enum => "enum",
            Type::Text | Type::Fields | Type::Method => "string",
            Type::Mark => "bool",
            Type::Count | Type::Version => "count",
            Type::Texts | Type::Methods | Type::PointFormats | Type::Modes => "vector[string]",
            Type::Counts => "vector[count]",
            Type::Addresses => "vector[addr]",
        }
    }
}

/// The names of compression methods (RFC 3749, section 2, and RFC 3943, section 3).
static METHODS: &[(u64, &str)] = &[(0, "NULL"), (1, "DEFLATE"), (64, "LZS")];

/// The names of point formats (RFC 8422, section 5.1.2).
static POINT_FORMATS: &[(u64, &str)] = &[
    (0, "uncompressed"),
    (1, "ansiX962_compressed_prime"),
    (2, "ansiX962_compressed_char2"),
];

/// The names of pre-shared key exchange modes (RFC 8446, section 4.2.9).
static MODES: &[(u64, &str)] = &[(0, "psk_ke"), (1, "psk_dhe_ke")];

/// Appends a code's name.
fn add_code(
    alloc: Global,
    line: &mut String,
    names: &'static [(u64, &'static str)],
    code: u64,
) -> Result<(), AllocError> {
    match names.iter().find(|row| row.0 == code) {
        Some(row) => line.push_str(row.1),
        None => line.push_str(format!(in alloc; "unknown-{code}")?.as_str()),
    }
}

/// Appends the names of codes, separated by `,`.
fn add_codes(
    alloc: Global,
    line: &mut String,
    names: &'static [(u64, &'static str)],
    codes: &Numbers<'_>,
) -> Result<(), AllocError> {
    for place in 0..codes.len() {
        if place > 0 {
            line.push(',')?;
        }
        if let Some(code) = codes.get(place) {
            add_code(alloc, line, names, code)?;
        }
    }
    Ok(())
}

/// Returns a time as in header lines, such as 2026-11-26-17-00-00, in UTC.
fn clock_text(alloc: Global, seconds: i64) -> Result<String, AllocError> {
    let mut text = String::new(alloc);
    let Some(time) = time_text(alloc, seconds)? else {
        return String::from_str(alloc, UNSET);
    };
    for byte in time.as_bytes() {
        match *byte {
            b'T' | b':' => text.push('-')?,
            b'Z' => {}
            other => text.push(char::from(other))?,
        }
    }
    Ok(text)
}

/// Appends two lines: the names and the types of the fields at these places.
fn add_fields<T>(
    header: &mut String,
    table: &[Column<T>],
    places: &[usize],
) -> Result<(), AllocError> {
    header.push_str("\n#fields")?;
    for place in places {
        if let Some(column) = table.get(*place) {
            header.push('\t')?;
            header.push_str(column.0)?;
        }
    }
    header.push_str("\n#types")?;
    for place in places {
        if let Some(column) = table.get(*place) {
            header.push('\t')?;
            header.push_str(column.1.name())?;
        }
    }
    Ok(())
}

/// Returns the header of a log with this name, opened at this time, without the last line break.
pub fn header<T>(
    alloc: Global,
    path: &str,
    opened: i64,
    table: &[Column<T>],
    places: &[usize],
) -> Result<String, AllocError> {
    let mut header = String::from_str(
        alloc,
        "#separator \\x09\n#set_separator\t,\n#empty_field\t(empty)\n#unset_field\t-\n#path\t",
    )?;
    header.push_str(path)?;
    header.push_str("\n#open\t")?;
    header.push_str(clock_text(alloc, opened)?.as_str())?;
    add_fields(&mut header, table, places)?;
    Ok(header)
}

/// Returns the footer of a log, closed at this time.
pub fn footer(alloc: Global, closed: i64) -> Result<String, AllocError> {
    let mut footer = String::from_str(alloc, "#close\t")?;
    footer.push_str(clock_text(alloc, closed)?.as_str())?;
    Ok(footer)
}

/// Appends a byte as two hexadecimal digits.
fn add_hexadecimal(alloc: Global, line: &mut String, byte: u8) -> Result<(), AllocError> {
    let digits = format!(in alloc; "\\x{byte:02x}")?;
    line.push_str(digits.as_str())
}

/// Appends a byte of a text, or of a text in a list. It is escaped if it is a separator or not
/// printable.
fn add_byte(alloc: Global, line: &mut String, byte: u8, is_listed: bool) -> Result<(), AllocError> {
    match byte {
        b'\\' => line.push_str("\\\\"),
        b',' if is_listed => add_hexadecimal(alloc, line, byte),
        b' '..=b'~' => line.push(char::from(byte)),
        _ => add_hexadecimal(alloc, line, byte),
    }
}

/// Appends a text. If it could be taken for something else, its first byte is escaped.
fn add_text(
    alloc: Global,
    line: &mut String,
    text: &str,
    is_listed: bool,
) -> Result<(), AllocError> {
    if text.is_empty() {
        return line.push_str(EMPTY);
    }
    let is_meta = line.is_empty() && text.starts_with(META);
    let mut is_other = is_meta || text == UNSET || text == EMPTY;
    for byte in text.as_bytes() {
        if is_other {
            add_hexadecimal(alloc, line, *byte)?;
        } else {
            add_byte(alloc, line, *byte, is_listed)?;
        }
        is_other = false;
    }
    Ok(())
}

/// Appends a text of a line, or of a list in a line.
fn add_shown(
    alloc: Global,
    line: &mut String,
    text: &Text<'_>,
    is_listed: bool,
) -> Result<(), AllocError> {
    match text.as_plain() {
        Some(text) => add_text(alloc, line, text, is_listed),
        None => add_text(alloc, line, text.to_string(alloc)?.as_str(), is_listed),
    }
}

/// Appends each text to its list.
#[derive(Drop)]
struct Adds<'a> {
    alloc: Global,
    line: &'a mut String,
    is_first: bool,
}

impl TakesTexts for Adds<'_> {
    type Error = AllocError;

    fn take_text(&mut self, text: &Text<'_>) -> Result<(), AllocError> {
        if !self.is_first {
            self.line.push(',')?;
        }
        self.is_first = false;
        add_shown(self.alloc, &mut *self.line, text, true)
    }
}

/// Appends a list of texts.
fn add_texts(alloc: Global, line: &mut String, texts: &Texts<'_>) -> Result<(), AllocError> {
    if texts.is_empty() {
        return line.push_str(EMPTY);
    }
    texts.hand(&mut Adds {
        alloc,
        line,
        is_first: true,
    })
}

/// Appends a list of numbers.
fn add_numbers(alloc: Global, line: &mut String, numbers: &Numbers<'_>) -> Result<(), AllocError> {
    if numbers.len() == 0 {
        return line.push_str(EMPTY);
    }
    for place in 0..numbers.len() {
        if place > 0 {
            line.push(',')?;
        }
        if let Some(number) = numbers.get(place) {
            line.push_str(format!(in alloc; "{number}")?.as_str())?;
        }
    }
    Ok(())
}

/// Returns the text of a number, a time or a boolean.
fn plain_text(alloc: Global, cell: &Cell<'_>) -> Result<String, AllocError> {
    match cell {
        Cell::Number(n) => format!(in alloc; "{n}"),
        // (the only signed numbers are times in whole seconds)
        Cell::Whole(n) => format!(in alloc; "{n}.000000"),
        Cell::Seconds(seconds) => {
            let whole = seconds.microseconds / 1_000_000;
            let part = seconds.microseconds % 1_000_000;
            format!(in alloc; "{whole}.{part:06}")
        }
        Cell::Mark(true) => String::from_str(alloc, "T"),
        Cell::Mark(false) => String::from_str(alloc, "F"),
        _ => Ok(String::new(alloc)),
    }
}

/// Appends a field's value; JSON if it has several fields.
fn add_cell(alloc: Global, line: &mut String, cell: &Option<Cell<'_>>) -> Result<(), AllocError> {
    match cell {
        None => line.push_str(UNSET),
        Some(Cell::Text(text)) => add_shown(alloc, line, text, false),
        Some(Cell::Texts(texts)) => add_texts(alloc, line, texts),
        Some(Cell::Numbers(numbers)) => add_numbers(alloc, line, numbers),
        Some(Cell::Json(text)) => add_text(alloc, line, text.as_str(), false),
        Some(Cell::Stop(_) | Cell::Print(_)) => {
            add_text(
                alloc,
                line,
                json_text(alloc, cell, LINE_LEN)?.as_str(),
                false,
            )
        }
        Some(other) => line.push_str(plain_text(alloc, other)?.as_str()),
    }
}

/// Appends the value of a field of this type. Some types are names or numbers in Zeek, where JSON
/// has the other.
fn add_typed(
    alloc: Global,
    line: &mut String,
    kind: Type,
    cell: &Option<Cell<'_>>,
) -> Result<(), AllocError> {
    match (kind, cell) {
        (Type::Version, Some(Cell::Text(Text::Version(version)))) => {
            line.push_str(format!(in alloc; "{}", version.0)?.as_str())
        }
        (Type::Method, Some(Cell::Number(code))) => add_code(alloc, line, METHODS, *code),
        (Type::Methods, Some(Cell::Numbers(codes))) => add_codes(alloc, line, METHODS, codes),
        (Type::PointFormats, Some(Cell::Numbers(codes))) => {
            add_codes(alloc, line, POINT_FORMATS, codes)
        }
        (Type::Modes, Some(Cell::Numbers(codes))) => add_codes(alloc, line, MODES, codes),
        _ => add_cell(alloc, line, cell),
    }
}

/// Returns a line of the fields at these places, without its line break.
pub fn line<T>(
    alloc: Global,
    table: &[Column<T>],
    places: &[usize],
    row: &Row<'_>,
) -> Result<String, AllocError> {
    let mut line = String::new(alloc);
    let mut is_first = true;
    for (place, (_name, cell)) in places.iter().zip(&row.cells) {
        if !is_first {
            line.push('\t')?;
        }
        match table.get(*place) {
            Some(column) => add_typed(alloc, &mut line, column.1, cell)?,
            None => add_cell(alloc, &mut line, cell)?,
        }
        is_first = false;
    }
    Ok(line)
}
