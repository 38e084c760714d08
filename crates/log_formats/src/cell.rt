//! The value of a field.
ghost use Rattle.std.specs.Prelude.{◌≡◌, Option, IfOk, OnOk};
ghost use Rattle.json_objects.specs.Data.{Data};
ghost use Rattle.log_formats.specs.Data.{value_of};

use crate::lists::{Numbers, Texts};
use crate::text::Text;
use serde::{Described, Serialize, Serializer};
use std::alloc::AllocError;
use std::num::nearest_u64_to_f64;

/// A time or a duration. JSON has it in seconds.
#[derive(Clone, Copy)]
pub struct Seconds {
    /// The microseconds.
    pub microseconds: u64,
}

impl Described for Seconds {}

impl Serialize for Seconds {
    fn serialize<S: Serializer>(&self, out: &mut S) -> Result<(), S::Error> {
        let seconds = nearest_u64_to_f64(self.microseconds) / 1_000_000.0;
        seconds.serialize(out)
    }
}

/// The event that ended a handshake without success.
#[derive(Clone, Copy)]
pub struct StopCell {
    /// The kind of message.
    pub message: &'static str,
    /// Whether the client sent it.
    pub is_clients: bool,
    /// How many messages of both sides came before it.
    pub messages_before: u64,
}

impl Described for StopCell {}

impl Serialize for StopCell {
    fn serialize<S: Serializer>(&self, out: &mut S) -> Result<(), S::Error> {
        out.begin_map(None)?;
        out.key("message")?;
        out.str(self.message)?;
        out.key("sender")?;
        out.str(if self.is_clients { "client" } else { "server" })?;
        out.key("messages_before")?;
        out.u64(self.messages_before)?;
        out.end_map()
    }
}

/// A fingerprint, as Suricata has it.
#[derive(Drop, Serialize)]
pub struct PrintCell {
    /// The fingerprint.
    pub hash: String,
    /// The text that was hashed.
    pub string: String,
}

/// The value of a field. It is small, since it is passed by value: what belongs to a connection is
/// borrowed, and large owned values are boxed.
#[derive(Drop)]
pub enum Cell<'a> {
    /// Text.
    Text(Text<'a>),
    /// A number.
    Number(u64),
    /// A signed number.
    Whole(i64),
    /// A time or a duration.
    Seconds(Seconds),
    /// A boolean.
    Mark(bool),
    /// A list of texts.
    Texts(Texts<'a>),
    /// A list of numbers.
    Numbers(Numbers<'a>),
    /// The event that ended a handshake without success.
    Stop(StopCell),
    /// A fingerprint and its text.
    Print(Box<PrintCell>),
    /// An object that is JSON already: a message's fields.
    Json(String),
}

/// A consumer of a field's value. A cell is made and taken in one place, so that it isn't passed by
/// value in between.
pub trait TakesCell<'a> {
    /// The consumer before and after it takes a value.
    ghost HasTaken: { Option Data → Self → Self → Type 0 };

    /// Takes the value; `None` if the field is missing.
    fn take(&mut self, cell: Option<Cell<'a>>) -> Result<(), AllocError>
        ensures { (value : Option Data) → value_of cell.entry ≡ value
            → OnOk result (HasTaken value self.old self.new) };

    /// Takes the value, or returns the error of computing it.
    fn take_result(&mut self, cell: Result<Option<Cell<'a>>, AllocError>) -> Result<(), AllocError>
        ensures { (value : Option Data) → IfOk cell.entry (λ c. value_of c ≡ value)
            → OnOk result (HasTaken value self.old self.new) };
}

/// A consumer that keeps the value.
#[derive(Drop)]
pub struct KeptCell<'a> {
    /// `None` if the field is missing.
    pub cell: Option<Cell<'a>>,
}

impl<'a> TakesCell<'a> for KeptCell<'a> {
    ghost HasTaken = { λ value old new. value_of new.cell ≡ value };

    fn take(&mut self, cell: Option<Cell<'a>>) -> Result<(), AllocError> {
        self.cell = cell;
        Ok(())
    }

    fn take_result(
        &mut self,
        cell: Result<Option<Cell<'a>>, AllocError>,
    ) -> Result<(), AllocError> {
        self.cell = cell?;
        Ok(())
    }
}

impl Described for Cell<'_> {}

impl Serialize for Cell<'_> {
    #[inline(always)]
    fn serialize<S: Serializer>(&self, out: &mut S) -> Result<(), S::Error> {
        match self {
            Cell::Text(Text::Plain(text)) => out.str(text),
            Cell::Text(text) => text.serialize(out),
            Cell::Number(n) => out.u64(*n),
            Cell::Whole(n) => out.i64(*n),
            Cell::Seconds(seconds) => seconds.serialize(out),
            Cell::Mark(mark) => out.bool(*mark),
            Cell::Texts(texts) => texts.serialize(out),
            Cell::Numbers(numbers) => numbers.serialize(out),
            Cell::Stop(stop) => stop.serialize(out),
            Cell::Print(print) => print.serialize(out),
            // Only `json_row` writes it unescaped.
            Cell::Json(text) => out.str(text.as_str()),
        }
    }
}

/// The named values of a line; `None` for a missing field.
#[derive(Drop)]
pub struct Row<'a> {
    /// The values in the order of the line.
    pub cells: Vec<(&'static str, Option<Cell<'a>>)>,
}

impl Described for Row<'_> {}

impl Row<'_> {
    /// Serializes each field that isn't missing.
    pub fn serialize_fields<S: Serializer>(&self, out: &mut S) -> Result<(), S::Error> {
        for (name, cell) in &self.cells {
            if let Some(cell) = cell {
                out.key(name)?;
                cell.serialize(out)?;
            }
        }
        Ok(())
    }
}

/// An object without the missing fields.
impl Serialize for Row<'_> {
    fn serialize<S: Serializer>(&self, out: &mut S) -> Result<(), S::Error> {
        out.begin_map(None)?;
        self.serialize_fields(out)?;
        out.end_map()
    }
}
