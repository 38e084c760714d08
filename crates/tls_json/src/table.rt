//! Builders of objects and lists.
ghost use Rattle.std.specs.Prelude.{IfOk, ◌++◌, ◌∷◌, [], List, ℕ};
ghost use Rattle.serde_json.specs.Data.{Data, array, no_items};
ghost use Rattle.tls_json.specs.Outline.{Shows, Entries, object_of, decimal, hexadecimal, suite, bytes, some_decimal, some_hexadecimal, some_bytes, bytes_if, some_name, HasNames, HasEntries, IsNamed, HasFields, HasFieldNames};

use crate::json::{Member, Value};
use crate::suite::{SuiteText, suite_value};
use crate::text::{blob, code_text};
use std::alloc::{AllocError, Global};
use tls_base::TlsCipherSuiteID;

/// The fields of an object in order, or the first failure to allocate, which `finish` returns.
#[derive(Drop)]
pub struct Table {
    alloc: Global,
    fields: Result<Vec<Member>, AllocError>,
}

/// Appends a field.
fn with_field(
    fields: Result<Vec<Member>, AllocError>,
    name: &'static str,
    value: Result<Value, AllocError>,
) -> Result<Vec<Member>, AllocError>
    ensures fields { (es : Entries) → (d : Data) → IfOk fields.entry (HasEntries es)
        → IfOk value (Shows d)
        → IfOk result (HasEntries (es ++ (name.now, d) ∷ [])) }
    ensures names { (ns : List (List ℕ)) → IfOk fields.entry (IsNamed ns)
        → IfOk result (IsNamed (ns ++ name.now ∷ [])) }
{
    let mut fields = fields?;
    fields.push((name, value?))?;
    Ok(fields)
}

impl Table {
    /// Returns a table without fields.
    pub fn new(alloc: Global) -> Table
        ensures fields { HasFields [] result }
        ensures names { HasFieldNames [] result }
    {
        Table {
            alloc,
            fields: Ok(Vec::new(alloc)),
        }
    }

    /// Appends a field.
    pub fn add(self, name: &'static str, value: Result<Value, AllocError>) -> Table
        ensures fields { (es : Entries) → (d : Data) → HasFields es self → IfOk value (Shows d)
            → HasFields (es ++ (name.now, d) ∷ []) result }
        ensures names { (ns : List (List ℕ)) → HasFieldNames ns self
            → HasFieldNames (ns ++ name.now ∷ []) result }
    {
        Table {
            alloc: self.alloc,
            fields: with_field(self.fields, name, value),
        }
    }

    /// Appends a number, in decimal.
    pub fn decimal(self, name: &'static str, count: u64) -> Table
        ensures { (es : Entries) → HasFields es self
            → HasFields (es ++ decimal name.now count ∷ []) result }
    {
        self.add(name, Ok(Value::Number(count)))
    }

    /// Appends a number in decimal, if there is one.
    pub fn some_decimal(self, name: &'static str, count: Option<u64>) -> Table
        ensures { (es : Entries) → HasFields es self
            → HasFields (es ++ some_decimal name.now count) result }
    {
        match count {
            Some(count) => self.decimal(name, count),
            None => self,
        }
    }

    /// Appends a number of 2 bytes in hexadecimal, as `0xc02f`.
    pub fn hexadecimal(self, name: &'static str, code: u16) -> Table
        ensures { (es : Entries) → HasFields es self
            → HasFields (es ++ hexadecimal name.now code ∷ []) result }
    {
        let text = code_text(self.alloc, code);
        self.add(name, text)
    }

    /// Appends a number of 2 bytes in hexadecimal, if there is one.
    pub fn some_hexadecimal(self, name: &'static str, code: Option<u16>) -> Table
        ensures { (es : Entries) → HasFields es self
            → HasFields (es ++ some_hexadecimal name.now code) result }
    {
        match code {
            Some(code) => self.hexadecimal(name, code),
            None => self,
        }
    }

    /// Appends a cipher suite as `suite_text` says.
    pub fn suite(self, name: &'static str, suite_text: SuiteText, code: TlsCipherSuiteID) -> Table
        ensures { (es : Entries) → HasFields es self
            → HasFields (es ++ suite name.now suite_text code.0 ∷ []) result }
    {
        let text = suite_value(self.alloc, suite_text, code);
        self.add(name, text)
    }

    /// Appends bytes, in hexadecimal.
    pub fn bytes(self, name: &'static str, content: &[u8]) -> Table
        ensures { (es : Entries) → HasFields es self
            → HasFields (es ++ bytes name.now content.now ∷ []) result }
    {
        let text = blob(self.alloc, content);
        self.add(name, text)
    }

    /// Appends bytes in hexadecimal, unless they are empty.
    pub fn some_bytes(self, name: &'static str, content: &[u8]) -> Table
        ensures { (es : Entries) → HasFields es self
            → HasFields (es ++ some_bytes name.now content.now) result }
    {
        match content {
            [] => self,
            _ => self.bytes(name, content),
        }
    }

    /// Appends bytes in hexadecimal, if there are any; they may be empty.
    pub fn bytes_if(self, name: &'static str, content: Option<&[u8]>) -> Table
        ensures { (es : Entries) → HasFields es self
            → HasFields (es ++ bytes_if name.now content.entry) result }
    {
        match content {
            Some(content) => self.bytes(name, content),
            None => self,
        }
    }

    /// Appends a fixed name, if there is one.
    pub fn some_name(self, name: &'static str, text: Option<&'static str>) -> Table
        ensures { (es : Entries) → HasFields es self
            → HasFields (es ++ some_name name.now text.entry) result }
    {
        match text {
            Some(text) => self.add(name, Ok(Value::Name(text))),
            None => self,
        }
    }

    /// Returns the object of these fields.
    pub fn finish(self) -> Result<Value, AllocError>
        ensures fields { (es : Entries) → HasFields es self → IfOk result (Shows (object_of es)) }
        ensures names { (ns : List (List ℕ)) → HasFieldNames ns self → IfOk result (HasNames ns) }
    {
        Ok(Value::Object(self.fields?))
    }
}

/// Returns the object of one field.
pub fn single(
    alloc: Global,
    name: &'static str,
    value: Result<Value, AllocError>,
) -> Result<Value, AllocError>
    ensures fields { (d : Data) → IfOk value (Shows d)
        → IfOk result (Shows (object_of ((name.now, d) ∷ []))) }
    ensures names { IfOk result (HasNames (name.now ∷ [])) }
{
    Table::new(alloc).add(name, value).finish()
}

/// The values of a list in order, or the first failure to allocate.
#[derive(Drop)]
pub struct Values {
    values: Result<Vec<Value>, AllocError>,
}

fn with_value(
    values: Result<Vec<Value>, AllocError>,
    value: Result<Value, AllocError>,
) -> Result<Vec<Value>, AllocError> {
    let mut values = values?;
    values.push(value?)?;
    Ok(values)
}

impl Values {
    /// Returns a list without values.
    pub fn new(alloc: Global) -> Values {
        Values {
            values: Ok(Vec::new(alloc)),
        }
    }

    /// Appends a value.
    pub fn add(self, value: Result<Value, AllocError>) -> Values {
        Values {
            values: with_value(self.values, value),
        }
    }

    /// Returns the list of these values.
    pub fn finish(self) -> Result<Value, AllocError>
        ensures { IfOk result (Shows (array no_items)) }
    {
        Ok(Value::List(self.values?))
    }
}
