//! Values of JSON, and their printer.
ghost use Rattle.std.specs.Prelude.{OnOk};
ghost use Rattle.serde_json.specs.Data.{array, object};
ghost use Rattle.serde_json.specs.Events.{SendsValue};
ghost use Rattle.tls_json.specs.Views.{view, items_view, members_view};

use serde::{Described, Serialize, Serializer};
use std::alloc::AllocError;

/// A member of an object: its name and its value.
pub type Member = (&'static str, Value);

/// A value that was parsed; `None` if its bytes can't be parsed to their end.
pub type ParsedValue = Option<Result<Value, AllocError>>;

/// A value of JSON.
#[derive(Drop)]
pub enum Value {
    /// A number, in decimal.
    Number(u64),
    /// A number that may be negative, in decimal.
    Whole(i64),
    /// True or false.
    Boolean(bool),
    /// A fixed name.
    Name(&'static str),
    /// A text that was made.
    Text(String),
    /// Values in order.
    List(Vec<Value>),
    /// Members in order.
    Object(Vec<Member>),
}

impl Described for Value {
    ghost writes = { λ v. SendsValue (view v) };
}

impl Serialize for Value {
    fn serialize<S: Serializer>(&self, out: &mut S) -> Result<(), S::Error> {
        print(self, out)
    }
}

#[cycle(print)]
fn print<S: Serializer>(value: &Value, out: &mut S) -> Result<(), S::Error>
    ensures { OnOk result (SendsValue (view value.now) (S.written out.old) (S.written out.new)) }
{
    match value {
        Value::Number(number) => out.u64(*number),
        Value::Whole(number) => out.i64(*number),
        Value::Boolean(boolean) => out.bool(*boolean),
        Value::Name(name) => out.str(name),
        Value::Text(text) => out.str(text.as_str()),
        Value::List(items) => print_items(items, out),
        Value::Object(fields) => print_fields(fields, out),
    }
}

#[cycle(print)]
fn print_items<S: Serializer>(items: &Vec<Value>, out: &mut S) -> Result<(), S::Error>
    ensures { OnOk result
        (SendsValue (array (items_view items.now.items)) (S.written out.old) (S.written out.new)) }
{
    out.begin_seq(Some(items.len()))?;
    for item in items {
        print(item, out)?;
    }
    out.end_seq()
}

/// Prints each field once and in order, its name before its value.
#[cycle(print)]
fn print_fields<S: Serializer>(fields: &Vec<Member>, out: &mut S) -> Result<(), S::Error>
    ensures { OnOk result
        (SendsValue (object (members_view fields.now.items)) (S.written out.old)
        (S.written out.new)) }
{
    out.begin_map(Some(fields.len()))?;
    for (name, value) in fields {
        out.key(name)?;
        print(value, out)?;
    }
    out.end_map()
}
