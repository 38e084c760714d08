//! A builder of objects whose clauses are about all of their data, lists included. Those of
//! [`crate::table::Table`] are about outlines.
ghost use Rattle.std.specs.Prelude.{IfOk, ◌≡◌, ◌++◌, ◌∷◌, [], List, ℕ};
ghost use Rattle.std.specs.String.{string_bytes};
ghost use Rattle.serde_json.specs.Data.{Data, string};
ghost use Rattle.tls_json.specs.Outline.{Entries, object_of, decimal, bytes, some_bytes};
ghost use Rattle.tls_json.specs.Whole.{Is, HasAll, HasMembers, text, whole, some_whole};

use crate::json::{Member, Value};
use crate::text::blob;
use std::alloc::{AllocError, Global};

/// The members of an object in order, or the first failure to allocate, which `finish` returns.
#[derive(Drop)]
pub struct ObjectBuilder {
    alloc: Global,
    members: Result<Vec<Member>, AllocError>,
}

/// Appends a member.
fn with_member(
    members: Result<Vec<Member>, AllocError>,
    name: &'static str,
    value: Result<Value, AllocError>,
) -> Result<Vec<Member>, AllocError>
    ensures { (es : Entries) → (d : Data) → IfOk members.entry (HasAll es) → IfOk value (Is d)
        → IfOk result (HasAll (es ++ (name.now, d) ∷ [])) }
{
    let mut members = members?;
    members.push((name, value?))?;
    Ok(members)
}

/// Returns a text that was made as a value.
fn text_value(made: Result<String, AllocError>) -> Result<Value, AllocError>
    ensures { (s : List ℕ) → IfOk made (λ t. string_bytes t ≡ s) → IfOk result (Is (string s)) }
{
    Ok(Value::Text(made?))
}

impl ObjectBuilder {
    /// Returns a builder without members.
    pub fn new(alloc: Global) -> ObjectBuilder
        ensures { HasMembers [] result }
    {
        ObjectBuilder {
            alloc,
            members: Ok(Vec::new(alloc)),
        }
    }

    /// Appends a member.
    pub fn add(self, name: &'static str, value: Result<Value, AllocError>) -> ObjectBuilder
        ensures { (es : Entries) → (d : Data) → HasMembers es self → IfOk value (Is d)
            → HasMembers (es ++ (name.now, d) ∷ []) result }
    {
        ObjectBuilder {
            alloc: self.alloc,
            members: with_member(self.members, name, value),
        }
    }

    /// Appends a number, in decimal.
    pub fn decimal(self, name: &'static str, count: u64) -> ObjectBuilder
        ensures { (es : Entries) → HasMembers es self
            → HasMembers (es ++ decimal name.now count ∷ []) result }
    {
        self.add(name, Ok(Value::Number(count)))
    }

    /// Appends a number that may be negative, in decimal.
    pub fn whole(self, name: &'static str, number: i64) -> ObjectBuilder
        ensures { (es : Entries) → HasMembers es self
            → HasMembers (es ++ whole name.now number ∷ []) result }
    {
        self.add(name, Ok(Value::Whole(number)))
    }

    /// Appends a number that may be negative, if there is one.
    pub fn some_whole(self, name: &'static str, number: Option<i64>) -> ObjectBuilder
        ensures { (es : Entries) → HasMembers es self
            → HasMembers (es ++ some_whole name.now number) result }
    {
        match number {
            Some(number) => self.whole(name, number),
            None => self,
        }
    }

    /// Appends a fixed name.
    pub fn name(self, name: &'static str, fixed: &'static str) -> ObjectBuilder
        ensures { (es : Entries) → HasMembers es self
            → HasMembers (es ++ text name.now fixed.now ∷ []) result }
    {
        self.add(name, Ok(Value::Name(fixed)))
    }

    /// Appends a text.
    pub fn text(self, name: &'static str, made: Result<String, AllocError>) -> ObjectBuilder
        ensures { (es : Entries) → (s : List ℕ) → HasMembers es self
            → IfOk made (λ t. string_bytes t ≡ s)
            → HasMembers (es ++ text name.now s ∷ []) result }
    {
        self.add(name, text_value(made))
    }

    /// Appends bytes, in hexadecimal.
    pub fn bytes(self, name: &'static str, content: &[u8]) -> ObjectBuilder
        ensures { (es : Entries) → HasMembers es self
            → HasMembers (es ++ bytes name.now content.now ∷ []) result }
    {
        let value = blob(self.alloc, content);
        self.add(name, value)
    }

    /// Appends bytes in hexadecimal, unless they are empty.
    pub fn some_bytes(self, name: &'static str, content: &[u8]) -> ObjectBuilder
        ensures { (es : Entries) → HasMembers es self
            → HasMembers (es ++ some_bytes name.now content.now) result }
    {
        match content {
            [] => self,
            _ => self.bytes(name, content),
        }
    }

    /// Returns the object of these members.
    pub fn finish(self) -> Result<Value, AllocError>
        ensures { (es : Entries) → HasMembers es self → IfOk result (Is (object_of es)) }
    {
        Ok(Value::Object(self.members?))
    }
}
