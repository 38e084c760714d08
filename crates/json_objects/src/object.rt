//! A JSON object that is written member by member.
ghost use Rattle.std.specs.Prelude.{◌≡◌, ◌++◌, ◌∷◌, [], List, ℕ, None, OnOk, IfOk};
ghost use Rattle.json.specs.Print.{ends_value};
ghost use Rattle.json_objects.specs.Data.{Data};
ghost use Rattle.json_objects.specs.Shown.{shown};
ghost use Rattle.json_objects.specs.Entries.{braced, member_text, raw_member, with_commas};

use crate::to_json::{ToJson, write_member};
use json::Writer;
use std::alloc::{AllocError, Global};
use std::marker::Model;
use std::mem;

/// A JSON object whose members are added one by one. A clause sees its text so far, with a comma
/// behind each member. After an error the object has to be dropped.
#[derive(Drop)]
pub struct Object {
    writer: Writer,
    // Everything written so far, with a comma at the end, while members are added that are JSON
    // already.
    front: Option<Vec<u8>>,
    is_after_member: bool,
}

impl Model for Object {
    ghost use Rattle.std.specs.Prelude.{◌≡◌, ℕ, List};
    ghost use Rattle.json.specs.Print.{ends_value};

    ghost Value = { List ℕ };

    ghost use Rattle.json_objects.specs.Shown.{shown};

    ghost view = { λ o. shown o.front o.writer };

    ghost invariant = { λ o. o.is_after_member ≡ ends_value o.writer.tokens };
}

/// Continues behind members that are JSON already.
fn go_on(writer: &mut Writer, front: &mut Option<Vec<u8>>, is_after_member: &mut bool)
    requires { is_after_member.old ≡ ends_value writer.old.tokens }
    ensures text { shown None writer.new ≡ shown front.old writer.old }
    ensures none { front.new ≡ None }
    ensures flag { is_after_member.new ≡ ends_value writer.new.tokens }
{
    if let Some(text) = front.take() {
        *writer = Writer::new(text);
        *is_after_member = false;
    }
}

/// Returns a name as the start of a member: quoted, with a colon behind it.
fn name_text(alloc: Global, name: &str) -> Result<Vec<u8>, AllocError>
    ensures { IfOk result (λ text. text.items ≡ raw_member name.now []) }
{
    let mut writer = Writer::new(Vec::new(alloc));
    writer.key(name)?;
    Ok(writer.into_inner())
}

impl Object {
    /// Returns an object without members that reuses this memory, with this capacity in bytes.
    pub fn over(memory: Vec<u8>, room: usize) -> Result<Object, AllocError>
        ensures { IfOk result (λ o. o ≡ 123 ∷ []) }
    {
        let mut memory = memory;
        memory.clear();
        memory.reserve(room)?;
        memory.push(b'{')?;
        Ok(Object {
            writer: Writer::new(memory),
            front: None,
            is_after_member: false,
        })
    }

    /// Adds a member.
    pub fn add<T: ToJson>(&mut self, alloc: Global, name: &str, value: &T) -> Result<(), AllocError>
        ensures { OnOk result ((d : Data) × T.IsData value.now d
            × (self.new ≡ self.old ++ (member_text (name.now, d) ++ 44 ∷ []))) }
    {
        go_on(&mut self.writer, &mut self.front, &mut self.is_after_member);
        match write_member(alloc, &mut self.writer, name, value) {
            Ok(()) => {
                self.is_after_member = true;
                Ok(())
            }
            Err(e) => {
                self.writer = Writer::new(Vec::new(alloc));
                self.is_after_member = false;
                Err(e)
            }
        }
    }

    /// Takes everything written so far.
    fn take_front(&mut self, alloc: Global) -> Result<Vec<u8>, AllocError>
        ensures { IfOk result (λ front. front.items ≡ self.old) }
    {
        if let Some(front) = self.front.take() {
            return Ok(front);
        }
        let writer = mem::replace(&mut self.writer, Writer::new(Vec::new(alloc)));
        let mut front = writer.into_inner();
        if self.is_after_member {
            self.is_after_member = false;
            front.push(b',')?;
        }
        self.is_after_member = false;
        Ok(front)
    }

    /// Adds members that are JSON already, with a comma behind each.
    pub fn add_text(&mut self, alloc: Global, text: &[u8]) -> Result<(), AllocError>
        ensures { OnOk result (self.new ≡ self.old ++ text.now) }
    {
        let mut front = self.take_front(alloc)?;
        front.extend_from_slice(text)?;
        self.front = Some(front);
        Ok(())
    }

    /// Adds a member whose value is JSON already.
    pub fn add_json(&mut self, alloc: Global, name: &str, value: &str) -> Result<(), AllocError>
        ensures { OnOk result (self.new ≡ self.old ++ (raw_member name.now value.now ++ 44 ∷ [])) }
    {
        let mut text = name_text(alloc, name)?;
        text.extend_from_slice(value.as_bytes())?;
        text.push(b',')?;
        self.add_text(alloc, text.as_slice())
    }

    /// Returns the object as JSON.
    pub fn into_bytes(self, alloc: Global) -> Result<Vec<u8>, AllocError>
        ensures { (ms : List (List ℕ)) → self ≡ 123 ∷ with_commas ms
            → IfOk result (λ b. b.items ≡ braced ms) }
    {
        let mut object = self;
        let mut bytes = object.take_front(alloc)?;
        // (if there are members, the text ends in a comma)
        if bytes.len() > 1 {
            bytes.pop();
        }
        bytes.push(b'}')?;
        Ok(bytes)
    }

    /// Returns the members as JSON, with a comma behind each.
    pub fn into_text(self, alloc: Global) -> Result<Vec<u8>, AllocError>
        ensures { (ms : List (List ℕ)) → self ≡ 123 ∷ with_commas ms
            → IfOk result (λ b. b.items ≡ with_commas ms) }
    {
        let mut object = self;
        let mut bytes = object.take_front(alloc)?;
        if !bytes.is_empty() {
            bytes.remove(0);
        }
        Ok(bytes)
    }
}
