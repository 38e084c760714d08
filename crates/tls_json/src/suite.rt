//! Cipher suites as texts.
ghost use Rattle.std.specs.Prelude.{IfOk};
ghost use Rattle.std.specs.Option.{option_map};
ghost use Rattle.serde_json.specs.Data.{string, array, no_items};
ghost use Rattle.tls_json.specs.Outline.{Shows, name_or_number, suite_text as text_of_suite};

use crate::json::Value;
use crate::table::Values;
use crate::text::code_text;
use layouts::Items;
use std::alloc::{AllocError, Global};
use tls_base::TlsCipherSuiteID;

/// How a cipher suite is written.
#[derive(Clone, Copy, Debug, PartialEq, Eq)]
pub enum SuiteText {
    /// By its name in IANA's registry, as `TLS_AES_128_GCM_SHA256`, or by its number if it has
    /// none.
    Name,
    /// By its number, as `0x1301`.
    Number,
}

/// Writes a name, or the number, as `0x1234`, if there is none.
fn name_or_code(alloc: Global, name: Option<&'static str>, code: u16) -> Result<Value, AllocError>
    ensures { IfOk result
        (Shows (string (name_or_number (option_map (λ t. t.now) name.entry) code))) }
{
    match name {
        Some(name) => Ok(Value::Name(name)),
        None => code_text(alloc, code),
    }
}

/// Writes a cipher suite as `suite_text` says.
#[tactic(auto, unfolding(crate::specs::Outline::suite_text))]
pub fn suite_value(
    alloc: Global,
    suite_text: SuiteText,
    suite: TlsCipherSuiteID,
) -> Result<Value, AllocError>
    ensures { IfOk result (Shows (string (text_of_suite suite_text suite.0))) }
{
    match suite_text {
        SuiteText::Name => name_or_code(alloc, suite.registered_name(), suite.0),
        SuiteText::Number => code_text(alloc, suite.0),
    }
}

/// Lists cipher suites in order, each as `suite_text` says.
pub fn suite_values(
    alloc: Global,
    suite_text: SuiteText,
    list: Items<'_, TlsCipherSuiteID>,
) -> Result<Value, AllocError>
    ensures { IfOk result (Shows (array no_items)) }
{
    let mut all = Values::new(alloc);
    for one in list {
        all = all.add(suite_value(alloc, suite_text, one));
    }
    all.finish()
}
