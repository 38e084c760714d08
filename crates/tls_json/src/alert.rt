//! Alerts as JSON.
ghost use Rattle.std.specs.Prelude.{OnOk, ◌≡◌, codes};
ghost use Rattle.serde_json.specs.Events.{SendsValue, SendsMembers, members_len};
ghost use Rattle.tls_json.specs.Outline.{members, some_name};
ghost use Rattle.tls_json.specs.Tables.{alert_entries, alert_fields};

use serde::{Described, Serialize, Serializer};
use tls_base::{TlsAlertDescription, TlsAlertSeverity};

/// An alert (RFC 8446, section 6): its level, its description, and the name of the description if
/// it is registered.
#[derive(Drop)]
pub struct AlertJson {
    level: u8,
    description: u8,
    name: Option<&'static str>,
}

impl Described for AlertJson {
    ghost writes = { λ a. SendsValue (alert_fields a.level a.description a.name) };
}

/// Counts the fields of an alert with this name.
fn count(name: Option<&'static str>) -> usize
    ensures { result ≡ members_len (members (alert_entries 0 0 name.entry)) }
{
    match name {
        Some(_) => 3,
        None => 2,
    }
}

/// Writes the name, if there is one, and ends the object.
fn end<S: Serializer>(name: Option<&'static str>, out: &mut S) -> Result<(), S::Error>
    ensures { OnOk result
        (SendsMembers (members (some_name (codes "name") name.entry)) (S.written out.old)
        (S.written out.new)) }
{
    match name {
        Some(name) => {
            out.key("name")?;
            out.str(name)?;
            out.end_map()
        }
        None => out.end_map(),
    }
}

impl Serialize for AlertJson {
    fn serialize<S: Serializer>(&self, out: &mut S) -> Result<(), S::Error> {
        out.begin_map(Some(count(self.name)))?;
        out.key("level")?;
        out.u64(u64::from(self.level))?;
        out.key("description")?;
        out.u64(u64::from(self.description))?;
        end(self.name, out)
    }
}

impl AlertJson {
    /// Makes an alert of its level and description.
    pub fn new(level: TlsAlertSeverity, description: TlsAlertDescription) -> AlertJson {
        AlertJson {
            level: level.0,
            description: description.0,
            name: description.registered_name(),
        }
    }
}
