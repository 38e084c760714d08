//! The fields of the stapled OCSP response.
ghost use Rattle.std.specs.Prelude.{◌≡◌, IfOk};
ghost use Rattle.std.specs.Option.{option_map};
ghost use Rattle.log_certificates.specs.Responses.{serial_of, view_stapled};
ghost use Rattle.log_fields.specs.Known.{known_of};
ghost use Rattle.log_fields.specs.Values.{stapled_in as stapled_of};

use crate::context::FieldContext;
use log_certificates::{StapledStatus, stapled_status};

/// Returns the serial number of the server's certificate.
fn serial_number<'a>(context: &mut FieldContext<'a>) -> Option<&'a [u8]>
    ensures value { option_map (λ n. n.now) result ≡ serial_of (known_of context.old).server }
    ensures same { known_of context.new ≡ known_of context.old }
{
    context.server.parse();
    context.server.parsed()?.serial_number()
}

/// Returns what the stapled OCSP response says about the server's certificate.
pub(crate) fn stapled<'a>(context: &mut FieldContext<'a>) -> Option<StapledStatus<'a>>
    ensures value { option_map view_stapled result ≡ stapled_of (known_of context.old) }
    ensures same { known_of context.new ≡ known_of context.old }
{
    let response = context.handshake.ocsp_response.as_deref();
    stapled_status(response, serial_number(context))
}
