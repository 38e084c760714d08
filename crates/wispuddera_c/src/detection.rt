//! Whether bytes are TLS.
ghost use Rattle.tls_detection.specs.Front.{looks_like_tls as looks};
ghost use Rattle.wispuddera_c.specs.Detection.{IsDetected};

use crate::status::{INCOMPLETE, NONE, READ};
use tls_detection::looks_like_tls;

/// Whether a stream begins as TLS: `READ` if it does, `NONE` if it doesn't, `INCOMPLETE` if there
/// are too few bytes to decide.
#[unsafe(no_mangle)]
pub extern "C" fn wispuddera_looks_like_tls(bytes: &[u8]) -> u32
    ensures { IsDetected (looks bytes.now) result }
{
    match looks_like_tls(bytes) {
        Some(true) => READ,
        Some(false) => NONE,
        None => INCOMPLETE,
    }
}
