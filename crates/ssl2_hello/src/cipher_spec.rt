//! The CipherSpecs of a ClientHello in the form of SSL 2.0.
ghost use Rattle.std.specs.Prelude.{◌≡◌};
ghost use Rattle.std.specs.Option.{option_map};
ghost use Rattle.ssl2_hello.specs.CipherSpec.{suite_of};

use layouts::Number;
use tls_base::TlsCipherSuiteID;

/// A CipherSpec: the V2CipherSpec of RFC 5246, appendix E.2, as one big-endian number of 3 bytes.
#[derive(Clone, Copy, Debug, Default, PartialEq, Eq)]
pub struct CipherSpec(pub u32);

impl CipherSpec {
    /// The cipher suite of SSL 3.0 and TLS: the last 2 bytes, if the first is 0 (RFC 5246, appendix
    /// E.2). `None` for a CipherSpec of SSL 2.0 itself.
    pub fn suite(&self) -> Option<TlsCipherSuiteID>
        ensures { option_map (λ s. s.0) result ≡ suite_of self.now.0 }
    {
        u16::try_from(self.0).ok().map(TlsCipherSuiteID)
    }
}

impl Number for CipherSpec {
    ghost WIDTH = { 3 };

    const WIDTH: usize = 3;

    ghost value = { λ s. s.0 };

    #[inline(always)]
    fn read_present(i: &[u8]) -> (&[u8], Self) {
        let (front, rest) = i.split_at(3);
        (
            rest,
            CipherSpec(u32::from_be_bytes([0, front[0], front[1], front[2]])),
        )
    }
}
