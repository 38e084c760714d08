//! Modes of a pre-shared key.
ghost use Rattle.layouts.specs.Layout.{number};
ghost use Rattle.layouts.specs.Answers.{Gives};

use layouts::{IResult, number1, parsed};

/// The mode in which a pre-shared key may be used: the PskKeyExchangeMode of RFC 8446, section
/// 4.2.9.
#[derive(Clone, Copy, Debug, PartialEq, Eq)]
pub struct PskKeyExchangeMode(pub u8);

impl PskKeyExchangeMode {
    /// `psk_ke` (RFC 8446, section 4.2.9): the key alone.
    pub const Psk: PskKeyExchangeMode = PskKeyExchangeMode(0);

    /// `psk_dhe_ke` (RFC 8446, section 4.2.9): the key with a Diffie-Hellman key exchange.
    pub const PskDhe: PskKeyExchangeMode = PskKeyExchangeMode(1);

    /// Reads 1 byte. `Incomplete(1)` if there is none.
    pub fn parse(i: &[u8]) -> IResult<&[u8], Self>
        ensures { Gives (λ v. v.0) (number 1) i.now result }
    {
        let (i, n) = parsed!(number1(i));
        Ok((i, PskKeyExchangeMode(n)))
    }
}
