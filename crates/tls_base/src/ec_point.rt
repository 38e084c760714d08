//! Points of elliptic curves.
ghost use Rattle.layouts.specs.Answers.{Gives};
ghost use Rattle.tls_base.specs.Point.{view_point, point as point_layout};

use layouts::{IResult, counted1, parsed};

/// A point of an elliptic curve (RFC 8422, section 5.4).
#[derive(Clone, Debug, PartialEq, Drop)]
pub struct ECPoint<'a> {
    /// The point's bytes. The first one gives their format.
    pub point: &'a [u8],
}

impl<'a> ECPoint<'a> {
    /// Reads a block after 1 byte of length. Accepts an empty block.
    ///
    /// `Incomplete` with the bytes missing from the length, or else from the block.
    pub fn parse(i: &'a [u8]) -> IResult<&'a [u8], Self>
        ensures { Gives view_point point_layout i.now result }
    {
        let (i, point) = parsed!(counted1(i));
        Ok((i, ECPoint { point }))
    }
}
