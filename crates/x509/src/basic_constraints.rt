//! Whether a subject may sign certificates (RFC 5280, section 4.2.1.9).
#![tactic(auto, using(layouts::proofs::OneAnswerLemmas::read_allowed))]

ghost use Rattle.layouts.specs.Answers.{Gives};
ghost use Rattle.x509.specs.Extensions.{BasicConstraints as PlainBasicConstraints, view_basic_constraints, basic_constraints_content, basic_constraints};

use der::{Integer, default_false, optional, tag, tagged};
use layouts::{IResult, InPlace, parsed};

/// Whether a subject may sign certificates, and how long a chain of them.
#[derive(Clone, Copy, Debug, PartialEq)]
pub struct BasicConstraints<'a> {
    /// Whether it may sign certificates.
    pub ca: bool,
    /// How many certificates may come between this one and the last one of a chain: an INTEGER's
    /// bytes.
    pub path_len_constraint: Option<&'a [u8]>,
}

/// The content of BasicConstraints.
struct ConstraintsContent;

impl<'a> InPlace<'a> for ConstraintsContent {
    type Read = BasicConstraints<'a>;

    ghost Value = { PlainBasicConstraints };

    ghost view = { view_basic_constraints };

    ghost layout = { basic_constraints_content };

    #[tactic(auto, using(layouts::proofs::OneAnswerLemmas::read_allowed), unfolding(crate::specs::Extensions::basic_constraints_content))]
    fn read(i: &'a [u8]) -> IResult<&'a [u8], BasicConstraints<'a>> {
        let (i, ca) = parsed!(default_false(i));
        let (i, path_len_constraint) = parsed!(optional::<Integer>(i, tag::INTEGER));
        let constraints = BasicConstraints {
            ca,
            path_len_constraint,
        };
        Ok((i, constraints))
    }
}

/// Parses BasicConstraints, the value of the extension basicConstraints.
///
/// It refuses what [`der::tagged`], [`der::default_false`] and [`Integer`] do.
#[tactic(auto, using(layouts::proofs::OneAnswerLemmas::read_allowed), unfolding(crate::specs::Extensions::basic_constraints))]
pub fn parse_basic_constraints(i: &[u8]) -> IResult<&[u8], BasicConstraints>
    ensures { Gives view_basic_constraints basic_constraints i.now result }
{
    tagged::<ConstraintsContent>(i, tag::SEQUENCE)
}
