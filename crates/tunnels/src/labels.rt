//! MPLS labels (RFC 3032) and the tags of provider backbones (IEEE 802.1Q, section 9.7).
#![tactic(auto, using(layouts::proofs::OneAnswerLemmas::read_allowed), unfolding(crate::specs::Labels::upper_label))]

ghost use Rattle.std.specs.Prelude.{◌≡◌};
ghost use Rattle.layouts.specs.Answers.{Gives};
ghost use Rattle.tunnels.specs.Tunnel.{view_header};
ghost use Rattle.tunnels.specs.Labels.{backbone, mpls, type_behind_labels as type_behind, upper_label};

use crate::tunnel::{ETHERNET, Header, TunnelKind, carrying, skipped_if, type_of_version};
use layouts::{ErrorKind, IResult, InPlace, Items, number1, number4, parsed, refused};

/// A label with another behind it.
struct UpperLabel;

impl<'a> InPlace<'a> for UpperLabel {
    type Read = ();

    ghost Value = { Unit };

    ghost view = { λ v. v };

    ghost layout = { upper_label };

    fn read(i: &'a [u8]) -> IResult<&'a [u8], ()> {
        let (i, entry) = parsed!(number4(i));
        if entry / 256 % 2 != 0 {
            return refused(i, ErrorKind::Tag);
        }
        Ok((i, ()))
    }
}

/// Returns the EtherType of what follows the labels, by its first 4 bits; 0 for an unknown one.
fn type_behind_labels(half: u8) -> u16
    ensures { result ≡ type_behind half }
{
    if half == 0 {
        return ETHERNET;
    }
    type_of_version(half)
}

/// Parses MPLS labels, 4 bytes each, to the bottom of the stack (RFC 3032, section 2.1), and all
/// the rest. The first 4 bits behind them identify the payload: an IP datagram by its version, or 0
/// for a control word, which an Ethernet frame follows (RFC 4448, section 4.6).
///
/// `Incomplete`, with the count of missing bytes of a label, of the byte behind the last, or of the
/// control word.
#[tactic(auto, using(layouts::proofs::OneAnswerLemmas::read_allowed), unfolding(crate::specs::Labels::mpls))]
pub fn parse_mpls(i: &[u8]) -> IResult<&[u8], Header>
    ensures { Gives view_header mpls i.now result }
{
    let (i, entry) = parsed!(number4(Items::<UpperLabel>::new(i).rest()));
    let (_, first) = parsed!(number1(i));
    let (i, _) = parsed!(skipped_if(i, first / 16 == 0, 4));
    let kind = type_behind_labels(first / 16);
    carrying(i, TunnelKind::Mpls, Some(entry / 4096), kind)
}

/// Parses an I-TAG behind its type (IEEE 802.1Q, section 9.7): 4 bytes, whose lower 3 are the
/// service, and the customer's Ethernet frame.
///
/// `Incomplete`, with the count of missing bytes of the first 4.
#[tactic(auto, using(layouts::proofs::OneAnswerLemmas::read_allowed), unfolding(crate::specs::Labels::backbone))]
pub fn parse_backbone(i: &[u8]) -> IResult<&[u8], Header>
    ensures { Gives view_header backbone i.now result }
{
    let (i, control) = parsed!(number4(i));
    let id = Some(control % 0x0100_0000);
    carrying(i, TunnelKind::Backbone, id, ETHERNET)
}
