//! Which side is the client, by the hellos of datagrams.
ghost use Rattle.std.specs.Prelude.{◌≡◌};
ghost use Rattle.log_connections.specs.Analysis.{is_other as is_other_than, turned_by_hello as by_hello, turned_from as turned_by_any};

use crate::analysis::is_responder;
use connections::Side;
use tls_flow::Direction;

/// Returns whether the originator is the server, by a side's hello in this direction.
fn turned_by_hello(direction: Direction, side: Side) -> bool
    ensures { result ≡ by_hello direction side }
{
    match direction {
        Direction::ToServer => is_responder(side),
        Direction::FromServer => !is_responder(side),
    }
}

/// Returns whether the originator is the server, by a side's hello if there is one.
pub(crate) fn turned_from(direction: Option<Direction>, side: Side, was: bool) -> bool
    ensures { result ≡ turned_by_any direction side was }
{
    match direction {
        Some(direction) => turned_by_hello(direction, side),
        None => was,
    }
}

/// Returns whether both differ.
pub(crate) fn is_other(was: bool, is: bool) -> bool
    ensures { result ≡ is_other_than was is }
{
    if was { !is } else { is }
}
