//! Parses the fragments of records of TLS and of DTLS: messages of the record's type.
ghost use Rattle.std.specs.Prelude.{◌≤◌, length};
ghost use Rattle.layouts.specs.Layout.{Layout};
ghost use Rattle.layouts.specs.Answers.{Gives, GivesOrMemory};

use layouts::{IResult, Item, Room};
use std::alloc::Global;
use std::marker::PhantomData;

/// The protocol of the messages, TLS or DTLS, with a reader of each kind.
pub trait Protocol<'a> {
    /// The type of a message.
    type Message: Drop;

    /// The message's value, regardless of its place in memory.
    ghost Value: { Type 0 };

    ghost view: { Self.Message → Value };

    ghost cipher_change: { Layout Value };

    ghost alert_message: { Layout Value };

    ghost handshake_message: { Layout Value };

    /// Reads a ChangeCipherSpec.
    fn read_change_cipher_spec(i: &'a [u8]) -> IResult<&'a [u8], Self::Message>
        ensures { Gives view cipher_change i.now result };

    /// Reads an alert.
    fn read_alert(i: &'a [u8]) -> IResult<&'a [u8], Self::Message>
        ensures { Gives view alert_message i.now result };

    /// Reads a handshake message.
    fn read_handshake(alloc: Global, i: &'a [u8]) -> IResult<&'a [u8], Self::Message>
        ensures { GivesOrMemory view handshake_message i.now result };
}

/// Messages of records of type 20, as items of a list.
pub struct ChangeCipherSpec<P> {
    protocol: PhantomData<P>,
}

impl<P> Room for ChangeCipherSpec<P> {}

impl<'a, P: Protocol<'a>> Item<'a> for ChangeCipherSpec<P> {
    type Read = P::Message;

    ghost Value = { P.Value };

    ghost view = { P.view };

    ghost layout = { P.cipher_change };

    #[inline(always)]
    fn read(_alloc: Global, i: &'a [u8]) -> IResult<&'a [u8], P::Message> {
        P::read_change_cipher_spec(i)
    }
}

/// Messages of records of type 21, as items of a list.
pub struct Alert<P> {
    protocol: PhantomData<P>,
}

impl<P> Room for Alert<P> {
    fn room(i: &[u8]) -> usize
        ensures { result ≤ length i.now }
    {
        i.len() / 2
    }
}

impl<'a, P: Protocol<'a>> Item<'a> for Alert<P> {
    type Read = P::Message;

    ghost Value = { P.Value };

    ghost view = { P.view };

    ghost layout = { P.alert_message };

    #[inline(always)]
    fn read(_alloc: Global, i: &'a [u8]) -> IResult<&'a [u8], P::Message> {
        P::read_alert(i)
    }
}

/// Messages of records of type 22, as items of a list.
pub struct Handshake<P> {
    protocol: PhantomData<P>,
}

impl<P> Room for Handshake<P> {}

impl<'a, P: Protocol<'a>> Item<'a> for Handshake<P> {
    type Read = P::Message;

    ghost Value = { P.Value };

    ghost view = { P.view };

    ghost layout = { P.handshake_message };

    #[inline(always)]
    fn read(alloc: Global, i: &'a [u8]) -> IResult<&'a [u8], P::Message> {
        P::read_handshake(alloc, i)
    }
}
