//! The certificate lists of both sides, kept until the connection's line is written.
ghost use Rattle.std.specs.Prelude.{◌≡◌, [], OnErr, OnOk};
ghost use Rattle.std.specs.Option.{option_map};
ghost use Rattle.tls_flow.specs.Bytes.{view_handshake_message};
ghost use Rattle.log_messages.specs.Certificates.{KeepsLast, capacity_of, certificates_of, list_of, opposite};

use std::alloc::{AllocError, Global};
use tls_base::TlsHandshakeType;
use tls_flow::{Direction, HandshakeMessage};
use tls_hs::certificates;

/// The list of each side's last Certificate (RFC 5246, section 7.4.2).
#[derive(Drop)]
pub struct CertificateLists {
    alloc: Global,
    client: Vec<u8>,
    server: Vec<u8>,
}

impl CertificateLists {
    /// Returns one that keeps no list yet.
    pub fn new(alloc: Global) -> CertificateLists
        ensures client { result.client.items ≡ [] }
        ensures server { result.server.items ≡ [] }
    {
        CertificateLists {
            alloc,
            client: Vec::new(alloc),
            server: Vec::new(alloc),
        }
    }

    /// Keeps the list of a message in place of its sender's earlier one, if the message is a
    /// Certificate.
    ///
    /// `AllocError` if memory runs out; the sender then has no list.
    pub fn add_message(
        &mut self,
        direction: Direction,
        message: Option<&HandshakeMessage<'_>>,
    ) -> Result<(), AllocError>
        ensures kept { OnOk result (KeepsLast direction
            (certificates_of (option_map
            (λ m. view_handshake_message m.now) message.entry)) self.old
            self.new) }
        ensures none { OnErr result (list_of direction self.new ≡ []) }
        ensures others { list_of (opposite direction) self.new
            ≡ list_of (opposite direction) self.old }
    {
        let Some(message) = message else {
            return Ok(());
        };
        if message.msg_type != TlsHandshakeType::Certificate {
            return Ok(());
        }
        let Ok((_, chain)) = certificates(message.body) else {
            return Ok(());
        };
        match Vec::from_slice(self.alloc, chain.bytes()) {
            Ok(list) => {
                self.keep(direction, list);
                Ok(())
            }
            Err(e) => {
                self.keep(direction, Vec::new(self.alloc));
                Err(e)
            }
        }
    }

    /// Keeps a list in place of its sender's earlier one.
    fn keep(&mut self, direction: Direction, list: Vec<u8>)
        ensures kept { list_of direction self.new ≡ list.items }
        ensures others { list_of (opposite direction) self.new
            ≡ list_of (opposite direction) self.old }
    {
        match direction {
            Direction::ToServer => self.client = list,
            Direction::FromServer => self.server = list,
        }
    }

    /// Returns the list of that direction's sender: certificates in DER, its own first, each after
    /// 3 bytes of length. It is empty if none is kept.
    pub fn of(&self, direction: Direction) -> &[u8]
        ensures { result.now ≡ list_of direction self.now }
    {
        match direction {
            Direction::ToServer => self.client.as_slice(),
            Direction::FromServer => self.server.as_slice(),
        }
    }

    /// Returns how many bytes of memory the lists take.
    pub fn capacity(&self) -> usize
        ensures { result ≡ capacity_of self.now }
    {
        self.client
            .capacity()
            .saturating_add(self.server.capacity())
    }
}
