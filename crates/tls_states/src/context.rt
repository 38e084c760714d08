//! The state of a conversation, updated by its messages.
ghost use Rattle.std.specs.Prelude.{◌≡◌, ◌↔◌, ◌⊎◌, Ok};
ghost use Rattle.tls_states.specs.Conversations.{HasHandshake, IsNoHandshake};
ghost use Rattle.tls_states.specs.Symbols.{borrowed_word, symbol_of, word};
ghost use Rattle.tls_states.specs.Steps.{step, run as run_of, IsUpdate};
ghost use Rattle.tls_states.specs.declared.state.TlsState.{TlsState};
ghost use Rattle.tls_states.specs.declared.state.TlsState.TheVariants as state;

use crate::state::{StateChangeError, TlsState};
use crate::transition::tls_state_transition;
use std::marker::Model;
use tls_hs::TlsMessage;

/// Follows a conversation from its first message on: keeps the state after the last one.
#[derive(Drop)]
pub struct ParseContext {
    state: TlsState,
}

impl Model for ParseContext {
    ghost Value = { TlsState };

    ghost view = { λ c. c.state };
}

impl ParseContext {
    /// Returns the context of a conversation without messages, in [`TlsState::None`].
    pub fn new() -> ParseContext
        ensures { result ≡ state.None }
    {
        ParseContext {
            state: TlsState::None,
        }
    }

    /// Returns the state after the messages so far.
    pub fn state(&self) -> TlsState
        ensures { result ≡ self.now }
    {
        self.state
    }

    /// Follows one message: takes the state that [`tls_state_transition`] returns, or returns its
    /// error and is in [`TlsState::Invalid`] from then on.
    ///
    /// So [`TlsState::SessionEncrypted`] and `Invalid` are kept, without an error, and after
    /// [`TlsState::Finished`] comes `Invalid`.
    pub fn update(&mut self, msg: &TlsMessage<'_>, to_server: bool) -> Result<(), StateChangeError>
        ensures step { IsUpdate (step self.old (symbol_of msg.now to_server)) self.new result }
        ensures encrypted_kept { self.old ≡ state.SessionEncrypted
            → (self.new ≡ state.SessionEncrypted) × (result ≡ Ok tt) }
        ensures invalid_kept { self.old ≡ state.Invalid
            → (self.new ≡ state.Invalid) × (result ≡ Ok tt) }
        ensures nothing_follows { self.old ≡ state.Finished
            → (self.new ≡ state.Invalid) × (result ≡ Ok tt) }
    {
        match tls_state_transition(self.state, msg, to_server) {
            Ok(state) => {
                self.state = state;
                Ok(())
            }
            Err(error) => {
                self.state = TlsState::Invalid;
                Err(error)
            }
        }
    }

    /// Follows each message in turn, past errors. `true` beside a message means that it goes to the
    /// server. The outcome is in [`ParseContext::state`].
    ///
    /// For a new context, the grammar of handshakes in `specs/Grammar.antt`, which has no states,
    /// decides the outcome:
    ///
    /// - [`TlsState::SessionEncrypted`] exactly if the messages begin with a handshake of the
    ///   grammar. Warnings, and HelloRequests after the ClientHello, may come anywhere in it.
    /// - [`TlsState::Invalid`] exactly if they don't begin with a handshake, and no further
    ///   messages could complete them to one, and no fatal alert, as the last message, broke one
    ///   off. A message after that alert makes it `Invalid`.
    pub fn run(&mut self, messages: &[(TlsMessage<'_>, bool)])
        ensures by_steps { self.new ≡ run_of self.old (word messages.now) }
        ensures encrypted { self.old ≡ state.None → (self.new ≡ state.SessionEncrypted)
            ↔ HasHandshake (word messages.now) }
        ensures invalid { self.old ≡ state.None → (self.new ≡ state.Invalid)
            ↔ IsNoHandshake (word messages.now) }
    {
        for i in 0..messages.len() {
            let (message, to_server) = &messages[i];
            let _ = self.update(message, *to_server);
        }
    }

    /// Follows each borrowed message in turn, as [`ParseContext::run`]: the caller needn't move its
    /// messages into a list.
    pub fn run_borrowed(&mut self, messages: &[(&TlsMessage<'_>, bool)])
        ensures by_steps { self.new ≡ run_of self.old (borrowed_word messages.now) }
        ensures encrypted { self.old ≡ state.None → (self.new ≡ state.SessionEncrypted)
            ↔ HasHandshake (borrowed_word messages.now) }
        ensures invalid { self.old ≡ state.None → (self.new ≡ state.Invalid)
            ↔ IsNoHandshake (borrowed_word messages.now) }
    {
        for i in 0..messages.len() {
            let (message, to_server) = &messages[i];
            let _ = self.update(*message, *to_server);
        }
    }
}
