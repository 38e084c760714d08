//! The table of transitions.
ghost use Rattle.std.specs.Prelude.{◌≡◌};
ghost use Rattle.tls_states.specs.Table.{IsOneRowEach, next_in as next_of, next_after as next_after_of};

use crate::state::TlsState;
use crate::symbol::{Direction, Kind};

/// A transition: in `state`, a message of `kind` in `direction` leads to `next`.
#[derive(Clone, Copy)]
pub(crate) struct Row {
    pub(crate) state: TlsState,
    pub(crate) kind: Kind,
    pub(crate) direction: Direction,
    pub(crate) next: TlsState,
}

/// All transitions that don't follow from the rules of [`crate::tls_state_transition`], by state,
/// in the order of declaration. Passes them to the macro `$then`, after the given words.
macro_rules! transitions {
    ($then:ident $($words:tt)*) => {
        $then! {
            [$($words)*]
            None {
                ClientHello ToServer => ClientHello;
                ClientHelloWithId ToServer => AskResumeSession;
            }
            ClientHello {
                ServerHello FromServer => ServerHello;
                ServerHelloV13Draft18 FromServer => ClientChangeCipherSpec;
            }
            AskResumeSession {
                ServerHello FromServer => ResumeSession;
                ChangeCipherSpec ToServer => AskResumeSession;
            }
            ResumeSession {
                Certificate FromServer => Certificate;
                ChangeCipherSpec ToServer => ClientChangeCipherSpec;
                ChangeCipherSpec FromServer => ClientChangeCipherSpec;
            }
            ServerHello {
                Certificate FromServer => Certificate;
                ServerKeyExchange FromServer => NoCertSKE;
            }
            Certificate {
                ServerKeyExchange FromServer => ServerKeyExchange;
                CertificateRequest FromServer => CRCertRequest;
                ServerDone FromServer => PskHelloDone;
                CertificateStatus FromServer => CertificateSt;
            }
            CertificateSt {
                ServerKeyExchange FromServer => ServerKeyExchange;
            }
            ServerKeyExchange {
                CertificateRequest FromServer => CRCertRequest;
                ServerDone FromServer => ServerHelloDone;
            }
            ServerHelloDone {
                ClientKeyExchange ToServer => ClientKeyExchange;
            }
            ClientKeyExchange {
                ChangeCipherSpec ToServer => ClientChangeCipherSpec;
                ChangeCipherSpec FromServer => ClientChangeCipherSpec;
            }
            ClientChangeCipherSpec {
                NewSessionTicket FromServer => ClientChangeCipherSpec;
                ChangeCipherSpec FromServer => SessionEncrypted;
            }
            CRCertRequest {
                ServerDone FromServer => CRHelloDone;
            }
            CRHelloDone {
                Certificate ToServer => CRCert;
            }
            CRCert {
                ClientKeyExchange ToServer => CRClientKeyExchange;
            }
            CRClientKeyExchange {
                CertificateVerify ToServer => CRCertVerify;
                CertificateVerify FromServer => CRCertVerify;
                ChangeCipherSpec ToServer => ClientChangeCipherSpec;
                ChangeCipherSpec FromServer => ClientChangeCipherSpec;
            }
            CRCertVerify {
                ChangeCipherSpec ToServer => ClientChangeCipherSpec;
                ChangeCipherSpec FromServer => ClientChangeCipherSpec;
            }
            NoCertSKE {
                ServerDone FromServer => NoCertHelloDone;
            }
            NoCertHelloDone {
                ClientKeyExchange ToServer => NoCertCKE;
            }
            NoCertCKE {
                ChangeCipherSpec ToServer => ClientChangeCipherSpec;
                ChangeCipherSpec FromServer => ClientChangeCipherSpec;
            }
            PskHelloDone {
                ClientKeyExchange ToServer => PskCKE;
            }
            PskCKE {
                ChangeCipherSpec ToServer => ClientChangeCipherSpec;
                ChangeCipherSpec FromServer => ClientChangeCipherSpec;
            }
        }
    };
}

/// Expands to one row.
macro_rules! row {
    ($state:ident $kind:ident $direction:ident $next:ident) => {
        Row {
            state: TlsState::$state,
            kind: Kind::$kind,
            direction: Direction::$direction,
            next: TlsState::$next,
        }
    };
}

/// Expands to an array of the rows.
macro_rules! rows {
    ([] $($state:ident { $($kind:ident $direction:ident => $next:ident;)* })*) => {
        [$($(row!($state $kind $direction $next),)*)*]
    };
}

/// Expands to 1 for each row.
macro_rules! one {
    ($kind:ident) => {
        1
    };
}

/// Expands to the number of rows.
macro_rules! count {
    ([] $($state:ident { $($kind:ident $direction:ident => $next:ident;)* })*) => {
        0 $($(+ one!($kind))*)*
    };
}

/// Expands to a match with an arm for each state, which searches its rows. The compiler turns it
/// into comparisons with constants.
macro_rules! search {
    ([$at:ident $sought:ident $to:ident]
        $($state:ident { $($kind:ident $direction:ident => $next:ident;)* })*) => {
        match $at {
            $(TlsState::$state =>
                next_in(&[$(row!($state $kind $direction $next)),*], $sought, $to),)*
            TlsState::SessionEncrypted | TlsState::Alert | TlsState::Finished
                | TlsState::Invalid => None,
        }
    };
}

const COUNT: usize = transitions!(count);

/// The table. A `const` would be built again for each look-up.
static ROWS: [Row; COUNT] = transitions!(rows);

/// No two rows have the same state, kind and direction.
fn rows_are_distinct()
    ensures { IsOneRowEach ROWS }
{}

/// Returns where the first of `rows` with this kind and direction leads.
#[inline]
fn next_in(rows: &[Row], kind: Kind, direction: Direction) -> Option<TlsState>
    ensures { result ≡ next_of rows.now kind direction }
{
    for row in rows {
        if row.kind == kind && row.direction == direction {
            return Some(row.next);
        }
    }
    None
}

/// Returns where the table's row with this state, kind and direction leads.
#[inline]
pub(crate) fn next_after(state: TlsState, kind: Kind, direction: Direction) -> Option<TlsState>
    ensures { result ≡ next_after_of ROWS state kind direction }
{
    transitions!(search state kind direction)
}
