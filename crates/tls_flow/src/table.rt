//! The table of transitions.
ghost use Rattle.std.specs.Prelude.{◌≡◌};
ghost use Rattle.tls_flow.specs.Table.{IsOneRowEach, awaited_in, step};

use crate::state::State;
use crate::symbol::{Direction, Kind, Symbol};

/// In `state`, a message of `kind` in `direction` leads to `next`.
#[derive(Clone, Copy)]
pub(crate) struct Row {
    pub(crate) state: State,
    pub(crate) kind: Kind,
    pub(crate) direction: Direction,
    pub(crate) next: State,
}

/// Every transition that doesn't follow from the rules, written once. The macro passes them to the
/// macro `$then`, after `$words`.
macro_rules! transitions {
    ($then:ident $($words:tt)*) => {
        $then! {
            [$($words)*]
            Start {
                ClientHello ToServer => Hello;
            }
            Hello {
                HelloVerifyRequest FromServer => Verify;
                ServerHello FromServer => ServerHello;
                HelloRetryRequest FromServer => Retry;
                ServerHello13 FromServer => Tls13;
                ChangeCipherSpec ToServer => ChangedHello;
                ChangeCipherSpec FromServer => ChangedHello;
                Encrypted ToServer => EarlyHello;
            }
            Verify {
                ClientHello ToServer => VerifiedHello;
            }
            VerifiedHello {
                HelloVerifyRequest FromServer => Verify;
                ServerHello FromServer => ServerHello;
            }
            ChangedHello {
                HelloRetryRequest FromServer => Retry;
                ServerHello13 FromServer => Tls13;
                ChangeCipherSpec ToServer => ChangedHello;
                ChangeCipherSpec FromServer => ChangedHello;
                Encrypted ToServer => EarlyHello;
            }
            EarlyHello {
                HelloRetryRequest FromServer => EarlyRetry;
                ServerHello13 FromServer => EarlyTls13;
                ChangeCipherSpec ToServer => EarlyHello;
                ChangeCipherSpec FromServer => EarlyHello;
                Encrypted ToServer => EarlyHello;
            }
            Retry {
                ClientHello ToServer => SecondHello;
                ChangeCipherSpec ToServer => Retry;
                ChangeCipherSpec FromServer => Retry;
                Encrypted ToServer => EarlyRetry;
            }
            EarlyRetry {
                ClientHello ToServer => EarlySecondHello;
                ChangeCipherSpec ToServer => EarlyRetry;
                ChangeCipherSpec FromServer => EarlyRetry;
                Encrypted ToServer => EarlyRetry;
            }
            SecondHello {
                ServerHello13 FromServer => RetriedTls13;
                ChangeCipherSpec ToServer => SecondHello;
                ChangeCipherSpec FromServer => SecondHello;
            }
            EarlySecondHello {
                ServerHello13 FromServer => EarlyRetriedTls13;
                ChangeCipherSpec ToServer => EarlySecondHello;
                ChangeCipherSpec FromServer => EarlySecondHello;
            }
            ServerHello {
                Certificate FromServer => Certificate;
                ServerKeyExchange FromServer => Keys;
                ServerDone FromServer => Done;
                NewSessionTicket FromServer => ResumedTicket;
                ChangeCipherSpec FromServer => ServerChange;
            }
            Certificate {
                CertificateStatus FromServer => CertificateStatus;
                ServerKeyExchange FromServer => CertifiedKeys;
                CertificateRequest FromServer => Request;
                ServerDone FromServer => Done;
            }
            CertificateStatus {
                ServerKeyExchange FromServer => CertifiedKeys;
                CertificateRequest FromServer => Request;
                ServerDone FromServer => Done;
            }
            CertifiedKeys {
                CertificateRequest FromServer => Request;
                ServerDone FromServer => Done;
            }
            Keys {
                ServerDone FromServer => Done;
            }
            Request {
                ServerDone FromServer => RequestDone;
            }
            RequestDone {
                Certificate ToServer => ClientCertificate;
                NoCertificate ToServer => Done;
            }
            ClientCertificate {
                ClientKeyExchange ToServer => ClientKeys;
            }
            ClientKeys {
                CertificateVerify ToServer => ClientDone;
                ChangeCipherSpec ToServer => ClientChange;
            }
            Done {
                ClientKeyExchange ToServer => ClientDone;
            }
            ClientDone {
                ChangeCipherSpec ToServer => ClientChange;
            }
            ClientChange {
                Encrypted ToServer => ClientChange;
                NewSessionTicket FromServer => Ticket;
                ChangeCipherSpec FromServer => Full;
            }
            Ticket {
                Encrypted ToServer => Ticket;
                ChangeCipherSpec FromServer => Full;
            }
            ResumedTicket {
                ChangeCipherSpec FromServer => ServerChange;
            }
            ServerChange {
                Encrypted FromServer => ServerChange;
                ChangeCipherSpec ToServer => Resumed;
            }
        }
    };
}

/// The [`Row`] of one transition.
macro_rules! row {
    ($state:ident $kind:ident $direction:ident $next:ident) => {
        Row {
            state: State::$state,
            kind: Kind::$kind,
            direction: Direction::$direction,
            next: State::$next,
        }
    };
}

/// All rows, as an array.
macro_rules! rows {
    ([] $($state:ident { $($kind:ident $direction:ident => $next:ident;)* })*) => {
        [$($(row!($state $kind $direction $next),)*)*]
    };
}

/// 1 for each row; `count!` adds them up.
macro_rules! one {
    ($kind:ident) => {
        1
    };
}

/// The number of rows.
macro_rules! count {
    ([] $($state:ident { $($kind:ident $direction:ident => $next:ident;)* })*) => {
        0 $($(+ one!($kind))*)*
    };
}

/// The next state of a symbol: from the row that has it, else from the rules. Each symbol of the
/// table has an arm here.
macro_rules! entry {
    ($at:ident ClientHello ToServer; ClientHello ToServer => $next:ident; $($rows:tt)*) => {
        State::$next
    };
    ($at:ident HelloVerifyRequest FromServer; HelloVerifyRequest FromServer => $next:ident;
        $($rows:tt)*) => {
        State::$next
    };
    ($at:ident ServerHello FromServer; ServerHello FromServer => $next:ident; $($rows:tt)*) => {
        State::$next
    };
    ($at:ident HelloRetryRequest FromServer; HelloRetryRequest FromServer => $next:ident;
        $($rows:tt)*) => {
        State::$next
    };
    ($at:ident ServerHello13 FromServer; ServerHello13 FromServer => $next:ident; $($rows:tt)*) => {
        State::$next
    };
    ($at:ident ChangeCipherSpec ToServer; ChangeCipherSpec ToServer => $next:ident; $($rows:tt)*) =>
        {
        State::$next
    };
    ($at:ident ChangeCipherSpec FromServer; ChangeCipherSpec FromServer => $next:ident;
        $($rows:tt)*) => {
        State::$next
    };
    ($at:ident Encrypted ToServer; Encrypted ToServer => $next:ident; $($rows:tt)*) => {
        State::$next
    };
    ($at:ident Certificate FromServer; Certificate FromServer => $next:ident; $($rows:tt)*) => {
        State::$next
    };
    ($at:ident ServerKeyExchange FromServer; ServerKeyExchange FromServer => $next:ident;
        $($rows:tt)*) => {
        State::$next
    };
    ($at:ident ServerDone FromServer; ServerDone FromServer => $next:ident; $($rows:tt)*) => {
        State::$next
    };
    ($at:ident NewSessionTicket FromServer; NewSessionTicket FromServer => $next:ident;
        $($rows:tt)*) => {
        State::$next
    };
    ($at:ident CertificateStatus FromServer; CertificateStatus FromServer => $next:ident;
        $($rows:tt)*) => {
        State::$next
    };
    ($at:ident CertificateRequest FromServer; CertificateRequest FromServer => $next:ident;
        $($rows:tt)*) => {
        State::$next
    };
    ($at:ident Certificate ToServer; Certificate ToServer => $next:ident; $($rows:tt)*) => {
        State::$next
    };
    ($at:ident NoCertificate ToServer; NoCertificate ToServer => $next:ident; $($rows:tt)*) => {
        State::$next
    };
    ($at:ident ClientKeyExchange ToServer; ClientKeyExchange ToServer => $next:ident; $($rows:tt)*)
        => {
        State::$next
    };
    ($at:ident CertificateVerify ToServer; CertificateVerify ToServer => $next:ident; $($rows:tt)*)
        => {
        State::$next
    };
    ($at:ident Encrypted FromServer; Encrypted FromServer => $next:ident; $($rows:tt)*) => {
        State::$next
    };
    ($at:ident $kind:ident $to:ident; $other:ident $other_to:ident => $next:ident; $($rows:tt)*) =>
        {
        entry!($at $kind $to; $($rows)*)
    };
    ($at:ident Warning $to:ident;) => {
        State::$at
    };
    ($at:ident Heartbeat $to:ident;) => {
        State::$at
    };
    ($at:ident HelloRequest FromServer;) => {
        State::$at
    };
    ($at:ident Fatal $to:ident;) => {
        State::BrokenOff
    };
    ($at:ident Unknown $to:ident;) => {
        State::Unknown
    };
    ($at:ident $kind:ident $to:ident;) => {
        State::NoHandshake
    };
}

/// The next states for one kind: from the server, and to the server.
macro_rules! of_kind {
    ($at:ident $kind:ident; $($rows:tt)*) => {
        [entry!($at $kind FromServer; $($rows)*), entry!($at $kind ToServer; $($rows)*)]
    };
}

/// The next states for every symbol at one state, with the kinds in the order of their declaration.
macro_rules! of_state {
    ($at:ident; $($rows:tt)*) => {
        [
            of_kind!($at HelloRequest; $($rows)*),
            of_kind!($at ClientHello; $($rows)*),
            of_kind!($at HelloVerifyRequest; $($rows)*),
            of_kind!($at ServerHello; $($rows)*),
            of_kind!($at HelloRetryRequest; $($rows)*),
            of_kind!($at ServerHello13; $($rows)*),
            of_kind!($at NewSessionTicket; $($rows)*),
            of_kind!($at Certificate; $($rows)*),
            of_kind!($at ServerKeyExchange; $($rows)*),
            of_kind!($at CertificateRequest; $($rows)*),
            of_kind!($at ServerDone; $($rows)*),
            of_kind!($at CertificateVerify; $($rows)*),
            of_kind!($at ClientKeyExchange; $($rows)*),
            of_kind!($at CertificateStatus; $($rows)*),
            of_kind!($at ChangeCipherSpec; $($rows)*),
            of_kind!($at Encrypted; $($rows)*),
            of_kind!($at Warning; $($rows)*),
            of_kind!($at NoCertificate; $($rows)*),
            of_kind!($at Fatal; $($rows)*),
            of_kind!($at Heartbeat; $($rows)*),
            of_kind!($at Unknown; $($rows)*),
            of_kind!($at Other; $($rows)*),
        ]
    };
}

/// The next states for every symbol at every state, with the states in the order of their
/// declaration. A final state leads to itself.
macro_rules! steps {
    ([] $($state:ident { $($kind:ident $direction:ident => $next:ident;)* })*) => {
        [
            $(of_state!($state; $($kind $direction => $next;)*),)*
            [[State::Full; 2]; KINDS],
            [[State::Resumed; 2]; KINDS],
            [[State::Tls13; 2]; KINDS],
            [[State::EarlyTls13; 2]; KINDS],
            [[State::RetriedTls13; 2]; KINDS],
            [[State::EarlyRetriedTls13; 2]; KINDS],
            [[State::BrokenOff; 2]; KINDS],
            [[State::Unknown; 2]; KINDS],
            [[State::NoHandshake; 2]; KINDS],
        ]
    };
}

/// A `match` with an arm for each state, which gives the symbols of its rows.
macro_rules! symbols {
    ([$at:ident] $($state:ident { $($kind:ident $direction:ident => $next:ident;)* })*) => {
        match $at {
            $(State::$state =>
                &[$(Symbol { kind: Kind::$kind, direction: Direction::$direction }),*],)*
            State::Full | State::Resumed | State::Tls13 | State::EarlyTls13 | State::RetriedTls13
            | State::EarlyRetriedTls13 | State::BrokenOff | State::Unknown
            | State::NoHandshake => &[],
        }
    };
}

const COUNT: usize = transitions!(count);

/// The number of kinds, and of states.
const KINDS: usize = 22;

const STATES: usize = 34;

/// The rows of the table.
static ROWS: [Row; COUNT] = transitions!(rows);

/// The next state by state, kind and direction. Indexing it is cheaper than searching the rows.
static STEPS: [[[State; 2]; KINDS]; STATES] = transitions!(steps);

/// No two rows have the same state, kind and direction.
fn rows_are_distinct()
    ensures { IsOneRowEach ROWS }
{}

/// The state after a symbol.
#[inline]
pub(crate) fn next_state(state: State, symbol: Symbol) -> State
    ensures { result ≡ step state symbol }
{
    STEPS[state as usize][symbol.kind as usize][symbol.direction as usize]
}

/// The symbols of the state's rows: what it waits for.
pub(crate) fn awaited(state: State) -> &'static [Symbol]
    ensures { result.now ≡ awaited_in ROWS state }
{
    transitions!(symbols state)
}
