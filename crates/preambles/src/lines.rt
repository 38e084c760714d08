//! The protocols of lines, which go on in TLS once the server accepts a command: a row for each.
ghost use Rattle.std.specs.Prelude.{◌≡◌};
ghost use Rattle.preambles.specs.Lines.{answer as answer_of, behind_answer as behind, codes_answer as codes, greeted as greeted_by, greeting as greeting_of, greeting_rest as rest_of_greeting, imap_answer as imap, irc_answer as irc, nntp_answer as nntp, pop3_answer as pop3, sieve_answer as sieve};

use crate::phase::{Answer, Command, Dialect, Outcome, Phase, Protocol, Word};
use crate::words::{begins, code_of, is_last, split_word};

/// SMTP, LMTP and FTP.
#[tactic(auto, unfolding(crate::specs::Lines::codes_answer))]
fn codes_answer(is_lmtp: bool, command: Command, line: &[u8]) -> Answer
    ensures { result ≡ codes is_lmtp command line.now }
{
    let code = code_of(line);
    if code < 200 || !is_last(line) {
        Answer::More
    } else if code == 220 && matches!(command.first, Word::Starttls) {
        Answer::Accepts(if is_lmtp {
            Protocol::Lmtp
        } else {
            Protocol::Smtp
        })
    } else if code == 234
        && matches!(command.first, Word::Auth)
        && matches!(command.second, Word::Tls)
    {
        Answer::Accepts(Protocol::Ftp)
    } else if code == 334 {
        Answer::Asks
    } else if code == 354 || code == 221 || code == 421 {
        Answer::Ends
    } else {
        Answer::Done
    }
}

/// NNTP.
#[tactic(auto, unfolding(crate::specs::Lines::nntp_answer))]
fn nntp_answer(command: Command, line: &[u8]) -> Answer
    ensures { result ≡ nntp command line.now }
{
    let code = code_of(line);
    if code == 382 && matches!(command.first, Word::Starttls) {
        Answer::Accepts(Protocol::Nntp)
    } else if code == 383 {
        Answer::Asks
    } else if code == 100
        || code == 101
        || code == 215
        || code >= 220 && code <= 231 && code != 223
    {
        Answer::Lists
    } else if code == 205 || code == 400 {
        Answer::Ends
    } else if code == 0 {
        Answer::Foreign
    } else {
        Answer::Done
    }
}

/// POP3.
#[tactic(auto, unfolding(crate::specs::Lines::pop3_answer))]
fn pop3_answer(command: Command, line: &[u8]) -> Answer
    ensures { result ≡ pop3 command line.now }
{
    if begins(line, b"-ERR") {
        Answer::Done
    } else if begins(line, b"+OK") {
        match command.first {
            Word::Stls => Answer::Accepts(Protocol::Pop3),
            Word::Capa => Answer::Lists,
            Word::Login | Word::Authenticate | Word::Auth => Answer::Ends,
            _ => Answer::Done,
        }
    } else if begins(line, b"+ ") {
        Answer::Asks
    } else {
        Answer::Foreign
    }
}

/// IMAP.
#[tactic(auto, unfolding(crate::specs::Lines::imap_answer))]
fn imap_answer(command: Command, line: &[u8]) -> Answer
    ensures { result ≡ imap command line.now }
{
    if begins(line, b"* BYE") {
        return Answer::Ends;
    }
    if begins(line, b"* ") {
        return Answer::More;
    }
    if begins(line, b"+") {
        return match command.second {
            Word::Authenticate => Answer::Asks,
            _ => Answer::Ends,
        };
    }
    let (_, status) = split_word(line);
    if begins(status, b"OK") {
        match command.second {
            Word::Starttls => Answer::Accepts(Protocol::Imap),
            Word::Login | Word::Authenticate => Answer::Ends,
            _ => Answer::Done,
        }
    } else if begins(status, b"NO") || begins(status, b"BAD") {
        Answer::Done
    } else {
        Answer::Foreign
    }
}

/// ManageSieve.
#[tactic(auto, unfolding(crate::specs::Lines::sieve_answer))]
fn sieve_answer(command: Command, line: &[u8]) -> Answer
    ensures { result ≡ sieve command line.now }
{
    if begins(line, b"OK") {
        match command.first {
            Word::Starttls => Answer::Accepts(Protocol::Sieve),
            Word::Login | Word::Authenticate => Answer::Ends,
            _ => Answer::Done,
        }
    } else if begins(line, b"NO") {
        Answer::Done
    } else if begins(line, b"BYE") {
        Answer::Ends
    } else {
        Answer::More
    }
}

/// What a line of the server means.
#[tactic(auto, unfolding(crate::specs::Lines::answer))]
pub(crate) fn answer(dialect: Dialect, command: Command, line: &[u8]) -> Answer
    ensures { result ≡ answer_of dialect command line.now }
{
    match dialect {
        Dialect::Codes => codes_answer(false, command, line),
        Dialect::Lmtp => codes_answer(true, command, line),
        Dialect::Nntp => nntp_answer(command, line),
        Dialect::Pop3 => pop3_answer(command, line),
        Dialect::Imap => imap_answer(command, line),
        Dialect::Sieve => sieve_answer(command, line),
    }
}

/// The phase behind a line of the server.
#[tactic(auto, unfolding(crate::specs::Lines::behind_answer))]
pub(crate) fn behind_answer(dialect: Dialect, command: Command, answer: Answer) -> Phase
    ensures { result ≡ behind dialect command answer }
{
    match answer {
        Answer::More => Phase::Reply(dialect, command),
        Answer::Done => Phase::Command(dialect),
        Answer::Asks => Phase::Value(dialect),
        Answer::Lists => Phase::Listing(dialect),
        Answer::Accepts(protocol) => Phase::Over(Outcome::Tls(protocol)),
        Answer::Ends => Phase::Over(Outcome::Plain),
        Answer::Foreign => Phase::Over(Outcome::Unknown),
    }
}

/// The phase behind a line of an IRC server, after STARTTLS.
#[tactic(auto, unfolding(crate::specs::Lines::irc_answer))]
pub(crate) fn irc_answer(line: &[u8]) -> Phase
    ensures { result ≡ irc line.now }
{
    let (_, numeric) = split_word(line);
    if begins(numeric, b"670 ") {
        Phase::Over(Outcome::Tls(Protocol::Irc))
    } else if begins(numeric, b"691 ") {
        Phase::IrcCommand
    } else {
        Phase::IrcReply
    }
}

/// The phase behind a greeting of SMTP, LMTP or FTP.
#[tactic(auto, unfolding(crate::specs::Lines::greeted))]
fn greeted(dialect: Dialect, command: Command, is_last: bool) -> Phase
    ensures { result ≡ greeted_by dialect command is_last }
{
    if is_last {
        Phase::Reply(dialect, command)
    } else {
        Phase::GreetingRest(dialect, command)
    }
}

/// The phase behind the first line of a server's greeting.
#[tactic(auto, unfolding(crate::specs::Lines::greeting))]
pub(crate) fn greeting(command: Command, line: &[u8]) -> Phase
    ensures { result ≡ greeting_of command line.now }
{
    let code = code_of(line);
    if code == 220 && matches!(command.first, Word::Lhlo) {
        greeted(Dialect::Lmtp, command, is_last(line))
    } else if code == 220 {
        greeted(Dialect::Codes, command, is_last(line))
    } else if code == 200 || code == 201 {
        Phase::Reply(Dialect::Nntp, command)
    } else if code >= 400 || begins(line, b"HTTP/1.") {
        Phase::Over(Outcome::Plain)
    } else if begins(line, b"+OK") {
        Phase::Reply(Dialect::Pop3, command)
    } else if begins(line, b"* ") {
        Phase::Reply(Dialect::Imap, command)
    } else if begins(line, b"\"") {
        Phase::GreetingRest(Dialect::Sieve, command)
    } else if begins(line, b":") || begins(line, b"NOTICE ") {
        if matches!(command.first, Word::Starttls) {
            irc_answer(line)
        } else {
            Phase::IrcCommand
        }
    } else {
        Phase::Over(Outcome::Unknown)
    }
}

/// The phase behind a further line of a greeting.
#[tactic(auto, unfolding(crate::specs::Lines::greeting_rest))]
pub(crate) fn greeting_rest(dialect: Dialect, command: Command, line: &[u8]) -> Phase
    ensures { result ≡ rest_of_greeting dialect command line.now }
{
    if matches!(dialect, Dialect::Sieve) {
        if begins(line, b"OK") {
            Phase::Reply(dialect, command)
        } else if begins(line, b"NO") || begins(line, b"BYE") {
            Phase::Over(Outcome::Plain)
        } else {
            Phase::GreetingRest(dialect, command)
        }
    } else {
        greeted(dialect, command, code_of(line) > 0 && is_last(line))
    }
}
