//! The fields of certificate chains, and what compares a certificate with its connection.
ghost use Rattle.std.specs.Prelude.{◌≡◌, ◌++◌, IfOk, OnOk, codes, decimal, map};
ghost use Rattle.std.specs.Option.{option_map};
ghost use Rattle.std.specs.String.{string_bytes};
ghost use Rattle.hex.specs.Hex.{encode_lower};
ghost use Rattle.log_formats.specs.Data.{some_numbers as numbers_if_any, some_texts as texts_if_any, value_of};
ghost use Rattle.log_fields.specs.Known.{known_of};
ghost use Rattle.log_fields.specs.Values.{chain_of, chain_value, count_value, expired_value, fault_at, faults_from};
ghost use Rattle.log_fields.specs.Values.{lengths_of, match_value, not_yet_valid_value, some_truth, sums_of};

use crate::context::FieldContext;
use crate::fields::{Chain, rows};
use crate::names::fault_name;
use crate::responses::stapled;
use log_certificates::{
    has_expired, is_not_yet_valid, logs_cell, next_update_cell, revoked_at_cell,
    stapled_count_cell, stapled_logs_cell, stapled_status_cell, stapled_times_cell,
    this_update_cell, times_cell,
};
use log_formats::cell::{Cell, TakesCell};
use log_formats::lists::{Numbers, Texts, some_numbers, some_texts};
use log_formats::text::some_mark;
use std::alloc::{AllocError, Global};
use tls_summary::{CertificateFault, CertificateSummary};

/// Returns the number of certificates in a chain; `None` without a chain.
fn count_cell<'a>(chain: &Option<Vec<CertificateSummary>>) -> Option<Cell<'a>>
    ensures { value_of result ≡ count_value (option_map (λ v. v.items) chain.now) }
{
    match chain {
        Some(chain) => Some(Cell::Number(chain.len() as u64)),
        None => None,
    }
}

/// Returns the certificates of a chain; none without a chain.
fn certificates(chain: &Option<Vec<CertificateSummary>>) -> &[CertificateSummary]
    ensures { result.now ≡ chain_of (option_map (λ v. v.items) chain.now) }
{
    match chain {
        Some(chain) => chain.as_slice(),
        None => &[],
    }
}

/// Returns the lengths of certificates.
fn lengths(alloc: Global, chain: &[CertificateSummary]) -> Result<Vec<u64>, AllocError>
    ensures { IfOk result (λ lengths. lengths.items ≡ lengths_of chain.now) }
{
    let mut lengths = Vec::with_capacity(alloc, chain.len())?;
    for one in chain {
        lengths.push(one.length as u64)?;
    }
    Ok(lengths)
}

/// Returns the lengths of a chain's certificates; `None` if there are none.
fn lengths_cell<'a>(
    alloc: Global,
    chain: &Option<Vec<CertificateSummary>>,
) -> Result<Option<Cell<'a>>, AllocError>
    ensures { IfOk result (λ cell. value_of cell
        ≡ numbers_if_any (lengths_of (chain_of (option_map (λ v. v.items) chain.now)))) }
{
    let lengths = lengths(alloc, certificates(chain))?;
    Ok(some_numbers(Numbers::Owned(lengths)))
}

/// Returns the SHA-256 of certificates.
fn sums(alloc: Global, chain: &[CertificateSummary]) -> Result<Vec<[u8; 32]>, AllocError>
    ensures { IfOk result (λ sums. sums.items ≡ sums_of chain.now) }
{
    let mut sums = Vec::with_capacity(alloc, chain.len())?;
    for one in chain {
        sums.push(one.sha256)?;
    }
    Ok(sums)
}

/// Returns the fingerprints of a chain's certificates; `None` if there are none.
fn fingerprints_cell<'a>(
    alloc: Global,
    chain: &Option<Vec<CertificateSummary>>,
) -> Result<Option<Cell<'a>>, AllocError>
    ensures { IfOk result (λ cell. value_of cell ≡ texts_if_any
        (map encode_lower (sums_of (chain_of (option_map (λ v. v.items) chain.now))))) }
{
    let sums = sums(alloc, certificates(chain))?;
    Ok(some_texts(Texts::Digests(sums)))
}

/// Returns whether a chain is in order, if that is known.
#[tactic(auto, unfolding(crate::specs::Values::some_truth))]
fn order_cell<'a>(order: Option<bool>) -> Option<Cell<'a>>
    ensures { value_of result ≡ some_truth order }
{
    Some(Cell::Mark(order?))
}

/// Returns a position with a name behind it, such as `0:verify`.
fn placed_text(alloc: Global, place: usize, name: &str) -> Result<String, AllocError>
    ensures { IfOk result (λ text. string_bytes text ≡ decimal place ++ codes ":" ++ name.now) }
{
    let mut text = String::new(alloc);
    text.push_str(itoa::Buffer::new().format(place as u64))?;
    text.push(':')?;
    text.push_str(name)?;
    Ok(text)
}

/// Appends why the certificate at this position can't be parsed, such as `0:verify`, if it can't.
fn add_fault(
    alloc: Global,
    all: &mut Vec<String>,
    place: usize,
    fault: Option<CertificateFault>,
) -> Result<(), AllocError>
    ensures { OnOk result (map string_bytes all.new.items
        ≡ map string_bytes all.old.items ++ fault_at place fault) }
{
    if let Some(fault) = fault {
        all.push(placed_text(alloc, place, fault_name(fault))?)?;
    }
    Ok(())
}

/// Returns which certificates can't be parsed, and why.
fn faults(alloc: Global, chain: &[CertificateSummary]) -> Result<Vec<String>, AllocError>
    ensures { IfOk result (λ all. map string_bytes all.items ≡ faults_from 0 chain.now) }
{
    let mut all = Vec::new(alloc);
    let mut place = 0;
    let mut rest = chain;
    while let [first, behind @ ..] = rest {
        add_fault(alloc, &mut all, place, first.fault)?;
        place += 1;
        rest = behind;
    }
    Ok(all)
}

/// Returns which certificates of a chain can't be parsed, and why; `None` if all can.
fn faults_cell<'a>(
    alloc: Global,
    chain: &Option<Vec<CertificateSummary>>,
) -> Result<Option<Cell<'a>>, AllocError>
    ensures { IfOk result (λ cell. value_of cell
        ≡ texts_if_any (faults_from 0 (chain_of (option_map (λ v. v.items) chain.now)))) }
{
    let faults = faults(alloc, certificates(chain))?;
    Ok(some_texts(Texts::Owned(faults)))
}

/// Returns whether the host that the client asked for is a name in the server's certificate (RFC
/// 9525, section 6.3); `None` without such a host or certificate.
fn match_cell<'a>(context: &mut FieldContext<'_>) -> Option<Cell<'a>>
    ensures value { value_of result ≡ match_value (known_of context.old) }
    ensures same { known_of context.new ≡ known_of context.old }
{
    let handshake = context.handshake;
    let host = handshake.server_name()?;
    context.server.parse();
    let is_named = context.server.parsed()?.matches(host)?;
    Some(Cell::Mark(is_named))
}

/// Returns true if the server's certificate had expired at the connection's first packet.
fn expired_cell<'a>(context: &mut FieldContext<'_>) -> Option<Cell<'a>>
    ensures value { value_of result ≡ expired_value (known_of context.old) }
    ensures same { known_of context.new ≡ known_of context.old }
{
    context.server.parse();
    some_mark(has_expired(context.server.parsed()?, context.summary.first_time))
}

/// Returns true if the server's certificate wasn't valid yet at the connection's first packet.
fn not_yet_valid_cell<'a>(context: &mut FieldContext<'_>) -> Option<Cell<'a>>
    ensures value { value_of result ≡ not_yet_valid_value (known_of context.old) }
    ensures same { known_of context.new ≡ known_of context.old }
{
    context.server.parse();
    some_mark(is_not_yet_valid(context.server.parsed()?, context.summary.first_time))
}

/// Passes a field of [`Chain`] to `to`. An empty chain has no lengths and no fingerprints.
pub fn compute_chain<'a, T: TakesCell<'a>>(
    context: &mut FieldContext<'a>,
    field: &Chain,
    to: &mut T,
) -> Result<(), AllocError>
    ensures value { OnOk result
        (T.HasTaken (chain_value field.now (known_of context.old)) to.old to.new) }
    ensures same { known_of context.new ≡ known_of context.old }
{
    rows!(computes [Chain context field to take_result])
}
