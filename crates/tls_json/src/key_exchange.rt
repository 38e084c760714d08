//! Key exchanges and signatures. Their fields depend on the negotiated version and cipher suite.
ghost use Rattle.std.specs.Prelude.{IfOk, ◌++◌, List, ℕ, codes};
ghost use Rattle.tls_json.specs.Outline.{Shows, HasNames, HasFieldNames, IfRead, IfMore};
ghost use Rattle.tls_json.specs.Tables.{coefficients_fields, explicit_prime_fields, named_curve_fields, curve_fields, dh_fields, ecdh_fields, signature_fields, names_if, params_names, server_key_exchange_names, client_value_names, client_key_exchange_names};

use crate::json::Value;
use crate::negotiated::NegotiatedParameters;
use crate::table::Table;
use crate::text::{blob, escaped};
use layouts::{counted1, counted2};
use std::alloc::{AllocError, Global};
use tls_base::{KeyExchange, Public, TlsVersion};
use tls_key_exchange::{
    ECParameters, ECParametersContent, ExplicitPrimeContent, ServerDHParams, ServerECDHParams,
    parse_dh_params, parse_digitally_signed, parse_digitally_signed_old, parse_ecdh_params,
};

/// The bytes that are left, and the value; `None` if it can't be parsed.
type Read<'a> = Option<(&'a [u8], Result<Value, AllocError>)>;

/// The bytes that are left, and the table with more fields; `None` if they can't be parsed.
type More<'a> = Option<(&'a [u8], Table)>;

/// Adds a PSK identity, or a server's hint, if the suite has one. It is text (RFC 4279, section
/// 5.1).
fn with_identity<'a>(
    alloc: Global,
    table: Table,
    name: &'static str,
    exchange: KeyExchange,
    i: &'a [u8],
) -> More<'a>
    ensures { (ns : List (List ℕ)) → HasFieldNames ns table
        → IfMore (HasFieldNames (ns ++ names_if exchange.has_identity name.now)) result }
{
    if !exchange.has_identity {
        return Some((i, table));
    }
    let Ok((i, identity)) = counted2(i) else {
        return None;
    };
    Some((i, table.add(name, escaped(alloc, identity))))
}

/// Writes the coefficients of a curve (RFC 4492, section 5.4).
fn coefficients(alloc: Global, a: &[u8], b: &[u8]) -> Result<Value, AllocError>
    ensures { IfOk result (Shows (coefficients_fields a.now b.now)) }
{
    Table::new(alloc).bytes("a", a).bytes("b", b).finish()
}

/// Writes a curve by its parameters (RFC 4492, section 5.4).
fn explicit_prime(
    alloc: Global,
    curve_type: u8,
    content: &ExplicitPrimeContent<'_>,
) -> Result<Value, AllocError>
    ensures { IfOk result (Shows (explicit_prime_fields curve_type content.now)) }
{
    Table::new(alloc)
        .decimal("curve_type", u64::from(curve_type))
        .bytes("prime_p", content.prime_p)
        .add(
            "curve",
            coefficients(alloc, content.curve.a, content.curve.b),
        )
        .bytes("base", content.base.point)
        .bytes("order", content.order)
        .bytes("cofactor", content.cofactor)
        .finish()
}

/// Writes a curve by its number (RFC 8422, section 5.4).
fn named_curve(alloc: Global, curve_type: u8, namedcurve: u16) -> Result<Value, AllocError>
    ensures { IfOk result (Shows (named_curve_fields curve_type namedcurve)) }
{
    Table::new(alloc)
        .decimal("curve_type", u64::from(curve_type))
        .hexadecimal("namedcurve", namedcurve)
        .finish()
}

fn curve_of(alloc: Global, parameters: &ECParameters<'_>) -> Result<Value, AllocError>
    ensures { IfOk result (Shows (curve_fields parameters.now)) }
{
    let curve_type = parameters.curve_type.0;
    match &parameters.params_content {
        ECParametersContent::NamedGroup(group) => named_curve(alloc, curve_type, group.0),
        ECParametersContent::ExplicitPrime(content) => explicit_prime(alloc, curve_type, content),
    }
}

/// Writes a server's parameters of finite-field Diffie-Hellman (RFC 5246, section 7.4.3).
fn dh_params(alloc: Global, values: &ServerDHParams<'_>) -> Result<Value, AllocError>
    ensures { IfOk result (Shows (dh_fields values.now)) }
{
    Table::new(alloc)
        .bytes("dh_p", values.dh_p)
        .bytes("dh_g", values.dh_g)
        .bytes("dh_Ys", values.dh_ys)
        .finish()
}

/// Writes a server's parameters of elliptic-curve Diffie-Hellman (RFC 8422, section 5.4).
fn ecdh_params(alloc: Global, values: &ServerECDHParams<'_>) -> Result<Value, AllocError>
    ensures { IfOk result (Shows (ecdh_fields values.now)) }
{
    Table::new(alloc)
        .add("curve_params", curve_of(alloc, &values.curve_params))
        .bytes("public", values.public.point)
        .finish()
}

/// Adds a server's Diffie-Hellman parameters, if the suite has some.
fn with_public_values<'a>(alloc: Global, table: Table, public: Public, i: &'a [u8]) -> More<'a>
    ensures { (ns : List (List ℕ)) → HasFieldNames ns table
        → IfMore (HasFieldNames (ns ++ params_names public)) result }
{
    match public {
        Public::Nothing | Public::Rsa => Some((i, table)),
        Public::Dh => {
            let Ok((i, values)) = parse_dh_params(i) else {
                return None;
            };
            Some((i, table.add("params", dh_params(alloc, &values))))
        }
        Public::Ecdh => {
            let Ok((i, values)) = parse_ecdh_params(i) else {
                return None;
            };
            Some((i, table.add("params", ecdh_params(alloc, &values))))
        }
    }
}

/// Writes a signature (RFC 5246, section 4.7), which names its algorithm from TLS 1.2 on.
fn signature_of(
    alloc: Global,
    algorithm: Option<u16>,
    signature: &[u8],
) -> Result<Value, AllocError>
    ensures { IfOk result (Shows (signature_fields algorithm signature.now)) }
{
    Table::new(alloc)
        .some_hexadecimal("algorithm", algorithm)
        .bytes("signature", signature)
        .finish()
}

/// Parses a signature of that version; `None` for versions other than SSL 3.0, TLS 1.0 to 1.2, and
/// DTLS 1.0 and 1.2.
pub fn signature<'a>(alloc: Global, version: TlsVersion, i: &'a [u8]) -> Read<'a> {
    let answer = match version {
        TlsVersion::Ssl30 | TlsVersion::Tls10 | TlsVersion::Tls11 | TlsVersion::DTls10 => {
            parse_digitally_signed_old(i)
        }
        TlsVersion::Tls12 | TlsVersion::DTls12 => parse_digitally_signed(i),
        _ => return None,
    };
    let Ok((i, signed)) = answer else {
        return None;
    };
    let algorithm = match signed.alg {
        Some(pair) => Some(u16::from_be_bytes([pair.hash.0, pair.sign.0])),
        None => None,
    };
    Some((i, signature_of(alloc, algorithm, signed.bytes)))
}

/// Adds the signature of a server's parameters, if the suite has one.
fn with_signature<'a>(
    alloc: Global,
    table: Table,
    is_signed: bool,
    version: TlsVersion,
    i: &'a [u8],
) -> More<'a>
    ensures { (ns : List (List ℕ)) → HasFieldNames ns table
        → IfMore (HasFieldNames (ns ++ names_if is_signed (codes "signed_params"))) result }
{
    if !is_signed {
        return Some((i, table));
    }
    let (i, signed_params) = signature(alloc, version, i)?;
    Some((i, table.add("signed_params", signed_params)))
}

/// Parses a ServerKeyExchange by the fields of this exchange.
fn server_fields<'a>(
    alloc: Global,
    exchange: KeyExchange,
    version: TlsVersion,
    body: &'a [u8],
) -> Read<'a>
    ensures { IfRead (HasNames (server_key_exchange_names exchange)) result }
{
    let table = Table::new(alloc);
    let (i, table) = with_identity(alloc, table, "psk_identity_hint", exchange, body)?;
    let (i, table) = with_public_values(alloc, table, exchange.public, i)?;
    let (i, table) = with_signature(alloc, table, exchange.is_signed, version, i)?;
    Some((i, table.finish()))
}

/// Parses a ServerKeyExchange (RFC 5246, section 7.4.3; RFC 8422, section 5.4; RFC 4279, sections 2
/// to 4; RFC 5489, section 2). With RSA alone only export suites have one, whose values aren't
/// parsed.
pub fn server_key_exchange<'a>(
    alloc: Global,
    negotiated: NegotiatedParameters,
    body: &'a [u8],
) -> Read<'a> {
    let exchange = KeyExchange::of(negotiated.cipher)?;
    if matches!(exchange.public, Public::Rsa) && !exchange.has_identity {
        return None;
    }
    server_fields(alloc, exchange, negotiated.version, body)
}

/// Parses a client's public value or encrypted secret, if the suite has one. In SSL 3.0 the secret
/// has no length (RFC 6101, section 5.6.7.1), and isn't parsed.
fn client_value<'a>(
    version: TlsVersion,
    public: Public,
    i: &'a [u8],
) -> Option<(&'a [u8], &'a [u8])> {
    let answer = match public {
        Public::Nothing => return Some((i, &[])),
        Public::Rsa if version == TlsVersion::Ssl30 => return None,
        Public::Rsa | Public::Dh => counted2(i),
        Public::Ecdh => counted1(i),
    };
    match answer {
        Ok(read) => Some(read),
        Err(_) => None,
    }
}

/// Adds a client's public value or encrypted secret under its name.
fn with_client_value(alloc: Global, table: Table, public: Public, content: &[u8]) -> Table
    ensures { (ns : List (List ℕ)) → HasFieldNames ns table
        → HasFieldNames (ns ++ client_value_names public) result }
{
    match public {
        Public::Nothing => table,
        Public::Rsa => table.add("pre_master_secret", blob(alloc, content)),
        Public::Dh => table.add("dh_Yc", blob(alloc, content)),
        Public::Ecdh => table.add("ecdh_Yc", blob(alloc, content)),
    }
}

/// Parses a ClientKeyExchange by the fields of this exchange.
fn client_fields<'a>(
    alloc: Global,
    exchange: KeyExchange,
    version: TlsVersion,
    body: &'a [u8],
) -> Read<'a>
    ensures { IfRead (HasNames (client_key_exchange_names exchange)) result }
{
    let table = Table::new(alloc);
    let (i, table) = with_identity(alloc, table, "psk_identity", exchange, body)?;
    let (i, content) = client_value(version, exchange.public, i)?;
    Some((
        i,
        with_client_value(alloc, table, exchange.public, content).finish(),
    ))
}

/// Parses a ClientKeyExchange (RFC 5246, section 7.4.7; RFC 8422, section 5.7; RFC 4279, sections 2
/// to 4; RFC 5489, section 2). It is empty if the public value is in the client's certificate (RFC
/// 5246, section 7.4.7.2), and then isn't parsed.
pub fn client_key_exchange<'a>(
    alloc: Global,
    negotiated: NegotiatedParameters,
    body: &'a [u8],
) -> Read<'a> {
    let exchange = KeyExchange::of(negotiated.cipher)?;
    client_fields(alloc, exchange, negotiated.version, body)
}
