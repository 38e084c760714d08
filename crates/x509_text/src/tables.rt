//! The object identifiers that have names.

mod algorithms;
mod curve_sizes;
mod curves;
mod directory_attributes;
mod extensions;
mod further_curves;
mod further_directory_attributes;
mod known_curves;
mod national_algorithms;
mod nist_algorithms;
mod older_curves;
mod other_attributes;
mod purposes;
mod weak_signatures;

pub(crate) use algorithms::ALGORITHMS;
pub(crate) use curve_sizes::CURVE_SIZES;
pub(crate) use curves::CURVES;
pub(crate) use directory_attributes::DIRECTORY_ATTRIBUTES;
pub(crate) use extensions::EXTENSIONS;
pub(crate) use further_curves::FURTHER_CURVES;
pub(crate) use further_directory_attributes::FURTHER_DIRECTORY_ATTRIBUTES;
pub(crate) use known_curves::KNOWN_CURVES;
pub(crate) use national_algorithms::NATIONAL_ALGORITHMS;
pub(crate) use nist_algorithms::NIST_ALGORITHMS;
pub(crate) use older_curves::OLDER_CURVES;
pub(crate) use other_attributes::OTHER_ATTRIBUTES;
pub(crate) use purposes::PURPOSES;
pub(crate) use weak_signatures::{WEAK_HASHES, WEAK_SIGNATURES};

/// An object identifier, and OpenSSL's names for it.
#[derive(Clone, Copy, Debug)]
pub(crate) struct Object {
    /// The content of its element.
    pub(crate) content: &'static [u8],
    /// The short name, such as CN.
    pub(crate) short_name: &'static str,
    /// The long name, such as commonName; often equal to the short one.
    pub(crate) long_name: &'static str,
}

/// The object identifier of an elliptic curve, and the curve's size.
#[derive(Clone, Copy, Debug)]
pub(crate) struct CurveSize {
    /// The content of its element.
    pub(crate) content: &'static [u8],
    /// The bits of the order of the curve's base point.
    pub(crate) bits: u32,
}

/// An elliptic curve that has a name, and its parameters: the contents of their elements.
#[derive(Clone, Copy, Debug)]
pub(crate) struct KnownCurve {
    /// The content of the object identifier.
    pub(crate) content: &'static [u8],
    /// The prime of the field.
    pub(crate) prime: &'static [u8],
    /// The coefficient a.
    pub(crate) a: &'static [u8],
    /// The coefficient b.
    pub(crate) b: &'static [u8],
    /// The base point.
    pub(crate) base: &'static [u8],
    /// The base point in its compressed form.
    pub(crate) compressed: &'static [u8],
    /// The order of the base point.
    pub(crate) order: &'static [u8],
}

/// The rows of a table: the content of an object identifier, its short name and its long name.
macro_rules! objects {
    ($($content:literal $short_name:literal $long_name:literal),*) => {
        &[$(Object { content: $content, short_name: $short_name, long_name: $long_name }),*]
    };
}

/// The object identifier of an algorithm.
#[derive(Clone, Copy, Debug)]
pub(crate) struct Algorithm {
    /// The content of its element.
    pub(crate) content: &'static [u8],
}

/// The rows of a table: the content of an object identifier.
macro_rules! contents {
    ($($content:literal),*) => {
        &[$(Algorithm { content: $content }),*]
    };
}

use contents;
use objects;
