//! Parses DER, the Distinguished Encoding Rules of ASN.1 (X.690), without copying.
//!
//! An element is a tag, a length and a content. [`tagged`] parses one with a given tag, whose whole
//! content another type parses; [`Element`] parses one with any tag. Each call parses the front of
//! bytes and doesn't allocate. It returns what a layout of `specs/` allows: the value and the exact
//! rest, the kind of the broken rule, or the exact count of missing bytes. [`laws`] states that a
//! length and an element have one encoding.
//!
//! Two rules aren't checked: the order of a SET OF, and that a default is left out.
#![tactic(auto, using(layouts::proofs::OneAnswerLemmas::read_allowed))]

mod element;
mod identifier;
pub mod laws;
mod length;
pub mod tag;
mod time;
mod value;

pub use element::{
    AllBytes, Element, ItemsOf, ListOf, element_bytes, optional, optional_element, tagged,
};
pub use identifier::{ArcNumber, Arcs, ObjectIdentifier, object_identifier};
pub use length::der_length;
pub use time::{GeneralizedTime, UtcTime};
pub use value::{BerBoolean, BitString, Boolean, Integer, default_false};
