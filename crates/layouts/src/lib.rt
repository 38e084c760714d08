//! Readers of single fields and of lists, the results of parse calls, and what all writers share.
//!
//! The promise: each reader returns the one answer that its layout allows on the bytes. That is the
//! value and the exact rest, the kind of the broken rule, or the exact number of missing bytes.
//! Numbers are big-endian (RFC 8446, section 3.3).
//!
//! - `specs/Layout.antt` defines layouts, the language in which every structure is specified.
//! - `specs/Meaning.antt` defines which answers a layout allows, `specs/Reading.antt` how to
//!   compute the one it allows.
//! - `specs/Answers.antt` defines `Gives` and `GivesOrMemory`, which the contracts of readers name.
//! - `specs/Stable.antt` defines what further bytes can change, `specs/Items.antt` lists that are
//!   parsed while they are walked.
//! - [`laws`] states the theorems about all layouts: exactly one answer is allowed, and reading
//!   gives it.
//! - [`writer`] has the errors of writers, appends to a vector, and the loop over a `Write`.
//!   `specs/Writer.antt` defines what a writer promises.
#![tactic(auto, using(crate::proofs::OneAnswerLemmas::read_allowed))]

mod bytes;
mod in_place;
mod item;
pub mod laws;
mod list;
mod number;
mod parsed;
mod places;
mod result;
mod room;
mod table;
pub mod writer;

pub use bytes::{block, counted1, counted2, counted3, maybe2, rest, tag};
pub use in_place::{InPlace, Items, numbers_in_place, pairs_in_place};
pub use item::{Counted1, Counted2, Item, Number2};
pub use list::{items, items1, numbers, pairs};
pub use number::{Number, number1, number2, number3, number4, number8};
pub use places::Place;
pub use result::{Err, Error, ErrorKind, IResult, Needed, OutOfMemory, refused};
pub use room::{Room, at_most, hops1, hops2};
pub use table::place;
pub use writer::{GenError, write_whole};
