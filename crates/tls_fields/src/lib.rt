//! Re-exports the public names of `layouts` and its definitions, under this crate's name. It
//! defines nothing itself, and the promises are those of `layouts`.
#![tactic(auto)]

pub use layouts::{
    Counted1, Counted2, Err, Error, ErrorKind, GenError, IResult, InPlace, Item, Items, Needed,
    Number, Number2, OutOfMemory, Place, Room, at_most, block, counted1, counted2, counted3, hops1,
    hops2, items, items1, laws, maybe2, number1, number2, number3, number4, number8, numbers,
    numbers_in_place, pairs, pairs_in_place, place, refused, rest, tag, write_whole, writer,
};
