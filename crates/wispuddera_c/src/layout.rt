//! The sizes and field offsets of the structs, so that a caller can check how its compiler lays out
//! the header.
ghost use Rattle.std.specs.Prelude.{◌≡◌, [], slice_get};
ghost use Rattle.std.specs.Option.{unwrap_or};
ghost use Rattle.wispuddera_c.specs.Layout.{field_offsets as offsets_of_structs, offset_of_field, size_of_struct};

use crate::certificate::{X509, X509Extension};
use crate::client_hello::ClientHello;
use crate::content::EventContent;
use crate::conversation::Conversation;
use crate::course::{Course, Stop};
use crate::dtls::{DtlsClientHello, DtlsMessage, DtlsRecord};
use crate::flow::Flow;
use crate::found::Found;
use crate::number::Number;
use crate::outcome::Event;
use crate::part::Part;
use crate::place::Place;
use crate::record::Record;
use crate::server_hello::ServerHello;
use crate::side::Side;
use std::mem::size_of;

/// The size of the struct at this index of the header's list, in bytes; 0 past its end.
#[unsafe(no_mangle)]
pub extern "C" fn wispuddera_struct_size(index: usize) -> usize
    ensures { result ≡ size_of_struct index }
{
    match index {
        0 => size_of::<Place>(),
        1 => size_of::<Record>(),
        2 => size_of::<Part>(),
        3 => size_of::<ClientHello>(),
        4 => size_of::<ServerHello>(),
        5 => size_of::<Found>(),
        6 => size_of::<Number>(),
        7 => size_of::<DtlsRecord>(),
        8 => size_of::<DtlsMessage>(),
        9 => size_of::<DtlsClientHello>(),
        10 => size_of::<Event>(),
        11 => size_of::<Flow>(),
        12 => size_of::<X509>(),
        13 => size_of::<X509Extension>(),
        14 => size_of::<EventContent>(),
        15 => size_of::<Stop>(),
        16 => size_of::<Side>(),
        17 => size_of::<Course>(),
        18 => size_of::<Conversation>(),
        _ => 0,
    }
}

/// The field offsets of a struct, in the header's order.
fn field_offsets(index: usize) -> &'static [usize]
    ensures { result.now ≡ unwrap_or (slice_get offsets_of_structs index) [] }
{
    match index {
        0 => &[0, 8],
        1 => &[0, 8, 24, 32, 34, 36],
        2 => &[0, 8, 24, 32],
        3 => &[0, 8, 24, 40, 56, 72, 88, 96, 98],
        4 => &[0, 8, 24, 40, 56, 64, 66, 68, 69],
        5 => &[0, 8],
        6 => &[0, 8, 16],
        7 => &[0, 8, 24, 32, 40, 42, 44, 46],
        8 => &[0, 8, 24, 32, 36, 40, 44, 46, 47],
        9 => &[0, 8, 24, 40, 56, 72, 88, 104, 112, 114],
        10 => &[0, 1],
        11 => &[0],
        12 => &[
            0, 8, 24, 40, 56, 72, 88, 104, 120, 136, 152, 168, 176, 184, 192, 196, 197,
        ],
        13 => &[0, 8, 24, 40, 48],
        14 => &[0, 16, 20, 21],
        15 => &[0, 8, 10, 11],
        16 => &[0, 8, 16, 24, 32, 33, 34],
        17 => &[0, 8, 24],
        18 => &[0, 40, 80, 88, 120, 121],
        _ => &[],
    }
}

/// The offset of a field, in the struct at this index of the header's list; past the last field,
/// the size of the struct.
#[unsafe(no_mangle)]
pub extern "C" fn wispuddera_field_offset(index: usize, field: usize) -> usize
    ensures { result ≡ offset_of_field index field }
{
    match field_offsets(index).get(field) {
        Some(offset) => *offset,
        None => wispuddera_struct_size(index),
    }
}
