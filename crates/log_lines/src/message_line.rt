//! The line of a message.
use log_fields::columns::{MessageField, message_fields};
use log_fields::connection::identity_cell;
use log_fields::context::Moment;
use log_fields::names::sender_name;
use log_fields::summary::Summary;
use log_formats::cell::{Cell, Row};
use log_formats::objects::{LINE_LEN, json_text};
use log_formats::text::{name_cell, some_name};
use log_messages::{MessageJson, SentMessage};
use std::alloc::{AllocError, Global};

/// Returns a message's fields as JSON.
fn json_cell(
    alloc: Global,
    json: &Option<Box<MessageJson>>,
) -> Result<Option<Cell<'static>>, AllocError> {
    match json {
        Some(json) => Ok(Some(Cell::Json(json_text(alloc, json, LINE_LEN)?))),
        None => Ok(None),
    }
}

/// Returns a field of a message that was completed at this moment.
fn message_cell(
    moment: Moment<'_>,
    sent: &SentMessage,
    field: &MessageField,
) -> Result<Option<Cell<'static>>, AllocError> {
    match field {
        MessageField::Identity(field) => identity_cell(moment, field),
        MessageField::Side => Ok(Some(name_cell(sender_name(sent.direction)))),
        MessageField::Place => Ok(Some(Cell::Number(sent.place))),
        MessageField::ContentType => Ok(Some(Cell::Number(u64::from(sent.message.content_type.0)))),
        MessageField::Name => Ok(some_name(sent.message.name)),
        MessageField::Message => json_cell(moment.alloc, &sent.message.json),
    }
}

/// Returns the line of a message that was completed at this moment, with the fields at these places
/// of [`message_fields`].
pub fn message_row(
    alloc: Global,
    places: &[usize],
    summary: &Summary<'_>,
    time: u64,
    sent: SentMessage,
) -> Result<Row<'static>, AllocError> {
    let moment = Moment {
        alloc,
        summary,
        time,
    };
    let mut cells = Vec::with_capacity(alloc, places.len())?;
    for place in places {
        if let Some((name, _, field)) = message_fields().get(*place) {
            let cell = message_cell(moment, &sent, field)?;
            cells.push((*name, cell))?;
        }
    }
    Ok(Row { cells })
}
