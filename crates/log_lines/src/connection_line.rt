//! The line of a connection as a JSON object. Each field is written as soon as it is computed. The
//! text of a list or certificate that was written before is copied from a cache.
ghost use Rattle.std.specs.Prelude.{⊤};

use crate::style::Style;
use log_fields::connection::compute;
use log_fields::context::FieldContext;
use log_fields::fields::{Field, fields};
use log_fields::summary::Summary;
use log_formats::cell::{Cell, TakesCell};
use log_formats::lists::{Numbers, Texts};
use log_formats::objects::{LINE_LEN, Object};
use log_formats::text_cache::TextCache;
use serde::Serialize;
use std::alloc::{AllocError, Global};
use std::cell::RefCell;

/// The length of most lists, and of most certificates' fields, is below this, in bytes.
const PART_LEN: usize = 512;

/// Adds a field to a JSON object, under its name, unless it is missing.
#[derive(Drop)]
struct FieldWriter<'o> {
    alloc: Global,
    line: &'o mut Object,
    place: usize,
    name: &'static str,
    cache: &'o RefCell<TextCache>,
}

impl FieldWriter<'_> {
    /// Returns the text of the field with this value, apart from the line.
    fn field_text<T: Serialize>(&self, value: &T) -> Result<Vec<u8>, AllocError> {
        let mut part = Object::over(self.alloc, Vec::new(self.alloc), PART_LEN)?;
        part.add(self.name, value)?;
        Ok(part.into_fields())
    }

    /// Adds a list: its cached text if there is one.
    fn add_texts(&mut self, texts: &Texts<'_>) -> Result<(), AllocError> {
        if let Ok(cache) = self.cache.try_borrow() {
            if let Some(text) = cache.list(self.place, texts) {
                return self.line.add_fields(self.alloc, text);
            }
        }
        if !texts.are_numbers() {
            return self.line.add(self.name, texts);
        }
        let text = self.field_text(texts)?;
        self.line.add_fields(self.alloc, text.as_slice())?;
        // (without memory for the cache the line is complete all the same)
        if let Ok(mut cache) = self.cache.try_borrow_mut() {
            let _kept = cache.cache_list(self.alloc, self.place, texts, text.as_slice());
        }
        Ok(())
    }

    /// Adds a list of codes: its cached text if there is one.
    fn add_codes(&mut self, codes: &[u8]) -> Result<(), AllocError> {
        if let Ok(cache) = self.cache.try_borrow() {
            if let Some(text) = cache.codes(self.place, codes) {
                return self.line.add_fields(self.alloc, text);
            }
        }
        let text = self.field_text(&Numbers::Codes(codes))?;
        self.line.add_fields(self.alloc, text.as_slice())?;
        if let Ok(mut cache) = self.cache.try_borrow_mut() {
            let _kept = cache.cache_codes(self.alloc, self.place, codes, text.as_slice());
        }
        Ok(())
    }
}

impl<'a> TakesCell<'a> for FieldWriter<'_> {
    // (no clause says yet what the line gets)
    ghost HasTaken = { λ value old new. ⊤ };

    #[inline(always)]
    fn take(&mut self, cell: Option<Cell<'a>>) -> Result<(), AllocError> {
        match &cell {
            Some(Cell::Texts(texts)) => self.add_texts(texts),
            Some(Cell::Numbers(Numbers::Codes(codes))) => self.add_codes(codes),
            Some(cell) => self.line.add(self.name, cell),
            None => Ok(()),
        }
    }

    #[inline(always)]
    fn take_result(
        &mut self,
        cell: Result<Option<Cell<'a>>, AllocError>,
    ) -> Result<(), AllocError> {
        self.take(cell?)
    }
}

/// Adds the field of this name and place.
#[inline(always)]
fn add_field<'a>(
    context: &mut FieldContext<'a>,
    cache: &RefCell<TextCache>,
    place: usize,
    name: &'static str,
    field: &Field,
    line: &mut Object,
) -> Result<(), AllocError> {
    let mut writer = FieldWriter {
        alloc: context.alloc,
        line,
        place,
        name,
        cache,
    };
    compute(context, field, &mut writer)
}

/// Returns the certificate that a field describes, if it was sent.
fn certificate_of_field<'a>(context: &FieldContext<'a>, field: &Field) -> Option<&'a [u8]> {
    match field {
        Field::ServerCertificate(_) => context.handshake.server_certificate.as_deref(),
        Field::ClientCertificate(_) => context.handshake.client_certificate.as_deref(),
        _ => None,
    }
}

/// Returns whether two fields describe the same side's certificate.
fn is_beside(field: &Field, other: &Field) -> bool {
    matches!(
        (field, other),
        (Field::ServerCertificate(_), Field::ServerCertificate(_))
            | (Field::ClientCertificate(_), Field::ClientCertificate(_))
    )
}

/// Returns the first places whose fields describe the same side's certificate as this one.
fn places_beside<'p>(field: &Field, places: &'p [usize]) -> &'p [usize] {
    let same = places.iter().take_while(|place| match fields().get(**place) {
        Some((_, _, other)) => is_beside(field, other),
        None => false,
    });
    let count = same.count();
    places.get(..count).unwrap_or(places)
}

/// Adds the fields of a certificate at these places: their cached text if there is one.
fn add_certificate<'a>(
    context: &mut FieldContext<'a>,
    cache: &RefCell<TextCache>,
    places: &[usize],
    certificate: &[u8],
    line: &mut Object,
) -> Result<(), AllocError> {
    let alloc = context.alloc;
    if let Ok(cache) = cache.try_borrow() {
        if let Some(text) = cache.certificate(places, certificate) {
            return line.add_fields(alloc, text);
        }
    }
    let mut part = Object::over(alloc, Vec::new(alloc), PART_LEN)?;
    for place in places {
        if let Some((name, _, field)) = fields().get(*place) {
            add_field(context, cache, *place, *name, field, &mut part)?;
        }
    }
    let text = part.into_fields();
    line.add_fields(alloc, text.as_slice())?;
    if let Ok(mut cache) = cache.try_borrow_mut() {
        let _kept = cache.cache_certificate(alloc, places, certificate, text.as_slice());
    }
    Ok(())
}

/// Returns the line of a connection, with the fields at these places of [`fields`] except missing
/// ones. It reuses the memory of `room`.
pub fn json_line<'a>(
    alloc: Global,
    style: &'a Style,
    places: &[usize],
    summary: &'a Summary<'a>,
    room: Vec<u8>,
) -> Result<Vec<u8>, AllocError> {
    let mut context = style.context(alloc, summary);
    let mut line = Object::over(alloc, room, LINE_LEN)?;
    // (how many of the places are done)
    let mut count = 0;
    for (at, place) in places.iter().enumerate() {
        let Some((name, _, field)) = fields().get(*place) else {
            continue;
        };
        if at < count {
            continue;
        }
        match certificate_of_field(&context, field) {
            Some(certificate) => {
                let part = places_beside(field, places.get(at..).unwrap_or(&[]));
                count = at.saturating_add(part.len());
                add_certificate(&mut context, &style.texts, part, certificate, &mut line)?;
            }
            None => add_field(&mut context, &style.texts, *place, *name, field, &mut line)?,
        }
    }
    line.into_bytes()
}
