//! Which fields of two records go together, and which lack.

ghost use Rattle.std.specs.Prelude.{◌≡◌, ◌<◌, ℕ, false, length, slice_get, slice_index_or, IfOk, IfSome, option_map};
ghost use Rattle.avro_types.specs.Datum.{data_of, datum_of};
ghost use Rattle.avro_types.specs.Node.{field_of, fields_of};
ghost use Rattle.spec_avro.specs.Options.{or_else};
ghost use Rattle.spec_avro.specs.Partners.{has_partner};
ghost use Rattle.spec_avro.specs.Resolution.{field_lists, filled, lacking_from, no_slots};
ghost use Rattle.resolver.specs.Steps.{AreFields, both_lists, kept, slots_of};

use crate::Route;
use avro_types::{Datum, Field, Kind, Nodes};
use std::alloc::{AllocError, Global};

/// Returns the fields of two records, the writer's first; `None` where one of the nodes is no record.
pub fn field_lists<'a, 'b>(
    writer: &'a Nodes,
    writer_node: usize,
    reader: &'b Nodes,
    reader_node: usize,
) -> Option<(&'a [Field], &'b [Field])>
    requires writer { writer_node < length writer.now }
    requires reader { reader_node < length reader.now }
    ensures lists { option_map both_lists result
        ≡ field_lists (slice_get writer.now writer_node) (slice_get reader.now reader_node) }
    ensures writer { IfSome result (λ p. AreFields (length writer.now) (fields_of p.0.now)) }
    ensures reader { IfSome result (λ p. AreFields (length reader.now) (fields_of p.1.now)) }
{
    writer.is_well_formed(); // law
    reader.is_well_formed(); // law
    match (writer.kind(writer_node), reader.kind(reader_node)) {
        (Kind::Record { fields: ws, .. }, Kind::Record { fields: rs, .. }) => {
            Some((ws.as_slice(), rs.as_slice()))
        }
        _ => None,
    }
}

/// Returns for each of the reader's fields whether it has a partner.
fn have_partners(alloc: Global, routes: &[Route], rs: &[Field]) -> Result<Vec<bool>, AllocError>
    ensures each { IfOk result (λ v. length v.items ≡ length rs.now) }
    ensures mark { IfOk result (λ v. (j : ℕ) → j < length rs.now →
        slice_index_or v.items j false ≡ has_partner j routes.now) }
{
    let mut marks = vec![in alloc; false; rs.len()]?;
    for route in routes {
        if let Some(partner) = route.partner {
            if partner.position < marks.len() {
                marks[partner.position] = true;
            }
        }
    }
    Ok(marks)
}

/// Returns the first of the reader's fields that has neither a partner nor a default, if there is one.
pub fn first_lacking<'a>(
    alloc: Global,
    routes: &[Route],
    reader_fields: &'a [Field],
) -> Result<Option<&'a Field>, AllocError>
    ensures { IfOk result
        (λ o. option_map (λ g. field_of g.now) o ≡ lacking_from routes.now 0 (fields_of reader_fields.now)) }
{
    let marks = have_partners(alloc, routes, reader_fields)?;
    for (position, field) in reader_fields.iter().enumerate() {
        if !marks[position] && field.default.is_none() {
            return Ok(Some(field));
        }
    }
    Ok(None)
}

/// Returns an empty slot for each field.
pub(crate) fn empty_slots(alloc: Global, fields: &[Field]) -> Result<Vec<Option<Datum>>, AllocError>
    ensures none { IfOk result (λ v. slots_of v.items ≡ no_slots (fields_of fields.now)) }
    ensures each { IfOk result (λ v. length v.items ≡ length fields.now) }
{
    let mut slots = Vec::new(alloc);
    for _field in fields {
        slots.push(None)?;
    }
    Ok(slots)
}

/// Returns the slots with a value in the slot at the index that comes with it; all unchanged where there is no value.
pub(crate) fn keep(slots: Vec<Option<Datum>>, value: Option<(usize, Datum)>) -> Vec<Option<Datum>>
    requires { IfSome value (λ p. p.0 < length slots.items) }
    ensures { result.items ≡ kept value slots.items }
{
    let mut slots = slots;
    if let Some((place, datum)) = value {
        slots[place] = Some(datum);
    }
    slots
}

/// Returns what a slot holds, or else a copy of the field's default, if it has one.
fn or_default(
    alloc: Global,
    slot: Option<Datum>,
    field: &Field,
) -> Result<Option<Datum>, AllocError>
    ensures { IfOk result (λ o. option_map datum_of o
        ≡ or_else (option_map datum_of slot) (field_of field.now).default) }
{
    match slot {
        Some(datum) => Ok(Some(datum)),
        None => match &field.default {
            Some(default) => {
                let datum = default.copy(alloc)?;
                Ok(Some(datum))
            }
            None => Ok(None),
        },
    }
}

/// Returns what the slots hold, in order, with copies of the fields' defaults in place of empty slots.
pub(crate) fn fill(
    alloc: Global,
    fields: &[Field],
    slots: Vec<Option<Datum>>,
) -> Result<Vec<Datum>, AllocError>
    ensures { IfOk result (λ v. data_of v.items ≡ filled (fields_of fields.now) (slots_of slots.items)) }
{
    let mut data = Vec::new(alloc);
    for (field, slot) in fields.iter().zip(slots) {
        let value = or_default(alloc, slot, field)?;
        if let Some(datum) = value {
            data.push(datum)?;
        }
    }
    Ok(data)
}
