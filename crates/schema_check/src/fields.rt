//! Which of a reader's fields lack (Avro 1.11 Specification, "Schema Resolution").

ghost use Rattle.std.specs.Prelude.{◌≡◌, ◌<◌, ℕ, false, length, slice_get, slice_index_or, IfOk};
ghost use Rattle.avro_types.specs.Node.{fields_of};
ghost use Rattle.spec_avro.specs.Partners.{has_partner};
ghost use Rattle.schema_check.specs.Details.{all_lacking, lacking_positions};

use avro_types::{Field, Nodes};
use resolver::{Route, field_lists, routes};
use std::alloc::{AllocError, Global};

/// Returns for each of the reader's fields whether it has a partner.
fn have_partners(alloc: Global, routes: &[Route], rs: &[Field]) -> Result<Vec<bool>, AllocError>
    ensures each { IfOk result (λ v. length v.items ≡ length rs.now) }
    ensures mark { IfOk result (λ v. (j : ℕ) → j < length rs.now →
        slice_index_or v.items j false ≡ has_partner j routes.now) }
{
    let mut marks = vec![in alloc; false; rs.len()]?;
    for route in routes {
        if let Some(partner) = route.partner {
            if partner.position < marks.len() {
                marks[partner.position] = true;
            }
        }
    }
    Ok(marks)
}

/// Returns the positions of the reader's fields that have neither a partner nor a default.
fn lacking_positions(
    alloc: Global,
    routes: &[Route],
    rs: &[Field],
) -> Result<Vec<usize>, AllocError>
    ensures { IfOk result (λ v. v.items ≡ lacking_positions routes.now 0 (fields_of rs.now)) }
{
    let marks = have_partners(alloc, routes, rs)?;
    let mut lacking = Vec::new(alloc);
    for (position, field) in rs.iter().enumerate() {
        if !marks[position] && field.default.is_none() {
            lacking.push(position)?;
        }
    }
    Ok(lacking)
}

/// Returns the positions of all fields of the reader's record that have neither a partner nor a default; none where
/// either node is no record. Of a pair that is bad by `NoDefault` these are what it is bad for.
pub fn all_lacking(
    alloc: Global,
    writer: &Nodes,
    writer_node: usize,
    reader: &Nodes,
    reader_node: usize,
) -> Result<Vec<usize>, AllocError>
    requires writer { writer_node < length writer.now }
    requires reader { reader_node < length reader.now }
    ensures { IfOk result (λ v. v.items
        ≡ all_lacking (slice_get writer.now writer_node) (slice_get reader.now reader_node)) }
{
    let Some((ws, rs)) = field_lists(writer, writer_node, reader, reader_node) else {
        return Ok(Vec::new(alloc));
    };
    let routes = routes(alloc, ws, rs)?;
    let lacking = lacking_positions(alloc, &routes, rs)?;
    Ok(lacking)
}
