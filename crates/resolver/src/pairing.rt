//! Which fields of two records are partners.

ghost use Rattle.std.specs.Prelude.{◌≡◌, ◌<◌, length, map, position, string_bytes, IfOk, IfSome};
ghost use Rattle.avro_types.specs.Node.{field_of, fields_of};
ghost use Rattle.spec_avro.specs.Symbols.{place_of};
ghost use Rattle.resolver.specs.Partners.{is_named};
ghost use Rattle.spec_avro.specs.Partners.{by_alias, by_name, field_names, first_free, partner_at, partners, route_of, routes};

use avro_types::{Field, Symbols};
pub use spec_avro::{Partner, Route};
use std::alloc::{AllocError, Global};

/// Up to this many names are compared one by one.
const FEW: usize = 16;

/// Returns the names of fields as a table, where there are more than `FEW`.
fn table(alloc: Global, fields: &[Field]) -> Result<Option<Symbols>, AllocError>
    ensures { IfOk result (λ o. IfSome o (λ names. names ≡ field_names (fields_of fields.now))) }
{
    if fields.len() <= FEW {
        return Ok(None);
    }
    let mut names = Vec::new(alloc);
    for field in fields {
        let name = field.name.clone()?;
        names.push(name)?;
    }
    Symbols::of_texts(alloc, names)
}

/// Returns the index of the field with a name, found by comparing one by one.
fn scan(fields: &[Field], name: &str) -> Option<usize>
    ensures { result ≡ position (is_named name.now) fields.now }
{
    fields.iter().position(|field| field.name.as_str() == name)
}

/// Returns the index of the field with a name; `None` where no field has it.
fn position_of(fields: &[Field], table: &Option<Symbols>, name: &str) -> Option<usize>
    requires { IfSome table.now (λ names. names ≡ field_names (fields_of fields.now)) }
    ensures place { result ≡ place_of name.now (field_names (fields_of fields.now)) }
    ensures within { IfSome result (λ i. i < length fields.now) }
{
    match table {
        Some(names) => names.position_of(name),
        None => scan(fields, name),
    }
}

/// Returns for each of the writer's fields the index of the reader's field with the same name.
fn by_name(alloc: Global, ws: &[Field], rs: &[Field]) -> Result<Vec<Option<usize>>, AllocError>
    ensures { IfOk result (λ v. v.items ≡ by_name (fields_of ws.now) (fields_of rs.now)) }
{
    let table = table(alloc, rs)?;
    let mut partners = Vec::new(alloc);
    for field in ws {
        partners.push(position_of(rs, &table, &field.name))?;
    }
    Ok(partners)
}

/// Returns the index of the writer's field that the first of these aliases names whose field has no partner.
fn first_free(
    ws: &[Field],
    table: &Option<Symbols>,
    partners: &[Option<usize>],
    aliases: &[String],
) -> Option<usize>
    requires table { IfSome table.now (λ names. names ≡ field_names (fields_of ws.now)) }
    requires each { length partners.now ≡ length ws.now }
    ensures place { result ≡ first_free (field_names (fields_of ws.now)) partners.now (map string_bytes aliases.now) }
    ensures within { IfSome result (λ i. i < length ws.now) }
{
    for alias in aliases {
        if let Some(place) = position_of(ws, table, alias) {
            if partners[place].is_none() {
                return Some(place);
            }
        }
    }
    None
}

/// Returns the index of the writer's field that a reader's field takes by an alias, where no field has its name.
fn by_alias(
    ws: &[Field],
    table: &Option<Symbols>,
    partners: &[Option<usize>],
    field: &Field,
) -> Option<usize>
    requires table { IfSome table.now (λ names. names ≡ field_names (fields_of ws.now)) }
    requires each { length partners.now ≡ length ws.now }
    ensures place { result ≡ by_alias (field_names (fields_of ws.now)) partners.now (field_of field.now) }
    ensures within { IfSome result (λ i. i < length ws.now) }
{
    if field.aliases.is_empty() {
        return None;
    }
    match position_of(ws, table, &field.name) {
        Some(_) => None,
        None => first_free(ws, table, partners, &field.aliases),
    }
}

/// Returns the names of the writer's fields as a table, where there are more than `FEW` and the reader's fields have
/// aliases.
fn table_for(alloc: Global, ws: &[Field], rs: &[Field]) -> Result<Option<Symbols>, AllocError>
    ensures { IfOk result (λ o. IfSome o (λ names. names ≡ field_names (fields_of ws.now))) }
{
    if rs.iter().all(|field| field.aliases.is_empty()) {
        return Ok(None);
    }
    table(alloc, ws)
}

/// Returns for each of the writer's fields the index of its partner among the reader's: by name, and then by an alias.
pub fn partners(
    alloc: Global,
    writer_fields: &[Field],
    reader_fields: &[Field],
) -> Result<Vec<Option<usize>>, AllocError>
    ensures { IfOk result (λ v. v.items ≡ partners (fields_of writer_fields.now) (fields_of reader_fields.now)) }
{
    let mut partners = by_name(alloc, writer_fields, reader_fields)?;
    let table = table_for(alloc, writer_fields, reader_fields)?;
    for (position, field) in reader_fields.iter().enumerate() {
        if let Some(place) = by_alias(writer_fields, &table, &partners, field) {
            partners[place] = Some(position);
        }
    }
    Ok(partners)
}

/// Returns where a writer's field goes whose partner is at an index.
fn route_of(rs: &[Field], field: &Field, partner: Option<usize>) -> Route
    ensures { result ≡ route_of (fields_of rs.now) (field_of field.now) partner }
{
    let partner = match partner {
        Some(position) => partner_at(rs, position),
        None => None,
    };
    Route {
        node: field.node,
        partner,
    }
}

/// Returns the reader's field at an index, as a partner; `None` where there is none.
fn partner_at(rs: &[Field], position: usize) -> Option<Partner>
    ensures { result ≡ partner_at (fields_of rs.now) position }
{
    match rs.get(position) {
        Some(field) => Some(Partner {
            position,
            node: field.node,
        }),
        None => None,
    }
}

/// Returns where each of the writer's fields goes.
pub fn routes(
    alloc: Global,
    writer_fields: &[Field],
    reader_fields: &[Field],
) -> Result<Vec<Route>, AllocError>
    ensures { IfOk result (λ v. v.items ≡ routes (fields_of writer_fields.now) (fields_of reader_fields.now)) }
{
    let partners = partners(alloc, writer_fields, reader_fields)?;
    let mut routes = Vec::new(alloc);
    for (field, partner) in writer_fields.iter().zip(&partners) {
        routes.push(route_of(reader_fields, field, *partner))?;
    }
    Ok(routes)
}
