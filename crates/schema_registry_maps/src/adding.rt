//! One more version of a subject, whose text has an id or gets the next one.

ghost use Rattle.std.specs.Prelude.{◌≡◌, ◌≤◌, [], ◌∷◌, ◌++◌, None, IfOk, OnOk, OnErr, string_bytes};
ghost use Rattle.std.specs.BTreeMap.{get_by_text};
ghost use Rattle.schema_registry_maps.specs.declared.limits.TheConstants.{MOST_ID};
ghost use Rattle.schema_registry_maps.specs.Maps.{AreSame, Puts, id_or_next, ids_in, number_of};

use crate::putting::{put, put_copy};
use crate::versions::Versions;
use std::alloc::{AllocError, Global};
use std::collections::BTreeMap;

/// Makes an id the next version of a subject.
fn add_version(
    alloc: Global,
    subjects: &mut BTreeMap<String, Versions>,
    subject: String,
    id: u32,
) -> Result<(), AllocError>
    requires new { number_of id (ids_in (get_by_text subjects.old (string_bytes subject))) ≡ None }
    requires known { id ≤ MOST_ID }
    ensures ok { OnOk result (Puts subjects.old subjects.new (string_bytes subject)
        (ids_in (get_by_text subjects.old (string_bytes subject)) ++ id ∷ [])) }
    ensures err { OnErr result (AreSame subjects.old subjects.new) }
{
    match subjects.get_mut(subject.as_str()) {
        Some(versions) => versions.add(id),
        None => put(subjects, subject, Versions::one(alloc, id)?),
    }
}

/// Puts a new text under an id, and makes the id the next version of a subject.
fn add_text(
    alloc: Global,
    ids: &mut BTreeMap<String, u32>,
    subjects: &mut BTreeMap<String, Versions>,
    subject: String,
    text: &str,
    id: u32,
) -> Result<u32, AllocError>
    requires lacking { get_by_text ids.old text.now ≡ None }
    requires new { number_of id (ids_in (get_by_text subjects.old (string_bytes subject))) ≡ None }
    requires known { id ≤ MOST_ID }
    ensures id { IfOk result (λ given. given ≡ id) }
    ensures ids { OnOk result (Puts ids.old ids.new text.now id) }
    ensures versions { OnOk result (Puts subjects.old subjects.new (string_bytes subject)
        (ids_in (get_by_text subjects.old (string_bytes subject)) ++ id ∷ [])) }
    ensures err { OnErr result (AreSame ids.old ids.new × AreSame subjects.old subjects.new) }
{
    put_copy(alloc, ids, text, id)?;
    match add_version(alloc, subjects, subject, id) {
        Ok(()) => Ok(id),
        Err(error) => {
            ids.remove(text);
            Err(error)
        }
    }
}

/// Makes a text the next version of a subject, under the text's id, which is the next one where the text is new. Where
/// memory is refused, nothing changes.
pub fn add(
    alloc: Global,
    ids: &mut BTreeMap<String, u32>,
    subjects: &mut BTreeMap<String, Versions>,
    count: usize,
    subject: String,
    text: &str,
) -> Result<u32, AllocError>
    requires few { id_or_next ids.old text.now count ≤ MOST_ID }
    requires new { number_of (id_or_next ids.old text.now count)
        (ids_in (get_by_text subjects.old (string_bytes subject))) ≡ None }
    ensures id { IfOk result (λ id. id ≡ id_or_next ids.old text.now count) }
    ensures ids { OnOk result (Puts ids.old ids.new text.now (id_or_next ids.old text.now count)) }
    ensures versions { OnOk result (Puts subjects.old subjects.new (string_bytes subject)
        (ids_in (get_by_text subjects.old (string_bytes subject)) ++ id_or_next ids.old text.now count ∷ [])) }
    ensures err { OnErr result (AreSame ids.old ids.new × AreSame subjects.old subjects.new) }
{
    if let Some(id) = ids.get(text).copied() {
        add_version(alloc, subjects, subject, id)?;
        return Ok(id);
    }
    let id = count as u32 + 1;
    add_text(alloc, ids, subjects, subject, text, id)
}
