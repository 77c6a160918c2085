//! Values in order, whose indices are kept in maps under their names. Generic, so that a proof sees nothing of a
//! value.

ghost use Rattle.std.specs.Prelude.{◌≡◌, ◌++◌, ◌∷◌, [], length, set, ◌<◌, Some, IfOk, OnErr, OnOk, string_bytes};
ghost use Rattle.std.specs.BTreeMap.{IsUnchanged, UpdatesBy};
ghost use Rattle.std.specs.Cmp.Lexicographic.{slice_cmp};
ghost use Rattle.std.specs.Ordering.{nat_cmp};
ghost use Rattle.std.specs.String.{string_cmp};
ghost use Rattle.avro_schema_names.specs.Index.{HasOnly, HasOnlyScope};

use std::alloc::{AllocError, Global};
use std::collections::BTreeMap;

/// Appends a value, and adds its index to a scope under a name. An `Err` leaves both as they were.
pub(crate) fn add_named<T: Drop>(
    alloc: Global,
    values: &mut Vec<T>,
    scope: &mut BTreeMap<String, usize>,
    name: &str,
    value: T,
) -> Result<(), AllocError>
    ensures values { OnOk result (values.new.items ≡ values.old.items ++ value ∷ []) }
    ensures scope { OnOk result (UpdatesBy string_cmp (λ k. slice_cmp nat_cmp name.now (string_bytes k))
        scope.old scope.new (Some (length values.old.items))) }
    ensures same_values { OnErr result (values.new.items ≡ values.old.items) }
    ensures same_scope { OnErr result (IsUnchanged scope.old scope.new) }
{
    let name = String::from_str(alloc, name)?;
    values.try_reserve(1)?;
    scope.insert(name, values.len())?;
    values.push(value)?;
    Ok(())
}

/// Returns a scope with one name alone.
fn scope_of(alloc: Global, name: &str, number: usize) -> Result<BTreeMap<String, usize>, AllocError>
    ensures { IfOk result (HasOnly name.now number) }
{
    let mut scope = BTreeMap::new(alloc);
    scope.insert(String::from_str(alloc, name)?, number)?;
    Ok(scope)
}

/// The parts of a full name.
#[derive(Clone, Copy)]
pub(crate) struct NameParts<'a> {
    pub(crate) namespace: &'a str,
    pub(crate) last: &'a str,
}

/// Appends a value, and adds its index to a new scope under the last part of a name, and that scope's index to the
/// namespaces under its namespace. An `Err` leaves all three as they were.
pub(crate) fn add_first_named<T: Drop>(
    alloc: Global,
    values: &mut Vec<T>,
    namespaces: &mut BTreeMap<String, usize>,
    scopes: &mut Vec<BTreeMap<String, usize>>,
    name: &NameParts<'_>,
    value: T,
) -> Result<(), AllocError>
    ensures values { OnOk result (values.new.items ≡ values.old.items ++ value ∷ []) }
    ensures namespace { OnOk result (UpdatesBy string_cmp (λ k. slice_cmp nat_cmp name.now.namespace.now
        (string_bytes k)) namespaces.old namespaces.new (Some (length scopes.old.items))) }
    ensures scope { OnOk result (HasOnlyScope name.now.last.now (length values.old.items) scopes.old.items
        scopes.new.items) }
    ensures same_values { OnErr result (values.new.items ≡ values.old.items) }
    ensures same_namespaces { OnErr result (IsUnchanged namespaces.old namespaces.new) }
    ensures same_scopes { OnErr result (scopes.new.items ≡ scopes.old.items) }
{
    let scope = scope_of(alloc, name.last, values.len())?;
    let namespace = String::from_str(alloc, name.namespace)?;
    values.try_reserve(1)?;
    scopes.try_reserve(1)?;
    namespaces.insert(namespace, scopes.len())?;
    scopes.push(scope)?;
    values.push(value)?;
    Ok(())
}

/// Replaces the value at an index.
pub(crate) fn put<T: Drop>(values: &mut Vec<T>, number: usize, value: T)
    requires { number < length values.old.items }
    ensures { values.new.items ≡ set values.old.items number value }
{
    values[number] = value;
}
