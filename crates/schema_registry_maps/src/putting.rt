//! Values under texts. Generic, so that a proof sees nothing of a value.

ghost use Rattle.std.specs.Prelude.{OnOk, OnErr, string_bytes};
ghost use Rattle.schema_registry_maps.specs.Maps.{AreSame, Puts};

use std::alloc::{AllocError, Global};
use std::collections::BTreeMap;

/// Puts a value under a text.
pub fn put<V: Drop>(map: &mut BTreeMap<String, V>, text: String, value: V) -> Result<(), AllocError>
    ensures ok { OnOk result (Puts map.old map.new (string_bytes text) value) }
    ensures err { OnErr result (AreSame map.old map.new) }
{
    map.insert(text, value)?;
    Ok(())
}

/// Puts a value under a copy of a text.
pub(crate) fn put_copy<V: Drop>(
    alloc: Global,
    map: &mut BTreeMap<String, V>,
    text: &str,
    value: V,
) -> Result<(), AllocError>
    ensures ok { OnOk result (Puts map.old map.new text.now value) }
    ensures err { OnErr result (AreSame map.old map.new) }
{
    put(map, String::from_str(alloc, text)?, value)
}
