//! What is set for a subject.

ghost use Rattle.std.specs.Prelude.{◌≡◌, option_map};
ghost use Rattle.schema_registry_maps.specs.Maps.{set_for};

use std::collections::BTreeMap;

/// Returns what is set for a subject, which is its own or else the global one; without a subject the global one.
pub fn set_for<L: Copy>(own: &BTreeMap<String, L>, global: L, subject: Option<&str>) -> L
    ensures { result ≡ set_for own.now global (option_map (λ s. s.now) subject.entry) }
{
    match subject {
        Some(subject) => own.get(subject).copied().unwrap_or(global),
        None => global,
    }
}
