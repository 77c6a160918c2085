//! Which versions of a subject a new one is compared with, and which of two reads what the other writes.

ghost use Rattle.std.specs.Prelude.{◌≡◌, true, false, MatchOption};
ghost use Rattle.spec_registry.specs.Comparing.{compared, last_of};

/// Returns all of some ids, or the last of them alone.
pub fn compared(is_transitive: bool, ids: &[u32]) -> &[u32]
    ensures { result.now ≡ compared is_transitive ids.now }
{
    if is_transitive {
        return ids;
    }
    last_of(ids)
}

/// Returns the last of some ids alone; none where there is none.
fn last_of(ids: &[u32]) -> &[u32]
    ensures { result.now ≡ last_of ids.now }
{
    if ids.is_empty() {
        return ids;
    }
    &ids[ids.len() - 1..]
}

/// Returns the older one as writer and the new one as reader, where the new one has to read what the older one wrote;
/// else `None`.
pub fn newer_reads<'a, S>(is_asked: bool, new: &'a S, old: &'a S) -> Option<(&'a S, &'a S)>
    ensures { MatchOption result (is_asked ≡ false)
        (λ p. (is_asked ≡ true) × (p.0.now ≡ old.now) × (p.1.now ≡ new.now)) }
{
    if !is_asked {
        return None;
    }
    Some((old, new))
}

/// Returns the new one as writer and the older one as reader, where the older one has to read what the new one
/// writes; else `None`.
pub fn older_reads<'a, S>(is_asked: bool, new: &'a S, old: &'a S) -> Option<(&'a S, &'a S)>
    ensures { MatchOption result (is_asked ≡ false)
        (λ p. (is_asked ≡ true) × (p.0.now ≡ new.now) × (p.1.now ≡ old.now)) }
{
    if !is_asked {
        return None;
    }
    Some((new, old))
}
