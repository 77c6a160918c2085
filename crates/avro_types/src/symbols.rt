//! The symbols of an enum, found by their texts.

ghost use Rattle.std.specs.Prelude.{◌≡◌, ◌<◌, length, map, is_some, option_map, slice_get, string_bytes, IfOk, IfSome};
ghost use Rattle.spec_avro.specs.Symbols.{are_distinct, place_of};

use std::alloc::{AllocError, Global};
use std::collections::BTreeMap;
use std::marker::Model;

/// The symbols of an enum, each of which is found by its text (Avro 1.11, "Enums"). Callers see them as their texts.
#[derive(Debug, Drop)]
pub struct Symbols {
    texts: Vec<String>,
    positions: BTreeMap<String, usize>,
}

impl Model for Symbols {
    ghost use Rattle.std.specs.Prelude.{ℕ, List, map, string_bytes};
    ghost use Rattle.avro_types.specs.Symbols.{ArePositionsOf};

    ghost Value = { List (List ℕ) };

    ghost view = { λ s. map string_bytes s.texts.items };

    ghost invariant = { λ s. ArePositionsOf s.positions s.texts.items };
}

impl Symbols {
    /// Returns texts as symbols, in their order; `None` where a text occurs twice.
    pub fn of_texts(alloc: Global, texts: Vec<String>) -> Result<Option<Symbols>, AllocError>
        ensures distinct { IfOk result (λ o. is_some o ≡ are_distinct (map string_bytes texts.items)) }
        ensures same { IfOk result (λ o. IfSome o (λ symbols. symbols ≡ map string_bytes texts.items)) }
    {
        let mut positions = BTreeMap::new(alloc);
        for position in 0..texts.len() {
            let text = texts[position].clone()?;
            if positions.insert(text, position)?.is_some() {
                return Ok(None);
            }
        }
        Ok(Some(Symbols { texts, positions }))
    }

    /// Returns the number of symbols.
    pub fn len(&self) -> usize
        ensures { result ≡ length self.now }
    {
        self.texts.len()
    }

    /// Returns the symbol at a position; `None` where there is none.
    pub fn get(&self, position: usize) -> Option<&str>
        ensures { option_map (λ text. text.now) result ≡ slice_get self.now position }
    {
        match self.texts.get(position) {
            Some(text) => Some(text.as_str()),
            None => None,
        }
    }

    /// Returns the position of a symbol; `None` where a text is no symbol of the enum.
    pub fn position_of(&self, text: &str) -> Option<usize>
        ensures place { result ≡ place_of text.now self.now }
        ensures within { IfSome result (λ n. n < length self.now) }
    {
        self.positions.get(text).copied()
    }

    /// Returns their texts, in order.
    pub fn as_slice(&self) -> &[String]
        ensures { map string_bytes result.now ≡ self.now }
    {
        self.texts.as_slice()
    }
}
