//! Values that are passed over: they are checked, and nothing of them is kept.

ghost use Rattle.std.specs.Prelude.{◌≡◌, ◌<◌, ◌≤◌, ◌∷◌, None, OnErr, OnOk, length};
ghost use Rattle.json.specs.Json.{items, members, value};
ghost use Rattle.json.specs.Reads.{token_of};
ghost use Rattle.serde_json.specs.Data.{no_members};
ghost use Rattle.serde_json.specs.Read.{converted, of_items, of_json, of_members};
ghost use Rattle.gateway_bodies.specs.Passing.{IsRead};

use crate::numbers::is_in_range;
use json::{Invalid, Reader, Token};

/// Passes over a value that nests no deeper than that. An `Err` where there is none.
#[cycle(pass)]
fn pass_value(reader: &mut Reader<'_>, depth: usize) -> Result<(), Invalid>
    ensures ok { OnOk result (IsRead of_json (value depth reader.old) reader.new) }
    ensures shorter { OnOk result (length reader.new < length reader.old) }
    ensures err { OnErr result (converted of_json (value depth reader.old) ≡ None) }
{
    let token = reader.next().ok_or(Invalid)?;
    pass_rest(reader, token, depth)
}

/// Passes over the rest of a value that begins with a token.
#[cycle(pass)]
pub(crate) fn pass_rest(
    reader: &mut Reader<'_>,
    token: Token<'_>,
    depth: usize,
) -> Result<(), Invalid>
    ensures ok { OnOk result (IsRead of_json (value depth (token_of token.entry ∷ reader.old)) reader.new) }
    ensures shorter { OnOk result (length reader.new ≤ length reader.old) }
    ensures err { OnErr result (converted of_json (value depth (token_of token.entry ∷ reader.old)) ≡ None) }
{
    match token {
        Token::String(_) | Token::Bool(_) | Token::Null => Ok(()),
        Token::Number(number) => {
            if !is_in_range(number) {
                return Err(Invalid);
            }
            Ok(())
        }
        Token::EndObject | Token::EndArray | Token::Key(_) | Token::Bad => Err(Invalid),
        Token::BeginArray => {
            if depth == 0 {
                return Err(Invalid);
            }
            pass_items(reader, depth - 1)
        }
        Token::BeginObject => {
            if depth == 0 {
                return Err(Invalid);
            }
            pass_members(reader, depth - 1)
        }
    }
}

/// Passes over the items of an array and the bracket after them.
#[cycle(pass)]
pub(crate) fn pass_items(reader: &mut Reader<'_>, depth: usize) -> Result<(), Invalid>
    ensures ok { OnOk result (IsRead of_items (items (value depth) (length reader.old) reader.old) reader.new) }
    ensures shorter { OnOk result (length reader.new < length reader.old) }
    ensures err { OnErr result (converted of_items (items (value depth) (length reader.old) reader.old) ≡ None) }
{
    'items: while !reader.take_end_array() {
        pass_value(reader, depth)?;
    }
    Ok(())
}

/// Passes over the members of an object and the brace after them.
#[cycle(pass)]
fn pass_members(reader: &mut Reader<'_>, depth: usize) -> Result<(), Invalid>
    ensures ok { OnOk result (IsRead (λ ms. of_members ms no_members)
        (members (value depth) (length reader.old) reader.old) reader.new) }
    ensures shorter { OnOk result (length reader.new < length reader.old) }
    ensures err { OnErr result (converted (λ ms. of_members ms no_members)
        (members (value depth) (length reader.old) reader.old) ≡ None) }
{
    'members: while let Some(_key) = reader.next_key()? {
        pass_value(reader, depth)?;
    }
    Ok(())
}
