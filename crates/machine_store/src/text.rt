//! What is known of a text that moves: the bytes of a cut character.

ghost use Rattle.std.specs.Prelude.{◌≡◌, ◌≤◌, ◌-◌, length, take, drop, true, []};
ghost use Rattle.std.specs.Str.{is_utf8};

/// The bytes of a cut character, or none.
#[derive(Clone, Copy)]
pub struct Carry {
    pub(crate) bytes: [u8; 3],
    pub(crate) len: usize,
    ghost short: { len ≤ 3 },
}

/// What is known of a content that moves.
#[derive(Clone, Copy)]
pub enum TextCheck {
    /// It need not be UTF-8.
    Unasked,
    /// It is no UTF-8, whatever follows.
    Broken,
    /// It is UTF-8 except for the bytes of a character that is cut.
    Cut(Carry),
}

impl Carry {
    ghost use Rattle.machine_store.specs.Text.{Cut, EndsIn, IsCheck, check_of, is_asked};

    /// Returns no bytes.
    fn none() -> Carry
        ensures { result.len ≡ 0 }
    {
        Carry {
            bytes: [0; 3],
            len: 0,
        }
    }

    /// Returns these bytes, at most 3.
    fn of(bytes: &[u8]) -> Carry
        requires { length bytes.now ≤ 3 }
        ensures { take result.len result.bytes ≡ bytes.now }
    {
        let mut cut = [0; 3];
        cut[..bytes.len()].copy_from_slice(bytes);
        Carry {
            bytes: cut,
            len: bytes.len(),
        }
    }

    /// Returns what is known once the bytes up to offset `to` have passed too, where these are the last bytes up to
    /// offset `pos`, of a content that begins at offset `from`. `from` is read by the clauses alone.
    fn pass(self, input: &[u8], from: usize, pos: usize, to: usize) -> TextCheck
        requires begun { from ≤ pos }
        requires order { pos ≤ to }
        requires within { to ≤ length input.now }
        requires known { EndsIn (take self.len self.bytes) (take (pos - from) (drop from input.now)) }
        ensures asked { is_asked (check_of result) ≡ true }
        ensures check { IsCheck (check_of result) (take (to - from) (drop from input.now)) }
    {
        let bytes = &input[pos - self.len..to];
        let Err(error) = simdutf8::compat::from_utf8(bytes) else {
            return TextCheck::empty();
        };
        if error.error_len().is_some() {
            return TextCheck::Broken;
        }
        TextCheck::Cut(Carry::of(&bytes[error.valid_up_to()..]))
    }
}

impl TextCheck {
    ghost use Rattle.machine_store.specs.Text.{Cut, IsCheck, carry_of, check_of, is_asked};

    /// Returns what is known of a text of which nothing has passed.
    pub fn empty() -> TextCheck
        ensures empty { check_of result ≡ Cut [] }
        ensures begins { IsCheck (check_of result) [] }
    {
        TextCheck::Cut(Carry::none())
    }

    /// Returns the bytes of a cut character, or none.
    pub fn carry(&self) -> &[u8]
        ensures { result.now ≡ carry_of (check_of self.now) }
    {
        match self {
            TextCheck::Cut(carry) => &carry.bytes[..carry.len],
            _ => &[],
        }
    }

    /// Returns what is known once the bytes up to offset `to` have passed too, where this is known up to offset
    /// `pos`, of a content that begins at offset `from`.
    pub fn pass(self, input: &[u8], from: usize, pos: usize, to: usize) -> TextCheck
        requires begun { from ≤ pos }
        requires order { pos ≤ to }
        requires within { to ≤ length input.now }
        requires known { IsCheck (check_of self) (take (pos - from) (drop from input.now)) }
        ensures asked { is_asked (check_of result) ≡ is_asked (check_of self) }
        ensures check { IsCheck (check_of result) (take (to - from) (drop from input.now)) }
    {
        match self {
            TextCheck::Cut(carry) => carry.pass(input, from, pos, to),
            _ => self,
        }
    }

    /// Returns whether a whole content is UTF-8, whose last bytes are those between offsets `pos` and `to`. This is
    /// known of it up to `pos`; it begins at `from`.
    pub fn is_text(self, input: &[u8], from: usize, pos: usize, to: usize) -> bool
        requires begun { from ≤ pos }
        requires order { pos ≤ to }
        requires within { to ≤ length input.now }
        requires asked { is_asked (check_of self) ≡ true }
        requires known { IsCheck (check_of self) (take (pos - from) (drop from input.now)) }
        ensures { result ≡ is_utf8 (take (to - from) (drop from input.now)) }
    {
        match self.pass(input, from, pos, to) {
            TextCheck::Cut(carry) => carry.len == 0,
            _ => false,
        }
    }
}
