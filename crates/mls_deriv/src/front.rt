//! What stands at the front of a text.
ghost use Rattle.std.specs.Prelude.{◌≡◌, ◌++◌, ◌∷◌, MatchOption};
ghost use Rattle.mls_deriv.specs.Texts.{IsOneLine};
ghost use Rattle.mls_deriv.specs.BadLines.{Begins};
ghost use Rattle.mls_deriv.specs.inner.Readings.{IsOneWord};

use memchr::memchr;

/// The first line or word of a text, without the newline or the space, and what stands behind that.
#[derive(Clone, Copy)]
pub struct Front<'a> {
    pub line: &'a [u8],
    pub rest: &'a [u8],
}

/// The first line of the text, if it ends with a newline.
pub fn front_of(text: &[u8]) -> Option<Front<'_>>
    ensures { MatchOption result (IsOneLine text.now) (λ front. IsOneLine front.line.now
        × (text.now ≡ front.line.now ++ 10 ∷ front.rest.now)) }
{
    let end = memchr(b'\n', text)?;
    Some(Front {
        line: &text[..end],
        rest: &text[end + 1..],
    })
}

/// The first word of the text, if a space stands behind it.
pub fn word_of(text: &[u8]) -> Option<Front<'_>>
    ensures { MatchOption result (IsOneWord text.now) (λ front. IsOneWord front.line.now
        × (text.now ≡ front.line.now ++ 32 ∷ front.rest.now)) }
{
    let end = text.iter().position(|byte| *byte == b' ')?;
    Some(Front {
        line: &text[..end],
        rest: &text[end + 1..],
    })
}

/// What stands behind the piece, if the text begins with it.
pub fn behind<'a>(text: &'a [u8], piece: &[u8]) -> Option<&'a [u8]>
    ensures { MatchOption result (Begins text.now piece.now → ⊥) (λ rest. text.now ≡ piece.now ++ rest.now) }
{
    text.strip_prefix(piece)
}
