//! How names are spelled.
ghost use Rattle.std.specs.Prelude.{◌≡◌, ◌↔◌, IsTrue};
ghost use Rattle.std.specs.List.{list_all};
ghost use Rattle.mls_base.specs.Spelling.{IsName, is_lower, is_name_byte, begins_lower, is_spelled, is_reserved};

/// Whether the bytes are a name: a letter `a` to `z` and then letters, digits and `_`, and no reserved word.
pub fn is_name(bytes: &[u8]) -> bool
    ensures { IsTrue result ↔ IsName bytes.now }
{
    is_spelled(bytes) && !is_reserved(bytes)
}

/// Whether the bytes are a small letter and then letters, digits and `_`, as those of a name or a reserved word.
pub fn is_spelled(bytes: &[u8]) -> bool
    ensures { result ≡ is_spelled bytes.now }
{
    begins_lower(bytes) && are_name_bytes(bytes)
}

// Whether each byte is a letter, a digit or `_`.
fn are_name_bytes(bytes: &[u8]) -> bool
    ensures { result ≡ list_all is_name_byte bytes.now }
{
    bytes.iter().all(|byte| is_name_byte(*byte))
}

// Whether the first byte is a letter `a` to `z`.
fn begins_lower(bytes: &[u8]) -> bool
    ensures { result ≡ begins_lower bytes.now }
{
    match bytes {
        [] => false,
        [first, ..] => is_lower(*first),
    }
}

/// Whether the byte is a letter `a` to `z`, with which each name begins.
pub fn is_lower(byte: u8) -> bool
    ensures { result ≡ is_lower byte }
{
    b'a' <= byte && byte <= b'z'
}

/// Whether the byte is a letter, a digit or `_`.
pub fn is_name_byte(byte: u8) -> bool
    ensures { result ≡ is_name_byte byte }
{
    is_lower(byte)
        || (b'A' <= byte && byte <= b'Z')
        || (b'0' <= byte && byte <= b'9')
        || byte == b'_'
}

/// Whether the bytes are one of the eighteen reserved words.
#[tactic(auto, unfolding(crate::specs::Spelling::is_reserved))]
pub fn is_reserved(bytes: &[u8]) -> bool
    ensures { result ≡ is_reserved bytes.now }
{
    match bytes {
        b"and" => true,
        b"bool" => true,
        b"bot" => true,
        b"else" => true,
        b"false" => true,
        b"format" => true,
        b"fun" => true,
        b"if" => true,
        b"import" => true,
        b"in" => true,
        b"int" => true,
        b"let" => true,
        b"rec" => true,
        b"then" => true,
        b"top" => true,
        b"true" => true,
        b"type" => true,
        b"val" => true,
        _ => false,
    }
}
