ghost use Rattle.std.specs.Prelude.{◌≡◌, [], ◌∷◌, MatchOption};
ghost use Rattle.ff_lexer.specs.Bytes as meant;

/// Where a byte stands (ISO/IEC 1539-1:2018, 6.3.2.1).
#[derive(Clone, Copy)]
pub(crate) enum Context {
    /// Outside character constants.
    Code,
    /// In a character constant with this delimiter.
    Constant(u8),
}

pub(crate) fn is_capital(byte: u8) -> bool
    ensures { result ≡ meant.is_capital byte }
{
    b'A' <= byte && byte <= b'Z'
}

pub(crate) fn is_letter(byte: u8) -> bool
    ensures { result ≡ meant.is_letter byte }
{
    (b'a' <= byte && byte <= b'z') || is_capital(byte)
}

pub(crate) fn is_digit(byte: u8) -> bool
    ensures { result ≡ meant.is_digit byte }
{
    b'0' <= byte && byte <= b'9'
}

pub(crate) fn is_name_byte(byte: u8) -> bool
    ensures { result ≡ meant.is_name_byte byte }
{
    is_letter(byte) || is_digit(byte) || byte == b'_'
}

pub(crate) fn is_blank(byte: u8) -> bool
    ensures { result ≡ meant.is_blank byte }
{
    byte == b' ' || byte == b'\t'
}

pub(crate) fn is_quote(byte: u8) -> bool
    ensures { result ≡ meant.is_quote byte }
{
    byte == b'\'' || byte == b'"'
}

pub(crate) fn lowered(byte: u8) -> u8
    ensures { result ≡ meant.lowered byte }
{
    if is_capital(byte) { byte + 32 } else { byte }
}

pub(crate) fn is_code(context: Context) -> bool
    ensures { result ≡ meant.is_code context }
{
    match context {
        Context::Code => true,
        Context::Constant(_) => false,
    }
}

// Where the byte behind this one stands.
pub(crate) fn behind(context: Context, byte: u8) -> Context
    ensures { result ≡ meant.behind context byte }
{
    match context {
        Context::Code => {
            if is_quote(byte) {
                Context::Constant(byte)
            } else {
                Context::Code
            }
        }
        Context::Constant(delimiter) => {
            if byte == delimiter {
                Context::Code
            } else {
                Context::Constant(delimiter)
            }
        }
    }
}

// The first byte, and those behind it.
pub(crate) fn first_of(bytes: &[u8]) -> Option<(u8, &[u8])>
    ensures { MatchOption result (bytes.now ≡ []) (λ parts. bytes.now ≡ parts.0 ∷ parts.1.now) }
{
    match bytes {
        [] => None,
        [first, behind @ ..] => Some((*first, behind)),
    }
}

pub(crate) fn begins_with(bytes: &[u8], byte: u8) -> bool
    ensures { result ≡ meant.begins_with byte bytes.now }
{
    match bytes {
        [] => false,
        [first, ..] => *first == byte,
    }
}

// Whether the byte in front of these is a carriage return that is dropped.
pub(crate) fn is_dropped(byte: u8, bytes: &[u8]) -> bool
    ensures { result ≡ meant.is_dropped byte bytes.now }
{
    byte == b'\r' && begins_with(bytes, b'\n')
}

// Whether nothing but blanks stands on the rest of the line, a comment outside constants aside.
pub(crate) fn ends(context: Context, bytes: &[u8]) -> bool
    ensures { result ≡ meant.ends context bytes.now }
{
    let mut rest = bytes;
    while let [byte, more @ ..] = rest {
        if *byte == b'\n' || is_dropped(*byte, more) {
            return true;
        }
        if !is_blank(*byte) {
            return *byte == b'!' && is_code(context);
        }
        rest = more;
    }
    true
}

// Whether this byte, in front of the others, is an `&` with which its line ends.
pub(crate) fn is_continued(context: Context, byte: u8, bytes: &[u8]) -> bool
    ensures { result ≡ meant.is_continued context byte bytes.now }
{
    byte == b'&' && ends(context, bytes)
}

// Whether a comment begins with this byte.
pub(crate) fn is_comment(context: Context, byte: u8) -> bool
    ensures { result ≡ meant.is_comment context byte }
{
    byte == b'!' && is_code(context)
}
