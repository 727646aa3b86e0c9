//! Tokens, blanks, quoted strings and separators of header fields.

ghost use Rattle.std.specs.Prelude.{◌≡◌, ◌≤◌, ◌∷◌, length};
ghost use Rattle.std.specs.Str.{str_eq_ignore_ascii_case};
ghost use Rattle.media_map.specs.Texts.{is_tchar, is_token, is_blank, trim_start as start_of, trim_end as end_of, trim as trimmed, step_if, is_plain as plain, pieces, cut_from, behind, is_text as text_byte, closes, is_quoted as quoted};

/// Where a reader stands in a text with quoted strings (RFC 9110 section 5.6.4).
#[derive(Clone, Copy, PartialEq, Eq)]
pub enum Scan {
    /// Outside of quoted strings.
    Plain,
    /// Inside of one.
    Quoted,
    /// Inside of one, after a backslash.
    Escaped,
}

impl Scan {
    /// Where the reader stands after the byte. Without `quotes` no byte begins a quoted string.
    fn step(self, quotes: bool, byte: u8) -> Scan
        ensures { result ≡ step_if quotes self byte }
    {
        if !quotes {
            return self;
        }
        match (self, byte) {
            (Scan::Plain, b'"') => Scan::Quoted,
            (Scan::Plain, _) => Scan::Plain,
            (Scan::Quoted, b'"') => Scan::Plain,
            (Scan::Quoted, b'\\') => Scan::Escaped,
            (Scan::Quoted | Scan::Escaped, _) => Scan::Quoted,
        }
    }

    fn is_plain(self) -> bool
        ensures { result ≡ plain self }
    {
        match self {
            Scan::Plain => true,
            Scan::Quoted | Scan::Escaped => false,
        }
    }
}

/// Whether the two are equal without case.
pub fn is_same(a: &[u8], b: &[u8]) -> bool
    ensures { result ≡ str_eq_ignore_ascii_case a.now b.now }
{
    a.eq_ignore_ascii_case(b)
}

#[tactic(auto, unfolding(crate::specs::Texts::is_tchar))]
fn is_token_byte(byte: u8) -> bool
    ensures { result ≡ is_tchar byte }
{
    byte.is_ascii_alphanumeric()
        || matches!(
            byte,
            b'!' | b'#'
                | b'$'
                | b'%'
                | b'&'
                | b'\''
                | b'*'
                | b'+'
                | b'-'
                | b'.'
                | b'^'
                | b'_'
                | b'`'
                | b'|'
                | b'~'
        )
}

/// RFC 9110 section 5.6.2.
pub fn is_token_text(text: &[u8]) -> bool
    ensures { result ≡ is_token text.now }
{
    'each: for byte in text {
        if !is_token_byte(*byte) {
            return false;
        }
    }
    !text.is_empty()
}

#[tactic(auto, unfolding(crate::specs::Texts::is_blank))]
fn is_blank_byte(byte: u8) -> bool
    ensures { result ≡ is_blank byte }
{
    byte == b' ' || byte == b'\t'
}

fn trim_start(text: &[u8]) -> &[u8]
    ensures { result.now ≡ start_of text.now }
{
    'each: for (i, byte) in text.iter().enumerate() {
        if !is_blank_byte(*byte) {
            return &text[i..];
        }
    }
    &[]
}

fn trim_end(text: &[u8]) -> &[u8]
    ensures { result.now ≡ end_of text.now }
{
    let mut len = text.len();
    'each: while len > 0 && is_blank_byte(text[len - 1]) {
        len -= 1;
    }
    &text[..len]
}

/// The text without spaces and tabs around it.
#[tactic(auto, unfolding(crate::specs::Texts::trim))]
pub fn trim(text: &[u8]) -> &[u8]
    ensures { result.now ≡ trimmed text.now }
{
    trim_end(trim_start(text))
}

/// How many bytes stand before the first separator. With `quotes`, a separator inside a quoted
/// string does not count.
pub fn cut(text: &[u8], separator: u8, quotes: bool) -> usize
    ensures at { result ≡ cut_from quotes separator Scan.Plain text.now }
    ensures within { result ≤ length text.now }
{
    let mut scan = Scan::Plain;
    'each: for (i, byte) in text.iter().enumerate() {
        if scan.is_plain() && *byte == separator {
            return i;
        }
        scan = scan.step(quotes, *byte);
    }
    text.len()
}

/// The first piece, and what stands after it: nothing, or a separator and more.
pub fn next_piece(text: &[u8], separator: u8, quotes: bool) -> (&[u8], &[u8])
    ensures pieces { pieces quotes separator text.now
        ≡ result.0.now ∷ behind quotes separator result.1.now }
    ensures shorter { length result.1.now ≤ length text.now }
{
    text.split_at(cut(text, separator, quotes))
}

#[tactic(auto, unfolding(crate::specs::Texts::is_text))]
fn is_text(byte: u8) -> bool
    ensures { result ≡ text_byte byte }
{
    byte == b'\t' || byte >= b' ' && byte != 0x7f
}

/// Whether the text is one quoted string.
pub fn is_quoted(text: &[u8]) -> bool
    ensures { result ≡ quoted text.now }
{
    match text {
        [b'"', rest @ ..] => closes_quotes(rest),
        _ => false,
    }
}

// Whether a quoted string ends with the text.
fn closes_quotes(text: &[u8]) -> bool
    ensures { result ≡ closes Scan.Quoted text.now }
{
    let mut scan = Scan::Quoted;
    'each: for byte in text {
        if scan.is_plain() || !is_text(*byte) {
            return false;
        }
        scan = scan.step(true, *byte);
    }
    scan.is_plain()
}
