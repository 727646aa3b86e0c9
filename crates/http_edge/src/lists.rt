//! Lists in field values (RFC 9110, section 5.6.1).

ghost use Rattle.std.specs.Prelude.{◌≡◌};
ghost use Rattle.httparse.specs.Grammar.{skip_ows, trim_ows};
ghost use Rattle.http_edge.specs.Lists.{same_name};
ghost use Rattle.http_edge.specs.Lists as spec;

/// The bytes without the white space that they begin with.
fn trimmed_front(bytes: &[u8]) -> &[u8]
    ensures { result.now ≡ skip_ows bytes.now }
{
    let mut rest = bytes;
    'each: while let Some((&first, behind)) = rest.split_first() {
        if first != b' ' && first != b'\t' {
            return rest;
        }
        rest = behind;
    }
    rest
}

/// The bytes without the white space at both ends.
fn trimmed(bytes: &[u8]) -> &[u8]
    ensures { result.now ≡ trim_ows bytes.now }
{
    let mut rest = trimmed_front(bytes);
    'each: while let Some((&last, before)) = rest.split_last() {
        if last != b' ' && last != b'\t' {
            return rest;
        }
        rest = before;
    }
    rest
}

/// The names are equal, in any case.
pub fn is_named(name: &[u8], wanted: &[u8]) -> bool
    ensures { result ≡ same_name name.now wanted.now }
{
    name.eq_ignore_ascii_case(wanted)
}

/// The list has the member, in any case.
pub fn has_member(list: &[u8], member: &[u8]) -> bool
    ensures { result ≡ spec.has_member list.now member.now }
{
    list.split(|&b| b == b',')
        .any(|part| is_named(trimmed(part), member))
}

/// It is another member than this, in any case; an empty one is none.
fn is_other(part: &[u8], member: &[u8]) -> bool
    ensures { result ≡ spec.is_other member.now part.now }
{
    !part.is_empty() && !is_named(part, member)
}

/// The list has another member than this, in any case. Empty ones don't count.
pub fn has_other(list: &[u8], member: &[u8]) -> bool
    ensures { result ≡ spec.has_other list.now member.now }
{
    list.split(|&b| b == b',')
        .any(|part| is_other(trimmed(part), member))
}
