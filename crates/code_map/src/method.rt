//! The methods that are mapped.

ghost use Rattle.std.specs.Prelude.{◌≡◌};
ghost use Rattle.code_map.specs.Methods.{method_named, name_of, request_code, writes};

use std::fmt;

/// An HTTP method that CoAP has too (RFC 7252 section 10.2). Those not here are refused with 501.
#[derive(Clone, Copy, Debug, PartialEq, Eq)]
pub enum Method {
    Get,
    Head,
    Post,
    Put,
    Delete,
}

impl Method {
    /// The method's name in HTTP (RFC 9110 section 9.1).
    pub const fn name(self) -> &'static str
        ensures { result.now ≡ name_of self }
    {
        match self {
            Method::Get => "GET",
            Method::Head => "HEAD",
            Method::Post => "POST",
            Method::Put => "PUT",
            Method::Delete => "DELETE",
        }
    }

    /// The code of the CoAP request (RFC 7252 section 12.1.1): a HEAD is sent as a GET.
    pub const fn code(self) -> u8
        ensures { result ≡ request_code self }
    {
        match self {
            Method::Get | Method::Head => 0x01,
            Method::Post => 0x02,
            Method::Put => 0x03,
            Method::Delete => 0x04,
        }
    }

    /// Whether the method asks for a change (RFC 9110 section 9.2.1: it isn't safe).
    pub const fn is_write(self) -> bool
        ensures { result ≡ writes self }
    {
        match self {
            Method::Get | Method::Head => false,
            Method::Post | Method::Put | Method::Delete => true,
        }
    }
}

impl fmt::Display for Method {
    ghost use Rattle.std.specs.Prelude.{Some};
    ghost use Rattle.code_map.specs.Methods.{name_of};

    ghost output = { λ method. Some (name_of method) };

    fn fmt<W: fmt::Write>(&self, f: &mut fmt::Formatter<W>) -> fmt::Result {
        f.write_str(self.name())
    }
}

/// The method of this name, which is case-sensitive (RFC 9110 section 9.1).
pub fn method_of(name: &[u8]) -> Option<Method>
    ensures { result ≡ method_named name.now }
{
    match name {
        b"GET" => Some(Method::Get),
        b"HEAD" => Some(Method::Head),
        b"POST" => Some(Method::Post),
        b"PUT" => Some(Method::Put),
        b"DELETE" => Some(Method::Delete),
        _ => None,
    }
}
