//! How the folder takes a method.
ghost use Rattle.std.specs.Prelude.{◌≡◌};
ghost use Rattle.std.specs.List.{list_any};
ghost use Rattle.std.specs.Str.{bytes_eq};
ghost use Rattle.app_trait.specs.Method.{method_of, refused_methods};

/// How the folder takes a method (RFC 9110, section 9).
#[derive(Clone, Copy, Debug, PartialEq, Eq)]
pub enum Method {
    /// The file's head and its content are asked for.
    Get,
    /// The file's head is asked for.
    Head,
    /// The methods that are served are asked for.
    Options,
    /// The method is known and isn't served: `POST`, `PUT`, `DELETE`, `PATCH`, `TRACE` or `CONNECT`.
    Refused,
    /// The method isn't known.
    Unknown,
}

const GET: &[u8] = b"GET";

const HEAD: &[u8] = b"HEAD";

const OPTIONS: &[u8] = b"OPTIONS";

const POST: &[u8] = b"POST";

const PUT: &[u8] = b"PUT";

const DELETE: &[u8] = b"DELETE";

const PATCH: &[u8] = b"PATCH";

const TRACE: &[u8] = b"TRACE";

const CONNECT: &[u8] = b"CONNECT";

/// How the folder takes a method, which is told by its bytes, with regard to case.
pub(crate) fn method_of(method: &[u8]) -> Method
    ensures { result ≡ method_of method.now }
{
    if method == GET {
        Method::Get
    } else if method == HEAD {
        Method::Head
    } else if method == OPTIONS {
        Method::Options
    } else if is_refused(method) {
        Method::Refused
    } else {
        Method::Unknown
    }
}

/// Whether a method is known and not served.
fn is_refused(method: &[u8]) -> bool
    ensures { result ≡ list_any (bytes_eq method.now) refused_methods }
{
    method == POST
        || method == PUT
        || method == DELETE
        || method == PATCH
        || method == TRACE
        || method == CONNECT
}
