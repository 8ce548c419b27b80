// Names of packages, as dependencies name them.

ghost use Rattle.std.specs.Prelude.{◌≡◌, ◌<◌, length};
ghost use Rattle.std.specs.Option.{ForSome};
ghost use Rattle.pkg_graph.specs.PackageNames.{is_name_byte, is_name_part, is_scoped_name, is_package_name};

/// Whether a byte may stand in a part of a package's name: an ASCII letter, a digit, `-`, `_`, `.` or `~`.
fn is_name_byte(byte: u8) -> bool
    ensures { result ≡ is_name_byte byte }
{
    byte.is_ascii_alphanumeric() || byte == b'-' || byte == b'_' || byte == b'.' || byte == b'~'
}

/// Whether bytes are a part of a package's name: some, of which the first is no `.`.
fn is_name_part(part: &[u8]) -> bool
    ensures { result ≡ is_name_part part.now }
{
    if part.is_empty() || part[0] == b'.' {
        return false;
    }
    part.iter().all(|byte| is_name_byte(*byte))
}

/// Whether bytes with a `/` at this place are a name with a scope.
fn is_scoped_name(text: &[u8], slash: Option<usize>) -> bool
    requires { ForSome slash (λ at. (0 < at) × (at < length text.now)) }
    ensures { result ≡ is_scoped_name slash text.now }
{
    match slash {
        None => false,
        Some(at) => is_name_part(&text[1..at]) && is_name_part(&text[at + 1..]),
    }
}

/// Whether a text is a package's name: a part, or `@`, a part, `/` and a part.
pub fn is_package_name(text: &str) -> bool
    ensures { result ≡ is_package_name text.now }
{
    let text = text.as_bytes();
    if text.is_empty() || text[0] != b'@' {
        return is_name_part(text);
    }
    is_scoped_name(text, text.iter().position(|byte| *byte == b'/'))
}
