//! Comments (IEC 61131-3:2003, 2.1.5).
ghost use Rattle.std.specs.Prelude.{◌≡◌, ◌<◌, ◌+◌, ◌^◌, length};
ghost use Rattle.st_tokens.specs.Scanning.{comment_at, seen};

/// Finds what stands after the first `*)` of a comment, and the line there.
pub fn comment_at(mut line: u32, text: &[u8]) -> Option<(u32, &[u8])>
    requires { line + length text.now < 2 ^ 32 }
    ensures { seen result ≡ comment_at line text.now }
{
    let mut rest = text;
    while let [first, second, remaining @ ..] = rest {
        if *first == b'*' && *second == b')' {
            return Some((line, remaining));
        }
        line += u32::from(*first == b'\n');
        rest = &rest[1..];
    }
    None
}
