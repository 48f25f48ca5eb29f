//! A script and another text in one, with a line `---` between them.

ghost use Rattle.std.specs.Prelude.{◌≡◌, ◌≢◌, ◌++◌, ◌∷◌, MatchBool, MatchOption, codes};
ghost use Rattle.std.specs.List.{AllByRecursion};
ghost use Rattle.nm_shell.specs.Inputs.{HasNoCut, HasNoParts, IsInput, IsOnlyCut};

/// The most bytes of both.
pub const MAX_INPUT: usize = 67_108_864;

/// The first line, without its line feed, and what stands behind its line feed, if it has one.
fn first_line(bytes: &[u8]) -> (&[u8], Option<&[u8]>)
    ensures one { AllByRecursion (λ b. b ≢ 10) result.0.now }
    ensures parts { MatchOption result.1 (bytes.now ≡ result.0.now)
        (λ rest. bytes.now ≡ result.0.now ++ 10 ∷ rest.now) }
{
    for (at, byte) in bytes.iter().enumerate() {
        if *byte == b'\n' {
            return (&bytes[..at], Some(&bytes[at + 1..]));
        }
    }
    (bytes, None)
}

/// Whether a line is the one between.
fn is_between(line: &[u8]) -> bool
    ensures { MatchBool result (line.now ≡ codes "---") (line.now ≢ codes "---") }
{
    line == b"---".as_slice()
}

/// What stands before the first line `---`, and behind it.
fn cut(bytes: &[u8]) -> Option<(&[u8], &[u8])>
    ensures { MatchOption result (HasNoCut bytes.now) (λ x. IsOnlyCut bytes.now x.0.now x.1.now) }
{
    let mut rest = bytes;
    loop {
        let (line, behind) = first_line(rest);
        if is_between(line) {
            let front = &bytes[..bytes.len() - rest.len()];
            return match behind {
                Some(behind) => Some((front, behind)),
                None => Some((front, &bytes[bytes.len()..])),
            };
        }
        match behind {
            Some(others) => rest = others,
            None => return None,
        }
    }
}

/// What stands before the first line `---`, and behind it, where the bytes are short enough and have one.
pub fn parts(bytes: &[u8]) -> Option<(&[u8], &[u8])>
    ensures { MatchOption result (HasNoParts bytes.now) (λ x. IsInput bytes.now x.0.now x.1.now) }
{
    if bytes.len() > MAX_INPUT {
        return None;
    }
    cut(bytes)
}
