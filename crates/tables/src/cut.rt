ghost use Rattle.std.specs.Prelude.{◌≡◌, ◌==◌};
ghost use Rattle.tables.specs.Cuts.{blank, pieces, parted};

// Does the byte part words?
pub(crate) fn is_blank(byte: u8) -> bool
    ensures { result ≡ blank byte }
{
    matches!(byte, b' ' | b'\t' | b'\r')
}

// What stands before the first such mark, and what stands behind it; none if there is no such mark.
pub(crate) fn cut(bytes: &[u8], mark: u8) -> Option<(&[u8], &[u8])>
    ensures { pieces (λ b. b == mark) bytes.now ≡ parted (λ b. b == mark) bytes.now result }
{
    let at = bytes.iter().position(|byte| *byte == mark)?;
    Some((&bytes[..at], &bytes[at + 1..]))
}
