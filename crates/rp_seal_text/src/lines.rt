//! The first lines of a text.
ghost use Rattle.std.specs.Prelude.{◌≡◌, ◌++◌, ◌∷◌, List, ℕ, IfSome, IsSomeAnd, position};
ghost use Rattle.rp_seal_text.specs.Lines.{IsLine, is_line_end, three_lines};

/// The lines of a checkpoint, without their line ends.
pub(crate) struct Lines<'a> {
    pub origin: &'a [u8],
    pub size: &'a [u8],
    pub root: &'a [u8],
}

/// Returns the index of the first line end of `text`.
fn line_end(text: &[u8]) -> Option<usize>
    ensures { result ≡ position is_line_end text.now }
{
    text.iter().position(|byte| *byte == b'\n')
}

/// Returns the first line of `text`, without its line end, and what follows the line end.
pub(crate) fn next_line(text: &[u8]) -> Option<(&[u8], &[u8])>
    ensures found { IfSome result (λ p. text.now ≡ p.0.now ++ 10 ∷ p.1.now) }
    ensures each { (line rest : List ℕ) → IsLine line → text.now ≡ line ++ 10 ∷ rest
        → IsSomeAnd result (λ p. (p.0.now ≡ line) × (p.1.now ≡ rest)) }
{
    let end = line_end(text)?;
    Some((&text[..end], &text[end + 1..]))
}

/// Returns the first three lines of `text`.
pub(crate) fn first_lines(text: &[u8]) -> Option<Lines<'_>>
    ensures found { IfSome result (λ l. (rest : List ℕ) × (text.now ≡ three_lines l.origin.now l.size.now l.root.now ++ rest)) }
    ensures each { (origin size root rest : List ℕ) → IsLine origin → IsLine size → IsLine root → text.now ≡ three_lines origin size root ++ rest
        → IsSomeAnd result (λ l. (l.origin.now ≡ origin) × (l.size.now ≡ size) × (l.root.now ≡ root)) }
{
    let (origin, rest) = next_line(text)?;
    let (size, rest) = next_line(rest)?;
    let (root, _) = next_line(rest)?;
    Some(Lines { origin, size, root })
}
