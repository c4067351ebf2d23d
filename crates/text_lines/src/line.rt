// Reads a line that has a known name and a value of a known width.
ghost use Rattle.std.specs.Prelude.{ℕ, List, MatchOption};
ghost use Rattle.text_lines.specs.Line.{LineOf};

// The value of the line that the input begins with, and the rest of the input.
pub fn read_line<'a>(input: &'a [u8], name: &[u8], width: usize) -> Option<(&'a [u8], &'a [u8])>
    ensures { MatchOption result
        ((value rest : List ℕ) → LineOf input.now name.now width value rest → ⊥)
        (λ found. LineOf input.now name.now width found.0.now found.1.now) }
{
    let named = input.strip_prefix(name)?;
    let assigned = named.strip_prefix(b"=")?;
    let (value, ended) = assigned.split_at_checked(width)?;
    let rest = ended.strip_prefix(b"\n")?;
    Some((value, rest))
}
