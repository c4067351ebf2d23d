// Takes the lines of a label apart, a slice pattern to a line: the letters of its key, its value, and the rest.
// By the project's rule each is such a pattern, whose letters and digits stand one by one, so none can be generic.
ghost use Rattle.std.specs.Prelude.{codes, MatchOption};
ghost use Rattle.label_lines.specs.Lines.{Values, LinesOf};
ghost use Rattle.label_lines.specs.Held.{Cuts, held};

use crate::lines::{FILLING, Lines};

fn cipher_line(text: &[u8]) -> Option<([u8; 8], &[u8])>
    ensures { Cuts text.now (codes "cipher") 8 result }
{
    match text {
        [
            b'c',
            b'i',
            b'p',
            b'h',
            b'e',
            b'r',
            b'=',
            a,
            b,
            c,
            d,
            e,
            f,
            g,
            h,
            b'\n',
            rest @ ..,
        ] => Some(([*a, *b, *c, *d, *e, *f, *g, *h], rest)),
        _ => None,
    }
}

fn keybits_line(text: &[u8]) -> Option<([u8; 3], &[u8])>
    ensures { Cuts text.now (codes "keybits") 3 result }
{
    match text {
        [
            b'k',
            b'e',
            b'y',
            b'b',
            b'i',
            b't',
            b's',
            b'=',
            a,
            b,
            c,
            b'\n',
            rest @ ..,
        ] => Some(([*a, *b, *c], rest)),
        _ => None,
    }
}

fn frames_line(text: &[u8]) -> Option<([u8; 4], &[u8])>
    ensures { Cuts text.now (codes "frames") 4 result }
{
    match text {
        [
            b'f',
            b'r',
            b'a',
            b'm',
            b'e',
            b's',
            b'=',
            a,
            b,
            c,
            d,
            b'\n',
            rest @ ..,
        ] => Some(([*a, *b, *c, *d], rest)),
        _ => None,
    }
}

fn check_line(text: &[u8]) -> Option<([u8; 8], &[u8])>
    ensures { Cuts text.now (codes "check") 8 result }
{
    match text {
        [
            b'c',
            b'h',
            b'e',
            b'c',
            b'k',
            b'=',
            a,
            b,
            c,
            d,
            e,
            f,
            g,
            h,
            b'\n',
            rest @ ..,
        ] => Some(([*a, *b, *c, *d, *e, *f, *g, *h], rest)),
        _ => None,
    }
}

fn next_line(text: &[u8]) -> Option<([u8; 8], &[u8])>
    ensures { Cuts text.now (codes "next") 8 result }
{
    match text {
        [
            b'n',
            b'e',
            b'x',
            b't',
            b'=',
            a,
            b,
            c,
            d,
            e,
            f,
            g,
            h,
            b'\n',
            rest @ ..,
        ] => Some(([*a, *b, *c, *d, *e, *f, *g, *h], rest)),
        _ => None,
    }
}

fn moved_line(text: &[u8]) -> Option<([u8; 4], &[u8])>
    ensures { Cuts text.now (codes "moved") 4 result }
{
    match text {
        [
            b'm',
            b'o',
            b'v',
            b'e',
            b'd',
            b'=',
            a,
            b,
            c,
            d,
            b'\n',
            rest @ ..,
        ] => Some(([*a, *b, *c, *d], rest)),
        _ => None,
    }
}

impl Lines {
    // The values of a frame that has a label's lines and nothing else.
    pub fn read(frame: &[u8]) -> Option<Lines>
        ensures { MatchOption result
            ((v : Values) → LinesOf frame.now v → ⊥)
            (λ x. LinesOf frame.now (held x)) }
    {
        let (cipher, rest) = cipher_line(frame)?;
        let (keybits, rest) = keybits_line(rest)?;
        let (frames, rest) = frames_line(rest)?;
        let (check, rest) = check_line(rest)?;
        let (next, rest) = next_line(rest)?;
        let (moved, rest) = moved_line(rest)?;
        if rest != FILLING {
            return None;
        }
        Some(Lines {
            cipher,
            keybits,
            frames,
            check,
            next,
            moved,
        })
    }
}
