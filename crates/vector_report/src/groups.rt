// The groups of a text, one after the other, up to the first that is malformed.
ghost use Rattle.std.specs.Prelude.{length};
ghost use Rattle.std.specs.Iterator.{at_most};
ghost use Rattle.vector_report.specs.Groups.{Gives};

use vector_groups::group::Group;
use vector_groups::parse::parse;

#[derive(Drop)]
pub struct Groups<'a> {
    pub rest: &'a [u8],
}

#[derive(Clone, Copy, PartialEq, Eq, Debug)]
pub struct Malformed;

impl<'a> Iterator for Groups<'a> {
    type Item = Result<Group, Malformed>;

    ghost next_gives = { λ groups next after. Gives groups.rest.now next after.rest.now };

    ghost remaining = { λ groups. at_most (length groups.rest.now) };

    fn next(&mut self) -> Option<Result<Group, Malformed>> {
        if self.rest.is_empty() {
            return None;
        }
        let Some((group, after)) = parse(self.rest) else {
            self.rest = &[];
            return Some(Err(Malformed));
        };
        self.rest = after;
        Some(Ok(group))
    }
}
