// An owner's lines, latest first.
ghost use Rattle.std.specs.Prelude.{◌≡◌, ◌≤◌, ◌<◌, MatchOption};
ghost use Rattle.std.specs.Iterator.{at_most};
ghost use Rattle.links.specs.Links.{owners, lines, last_line, line_before};
ghost use Rattle.links.specs.Walk.{Earlier};

use crate::chain::{Links, last_line, line_before};

#[derive(Drop)]
pub struct LinesOf<'a> {
    links: &'a Links,
    line: usize,
    ghost in_table: { line ≤ lines },
    ghost earlier: { Earlier links.now },
}

pub fn lines_of<'a>(links: &'a Links, owner: usize) -> LinesOf<'a>
    requires owner_in_range { owner < owners }
    requires earlier { Earlier links.now }
    ensures { (result.links.now ≡ links.now) × (result.line ≡ last_line links.now owner) }
{
    LinesOf {
        links: links,
        line: last_line(links, owner),
    }
}

impl<'a> Iterator for LinesOf<'a> {
    type Item = usize;

    ghost remaining = { λ s. at_most s.line };

    ghost next_gives = { λ s r t. MatchOption r ((s.line ≡ 0) × (t ≡ s))
        (λ x. (0 < x) × (x ≡ s.line) × (t.line ≡ line_before s.links.now x) × (t.links.now ≡ s.links.now)) };

    fn next(&mut self) -> Option<usize> {
        if self.line == 0 {
            return None;
        }
        let line = self.line;
        self.line = line_before(self.links, line);
        Some(line)
    }
}
