// The links of lines that have owners.
ghost use Rattle.std.specs.Prelude.{◌≡◌, ℕ, ◌≤◌, ◌<◌};
ghost use Rattle.links.specs.Links.{owners, lines, links_of, OwnerIs, last_line, line_before};

use limits::{SOUND_LINES, TRACK_PLACES};

// Owners are 0, the mixer, and the lines of tracks from 1 on. Lines with others have no links.
pub const OWNERS: usize = TRACK_PLACES + 1;

// The longest table is that of the sounds.
const LINES: usize = SOUND_LINES;

// Of each owner the last line, then of each line the one before it with the same owner. Lines are
// counted from 1, and 0 is none.
pub type Links = [usize; OWNERS + LINES];

// The links of `count` lines: `owner_of` says whose line k + 1 is. Where it counts a table's lines
// from its end, an owner's lines are followed in the table's order.
pub fn links_of<F: Fn(usize) -> usize>(count: usize, owner_of: F) -> Links
    requires lines_fit { count ≤ lines }
    requires callable { (k : ℕ) → k < count → F.pre owner_of k }
    ensures { (f : ℕ → ℕ) → OwnerIs count (F.post owner_of) f → result ≡ links_of f count }
{
    let mut links = [0usize; OWNERS + LINES];
    for k in 0..count {
        let owner = owner_of(k);
        if owner < OWNERS {
            links[OWNERS + k] = links[owner];
            links[owner] = k + 1;
        }
    }
    links
}

// The last line of an owner.
pub fn last_line(links: &Links, owner: usize) -> usize
    requires { owner < owners }
    ensures { result ≡ last_line links.now owner }
{
    links[owner]
}

// The line before this one with the same owner.
pub fn line_before(links: &Links, line: usize) -> usize
    requires { (1 ≤ line) × (line ≤ lines) }
    ensures { result ≡ line_before links.now line }
{
    links[OWNERS + (line - 1)]
}
