// Marks: which owners are used. So lines of a table that nothing uses can be left out of its links.
ghost use Rattle.std.specs.Prelude.{◌≡◌, ℕ, ◌≤◌, ◌<◌};
ghost use Rattle.limits.specs.Limits.{track_places};
ghost use Rattle.links.specs.Links.{OwnerIs};
ghost use Rattle.links.specs.Marks.{owners_marked, all_above_marked};

use crate::chain::OWNERS;

// Of each owner 1, if it has a mark, or 0.
pub type Marks = [usize; OWNERS];

// Marks the owners of `count` lines.
pub fn mark_owners<F: Fn(usize) -> usize>(count: usize, owner_of: F, marks: &mut Marks)
    requires callable { (k : ℕ) → k < count → F.pre owner_of k }
    ensures { (f : ℕ → ℕ) → OwnerIs count (F.post owner_of) f → marks.new ≡ owners_marked f count marks.old }
{
    for k in 0..count {
        let owner = owner_of(k);
        if owner < OWNERS {
            marks[owner] = 1;
        }
    }
}

// Owners that are lines themselves, each an earlier one: from the last line to the first, a line with
// a mark marks its owner.
pub fn mark_above<F: Fn(usize) -> usize>(count: usize, owner_of: F, marks: &mut Marks)
    requires tracks_fit { count ≤ track_places }
    requires callable { (k : ℕ) → k < count → F.pre owner_of k }
    requires owners_earlier { (k o : ℕ) → k < count → F.post owner_of k o → o ≤ k }
    ensures { (f : ℕ → ℕ) → OwnerIs count (F.post owner_of) f → marks.new ≡ all_above_marked f count marks.old }
{
    for k in (0..count).rev() {
        let own = marks[k + 1];
        if own == 1 {
            marks[owner_of(k)] = 1;
        }
    }
}
