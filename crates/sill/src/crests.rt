// The hydrostatic reconstruction: the bed that counts at a face, and the depth of a cell over it.
ghost use Rattle.std.specs.Prelude.{◌≡◌, ◌≤◌, ◌<◌, ℤ, pos, ◌-ℤ◌};
ghost use Rattle.whole.specs.Choice.{max_z};
ghost use Rattle.rules.specs.Limits.{most_cells, highest_bed};
ghost use Rattle.reach.specs.Ranges.{UpTo, widest};
ghost use Rattle.sill_rules.specs.Reach.{crest_left, crest_right};
ghost use Rattle.sill.specs.Told.{reach_in};

use crate::rows::Call;
use reach::bed::bed_at;

// The bed that counts at the left face of cell i, and at its right face: at an end the cell's own.
#[tactic(auto, using(face::proofs::Choice::max_is), unfolding(sill_rules::specs::Reach::crest_left, sill_rules::specs::Reach::higher))]
pub fn crest_left(bed: &[i32], call: Call, i: usize) -> i64
    requires { (i < call.n) × (call.n ≤ most_cells) }
    ensures { result ≡ crest_left (reach_in call bed.now) i }
{
    let own = bed_at(bed, i);
    if i == 0 {
        return own;
    }
    bed_at(bed, i - 1).max(own)
}

#[tactic(auto, using(face::proofs::Choice::max_is), unfolding(sill_rules::specs::Reach::crest_right, sill_rules::specs::Reach::higher))]
pub fn crest_right(bed: &[i32], call: Call, i: usize) -> i64
    requires { (i < call.n) × (call.n ≤ most_cells) }
    ensures { result ≡ crest_right (reach_in call bed.now) i }
{
    let own = bed_at(bed, i);
    if i + 1 == call.n {
        return own;
    }
    own.max(bed_at(bed, i + 1))
}

// The level e less the crest z, or nought.
#[tactic(auto, using(face::proofs::Choice::max_is), unfolding(whole::specs::Choice::max_z))]
pub fn over(z: i64, e: i64) -> i64
    requires { UpTo highest_bed z × UpTo widest e }
    ensures { result ≡ max_z (pos 0) (e -ℤ z) }
{
    (e - z).max(0)
}
