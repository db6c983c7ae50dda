// The lent bed, face by face and cell by cell. Each cast is proved once, here. Every call is answered:
// past its end the table counts as nought.
ghost use Rattle.std.specs.Prelude.{◌≡◌, get_or, pos};
ghost use Rattle.rules.specs.Reach as rules;
ghost use Rattle.rules.specs.Reach.{bed_at};
ghost use Rattle.reach.specs.Told.{bed_in};

// The bed of a cell at its left and right face.
#[derive(Clone, Copy, Debug, PartialEq, Eq)]
pub struct Bed {
    pub zl: i32,
    pub zr: i32,
}

// The bed at face i.
pub fn bed_at(bed: &[i32], i: usize) -> i64
    ensures { result ≡ get_or bed.now i (pos 0) }
{
    match bed.get(i) {
        Some(z) => i64::from(*z),
        None => 0,
    }
}

// The bed under cell i.
pub fn under(bed: &[i32], i: usize) -> Bed
    ensures { bed_in result ≡ bed_at bed.now i }
{
    if i >= bed.len() {
        return Bed { zl: 0, zr: 0 };
    }
    let zl = bed[i];
    if i + 1 >= bed.len() {
        return Bed { zl, zr: 0 };
    }
    Bed { zl, zr: bed[i + 1] }
}

// z0 and z1: the mean of the bed of a cell, and its slope.
#[tactic(auto, unfolding(rules::specs::Reach::z0))]
pub fn z0(b: Bed) -> i64
    ensures { result ≡ rules.z0 (bed_in b) }
{
    (i64::from(b.zl) + i64::from(b.zr)) / 2
}

#[tactic(auto, unfolding(rules::specs::Reach::z1))]
pub fn z1(b: Bed) -> i64
    ensures { result ≡ rules.z1 (bed_in b) }
{
    (i64::from(b.zr) - i64::from(b.zl)) / 2
}
