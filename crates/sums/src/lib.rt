// The water between two faces of a reach. Beside a state stands a table of sums, one for each block of
// sixteen cells; so a question reads few numbers, however far apart its faces are.
#![tactic(auto)]

mod adding;
mod blocks;
mod filling;
mod splitting;

ghost use Rattle.std.specs.Prelude.{◌≡◌, ◌≤◌, length};
ghost use Rattle.rules.specs.StateAndBed.{cells_over};
ghost use Rattle.rules.specs.Sums.{making_of, between_of, reading};
ghost use Rattle.stage.specs.Worked.{lent_by};
ghost use Rattle.sums.specs.Gives.{water_in, MakingGives, asked, KeepingGives};
ghost use Rattle.sums.specs.Ranges.{TablesFit};

use crate::adding::{added, depths};
use crate::blocks::bad_sums;
use crate::filling::fill;
use crate::splitting::split_between;
use reach::lengths::{bad_state, cells_over};
use stage::state_and_bed::check;
use step::{Answer, Given, Refusal};

// The water between two faces, and what was read for it.
#[derive(Clone, Copy, Debug, PartialEq, Eq)]
pub struct Water {
    // in depths over one cell
    pub depth: i64,
    // how many cells and how many blocks were read
    pub cells: usize,
    pub blocks: usize,
}

// The sums of a state of n cells over its bed of n + 1 values, into a table of (n + 15)/16. Where they are refused
// the table is as it was.
pub fn make(state: &[i32], bed: &[i32], sums: &mut [i32]) -> Result<(), Refusal>
    ensures { MakingGives
        (making_of bed.now state.now (length sums.old))
        result sums.old sums.new }
{
    if bad_sums(sums.len(), cells_over(bed)) {
        return Err(Refusal::Lengths);
    }
    check(state, bed)?;
    fill(state, bed, sums);
    Ok(())
}

// What is read between faces a and b, which are in order.
fn read(state: &[i32], bed: &[i32], sums: &[i32], a: usize, b: usize) -> Water
    requires { TablesFit bed.now state.now sums.now × (a ≤ b) × (b ≤ cells_over bed.now) }
    ensures { water_in result ≡ reading bed.now state.now sums.now a b }
{
    let s = split_between(cells_over(bed), a, b);
    let before = depths(state, bed, a, s.head);
    let whole = added(sums, s.first, s.last);
    let behind = depths(state, bed, s.tail, b);
    Water {
        depth: whole + (before + behind),
        cells: (s.head - a) + (b - s.tail),
        blocks: s.last - s.first,
    }
}

// The water of the cells between faces a and b, by the numbers of the three tables as they stand.
pub fn between(state: &[i32], bed: &[i32], sums: &[i32], a: u32, b: u32) -> Result<Water, Refusal>
    ensures { asked result ≡ between_of bed.now state.now sums.now a b }
{
    let n = cells_over(bed);
    if bad_sums(sums.len(), n) || bad_state(state.len(), n) {
        return Err(Refusal::Lengths);
    }
    let (from, to) = (a as usize, b as usize);
    if to < from || n < to {
        return Err(Refusal::Faces);
    }
    Ok(read(state, bed, sums, from, to))
}

// The step, which also leaves the sums of the new state in `sums` when it is accepted.
pub fn step(
    state: &[i32],
    next: &mut [i32],
    bed: &[i32],
    friction: &[u16],
    sums: &mut [i32],
    call: Given,
) -> Answer
    ensures { KeepingGives
        (lent_by state.now (length next.old) bed.now friction.now call)
        result next.old next.new sums.old sums.new }
{
    if bad_sums(sums.len(), friction.len()) {
        return Err(Refusal::Lengths.into());
    }
    let volumes = step::step(state, next, bed, friction, call)?;
    fill(next, bed, sums);
    Ok(volumes)
}
