// The lent tables. Beyond a table's end nothing is put.
ghost use Rattle.std.specs.Prelude.{◌≡◌, ◌≢◌, ◌<◌, ℕ, get_or, length, pos, set};
ghost use Rattle.draw.specs.Tables.{narrow, pattern};

#[derive(Clone, Copy, Debug, PartialEq, Eq)]
pub enum Table {
    State,
    Next,
    Bed,
    Friction,
}

// The 64 bits x as a number with a sign; one that no i32 holds becomes 0.
#[tactic(auto, unfolding(crate::specs::Tables::narrow))]
pub fn narrow(x: u64) -> i32
    ensures value { result ≡ narrow x }
    ensures low { x < 2147483648 → result ≡ pos x }
{
    i32::try_from(x.cast_signed()).unwrap_or(0)
}

pub fn put<T: Copy>(table: &mut [T], i: usize, x: T)
    ensures content { table.new ≡ set table.old i x }
    ensures elsewhere { (k : ℕ) → (beyond : T) → k ≢ i → get_or table.new k beyond ≡ get_or table.old k beyond }
    ensures len { length table.new ≡ length table.old }
{
    if i < table.len() {
        table[i] = x;
    }
}

// What a table holds before a call: another number in each place, and others in each call.
#[tactic(auto, unfolding(crate::specs::Tables::pattern_at))]
pub fn fill_pattern(table: &mut [i32], x: u64)
    ensures { table.new ≡ pattern x (length table.old) }
{
    for (i, place) in table.iter_mut().enumerate() {
        *place = narrow((x >> 34).wrapping_add(i as u64));
    }
}
