// The limits of the scope document, named once for the code; crates/rules/specs/Limits.antt names the
// same numbers for the rules. One unit is 1/4096 of a metre, of a second, of a m/s or of a m2/s.
ghost use Rattle.std.specs.Prelude.{◌≡◌};
ghost use Rattle.rules.specs.Refusals as rules;

// Cells in a reach, and their faces.
pub const CELLS: usize = 1024;

pub const FACES: usize = CELLS + 1;

// Cells in a block, of which the water is kept as one sum.
pub const BLOCK_CELLS: usize = 16;

// A bed value, 256 m, and a Manning value in 1/1000.
pub const HIGHEST_BED: i64 = 1048576;

pub const ROUGHEST: u16 = 200;

// A cell's length, 256 m; a time step, 1 s; a jump, 64 m.
pub const LONGEST_CELL: i64 = 1048576;

pub const LONGEST_STEP: i64 = 4096;

pub const LARGEST_JUMP: i64 = 262144;

// A depth, 64 m; a discharge, 2048 m2/s, and a speed, 32 m/s, either way.
pub const DEEPEST: i64 = 262144;

pub const FULLEST: i64 = 8388608;

pub const FASTEST: i64 = 131072;

// The inflow at an end, 2048 m2/s; and the kinds of an end, of which one with an inflow is the last.
pub const LARGEST_INFLOW: u32 = 8388608;

pub const WALL: u32 = 0;

pub const OPEN: u32 = 1;

pub const INFLOW: u32 = 2;

// The dry depth, at or below which water has no speed, from about 0.2 mm to about 16 mm.
pub const LEAST_DRY: i64 = 1;

pub const MOST_DRY: i64 = 64;

// Is x outside the list that starts at low and ends with high?
pub fn outside(low: i64, high: i64, x: i64) -> bool
    ensures { result ≡ rules.outside low high x }
{
    x < low || high < x
}

// Is a dry depth outside its list?
pub fn bad_dry(dry: i64) -> bool
    ensures { result ≡ rules.bad_dry dry }
{
    outside(LEAST_DRY, MOST_DRY, dry)
}

// Is x past a limit, either way? The size of an x below nought is one more than -1 - x, which always
// fits; as one without a sign it would need a limit below nought told apart.
pub fn past(most: i64, x: i64) -> bool
    ensures { result ≡ rules.past most x }
{
    if x < 0 {
        return most <= -1 - x;
    }
    most < x
}
