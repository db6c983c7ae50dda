// What a step answers, over a sloping bed or a stepped one: the water that crossed the two ends, or which of its checks
// stopped it and where.
ghost use Rattle.std.specs.Prelude.{◌≡◌};
ghost use Rattle.reach.specs.Refusals.{number_of, refused_at, whole};

// What is wrong with a call, in the order in which it is looked for. The numbers are those that a caller in C is told.
#[derive(Clone, Copy, Debug, PartialEq, Eq)]
pub enum Refusal {
    // a table is not as long as its call says
    Lengths = 1,
    // a number of the call or an end is outside its list
    Numbers = 2,
    // a bed value is out of range, or odd
    Bed = 3,
    // a Manning value is out of range
    Friction = 4,
    // a cell of the state is out of range
    State = 5,
    // water or an inflow is too fast
    Speed = 6,
    // the time step is too long for the waves at a face
    TimeStep = 7,
    // a cell is out of range at the end of a stage
    Stage = 8,
    // two faces are out of order, or beyond the reach
    Faces = 10,
}

impl Refusal {
    // What a search for the lowest place says to which this refusal applies: a refusal there, or none.
    pub fn at(self, place: Option<usize>) -> Result<(), Refused>
        ensures { result ≡ refused_at self place }
    {
        match place {
            Some(place) => Err(Refused {
                refusal: self,
                place,
            }),
            None => Ok(()),
        }
    }
}

// The number of a refusal, as a caller in C is told it.
impl From<Refusal> for u32 {
    ghost from_gives = { λ refusal number. number ≡ number_of refusal };

    fn from(refusal: Refusal) -> u32 {
        refusal as u32
    }
}

// A refusal, and the lowest bed value, cell or face that gave it, 0 for lengths and for numbers. What was to be written
// is as it was.
#[derive(Clone, Copy, Debug, PartialEq, Eq)]
pub struct Refused {
    pub refusal: Refusal,
    pub place: usize,
}

// What is refused of a whole call has no place.
impl From<Refusal> for Refused {
    ghost from_gives = { λ refusal refused. refused ≡ whole refusal };

    fn from(refusal: Refusal) -> Refused {
        Refused { refusal, place: 0 }
    }
}

// The volumes at face 0 and at face n, rightward positive.
#[derive(Clone, Copy, Debug, PartialEq, Eq)]
pub struct Volumes {
    pub first: i64,
    pub last: i64,
}

// Of an accepted step the volumes; all of `next` is filled then.
pub type Answer = Result<Volumes, Refused>;
