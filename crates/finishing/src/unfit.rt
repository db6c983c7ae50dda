// What `finish` says of a table that it cannot work, for one of the reasons there. No stage leaves a table so.
#[derive(Clone, Copy, Debug, PartialEq, Eq)]
pub struct Unfit;
