// The run stops, by number: each ends a run at the node whose operation cannot be done.
ghost use Rattle.std.specs.Prelude.{◌≡◌};
ghost use Rattle.xi.specs.Numbers.{stop_number};

#[derive(Clone, Copy, PartialEq, Eq, Debug)]
pub enum Stop {
    // the divisor of `/`, `%` or `ratio` is 0
    ZeroDivisor = 18,
    // an index lies outside its array
    Index = 19,
    // an unset value is read
    Unset = 20,
    // a given length is negative
    NegativeLength = 21,
    // there are not enough cells for a new array
    CellsTooFew = 22,
    // as many calls are open as the depth allows
    TooDeep = 23,
    // the host has less room than is to be written
    RoomTooSmall = 24,
    // what is to be written is no character
    NoCharacter = 25,
}

impl Stop {
    // as of a rule; a trait over the two, or `From` for `u8`, would be longer than they are, and say less where it is called
    pub fn number(self) -> u8
        ensures { result ≡ stop_number self }
    {
        self as u8
    }
}
