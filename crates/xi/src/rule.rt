// The rules of a sheet, by number.
ghost use Rattle.std.specs.Prelude.{◌≡◌};
ghost use Rattle.xi.specs.Numbers.{rule_number};

#[derive(Clone, Copy, PartialEq, Eq, Debug)]
pub enum Rule {
    // the version is 1
    Version = 1,
    // no byte is missing or left over
    Bytes = 2,
    // counts and fields lie in their ranges
    Range = 3,
    // a name is an identifier, and stands once
    Name = 4,
    // the nodes form trees
    Tree = 5,
    // a name that is used is known
    Unknown = 6,
    // a name that is declared is free
    Taken = 7,
    // types fit
    Type = 8,
    // arguments and results are as many as asked
    Count = 9,
    // a `return` stands last, and a function with results ends in one
    Return = 10,
    // there is a `main` of the right kind
    Main = 11,
}

impl Rule {
    pub fn number(self) -> u8
        ensures { result ≡ rule_number self }
    {
        self as u8
    }
}
