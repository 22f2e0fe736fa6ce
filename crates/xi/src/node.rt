// The nodes of a syntax sheet. Parts are named by node number, names by their number in the list of names.
ghost use Rattle.std.specs.Prelude.{◌≡◌, ◌+◌, ◌-◌, ◌^◌, ◌<◌, ◌≤◌, length, if◌then◌else◌, Some, None, nat_le};
ghost use Rattle.xi.specs.Program.{items_of};
ghost use Rattle.xi.specs.Codes.{unary_of, operator_of, library_of, type_of, Stands};

// A number that stands for nothing of the kind that was asked.
#[derive(Clone, Copy, PartialEq, Eq, Debug)]
pub struct UnknownNumber(pub u8);

// The type of a value, by its number: 0 `int`, 1 `bool`, t + 2 an array of t.
// A number and no enum of types: arrays nest, so an enum would need a box for what it is an array of; and a base beside a depth would make
// every definition that says t + 2 count it from the two.
#[derive(Clone, Copy, PartialEq, Eq, Debug)]
pub struct Ty {
    pub number: u8,
}

impl Ty {
    pub const INT: Ty = Ty { number: 0 };

    pub const BOOL: Ty = Ty { number: 1 };

    pub const INTS: Ty = Ty { number: 2 };

    pub const ROWS: Ty = Ty { number: 4 };

    // The type of an array of such values.
    pub fn array(self) -> Ty
        requires { self.number + 2 < 2 ^ 8 }
        ensures { result.number ≡ self.number + 2 }
    {
        Ty {
            number: self.number + 2,
        }
    }

    // The type of an array's elements; none where this is no array.
    pub fn element(self) -> Option<Ty>
        ensures { result ≡ (if nat_le 2 self.number then Some (record { number = self.number - 2 }) else None) }
    {
        let number = self.number.checked_sub(2)?;
        Some(Ty { number })
    }
}

impl TryFrom<u8> for Ty {
    type Error = UnknownNumber;

    ghost try_from_gives = { λ n r. Stands type_of n r };

    fn try_from(number: u8) -> Result<Ty, UnknownNumber> {
        match number {
            0..=9 => Ok(Ty { number }),
            _ => Err(UnknownNumber(number)),
        }
    }
}

// Consecutive items of a list: `count` of them from item `first` on.
#[derive(Clone, Copy, PartialEq, Eq, Debug)]
pub struct Run {
    pub first: u16,
    pub count: u16,
}

impl Run {
    // The items of the run, in a list that has them all.
    pub fn of<T>(self, items: &[T]) -> &[T]
        requires { self.first + self.count ≤ length items.now }
        ensures items { result.now ≡ items_of items.now self }
        ensures count { length result.now ≡ self.count }
    {
        let first = self.first as usize;
        &items[first..first + self.count as usize]
    }
}

#[derive(Clone, Copy, PartialEq, Eq, Debug)]
pub enum UnaryOperator {
    Minus = 1,
    Not = 2,
}

impl TryFrom<u8> for UnaryOperator {
    type Error = UnknownNumber;

    ghost try_from_gives = { λ n r. Stands unary_of n r };

    fn try_from(number: u8) -> Result<UnaryOperator, UnknownNumber> {
        match number {
            1 => Ok(UnaryOperator::Minus),
            2 => Ok(UnaryOperator::Not),
            _ => Err(UnknownNumber(number)),
        }
    }
}

#[derive(Clone, Copy, PartialEq, Eq, Debug)]
pub enum Operator {
    Add = 1,
    Subtract = 2,
    Multiply = 3,
    Divide = 4,
    Remainder = 5,
    Less = 6,
    LessEqual = 7,
    Greater = 8,
    GreaterEqual = 9,
    Equal = 10,
    NotEqual = 11,
    And = 12,
    Or = 13,
}

impl TryFrom<u8> for Operator {
    type Error = UnknownNumber;

    ghost try_from_gives = { λ n r. Stands operator_of n r };

    fn try_from(number: u8) -> Result<Operator, UnknownNumber> {
        match number {
            1 => Ok(Operator::Add),
            2 => Ok(Operator::Subtract),
            3 => Ok(Operator::Multiply),
            4 => Ok(Operator::Divide),
            5 => Ok(Operator::Remainder),
            6 => Ok(Operator::Less),
            7 => Ok(Operator::LessEqual),
            8 => Ok(Operator::Greater),
            9 => Ok(Operator::GreaterEqual),
            10 => Ok(Operator::Equal),
            11 => Ok(Operator::NotEqual),
            12 => Ok(Operator::And),
            13 => Ok(Operator::Or),
            _ => Err(UnknownNumber(number)),
        }
    }
}

#[derive(Clone, Copy, PartialEq, Eq, Debug)]
pub enum LibraryFunction {
    Print = 1,
    Println = 2,
    Readln = 3,
    Getchar = 4,
    Eof = 5,
    ParseInt = 6,
    UnparseInt = 7,
    Ratio = 8,
}

impl TryFrom<u8> for LibraryFunction {
    type Error = UnknownNumber;

    ghost try_from_gives = { λ n r. Stands library_of n r };

    fn try_from(number: u8) -> Result<LibraryFunction, UnknownNumber> {
        match number {
            1 => Ok(LibraryFunction::Print),
            2 => Ok(LibraryFunction::Println),
            3 => Ok(LibraryFunction::Readln),
            4 => Ok(LibraryFunction::Getchar),
            5 => Ok(LibraryFunction::Eof),
            6 => Ok(LibraryFunction::ParseInt),
            7 => Ok(LibraryFunction::UnparseInt),
            8 => Ok(LibraryFunction::Ratio),
            _ => Err(UnknownNumber(number)),
        }
    }
}

// Numbers to 11 are expressions, 20 to 29 and 32 statements, 30 and 31 targets of `DeclareCall`.
// A run of a `Text` lies in the constants, every other run in the entries.
#[derive(Clone, Copy)]
pub enum Node {
    // 1: the constant of that number
    Number {
        constant: u16,
    },
    // 2
    Truth {
        value: bool,
    },
    // 3: an array of the characters in the run of constants
    Text {
        characters: Run,
    },
    // 4
    Variable {
        name: u16,
    },
    // 5
    Element {
        array: u16,
        index: u16,
    },
    // 6
    Length {
        array: u16,
    },
    // 7
    Unary {
        operator: UnaryOperator,
        operand: u16,
    },
    // 8
    Binary {
        operator: Operator,
        left: u16,
        right: u16,
    },
    // 9: an array of the elements in the run
    Constructor {
        element: Ty,
        elements: Run,
    },
    // 10: the function of that name
    Call {
        name: u16,
        arguments: Run,
    },
    // 11
    LibraryCall {
        function: LibraryFunction,
        arguments: Run,
    },
    // 20: with the lengths that are given
    Declare {
        name: u16,
        ty: Ty,
        lengths: Run,
    },
    // 21
    DeclareValue {
        name: u16,
        ty: Ty,
        value: u16,
    },
    // 22: a target for each result of the call
    DeclareCall {
        call: u16,
        targets: Run,
    },
    // 23
    Assign {
        name: u16,
        value: u16,
    },
    // 24
    AssignElement {
        array: u16,
        index: u16,
        value: u16,
    },
    // 25
    If {
        guard: u16,
        then: u16,
    },
    // 26
    IfElse {
        guard: u16,
        then: u16,
        otherwise: u16,
    },
    // 27
    While {
        guard: u16,
        body: u16,
    },
    // 28
    Return {
        values: Run,
    },
    // 29
    CallStatement {
        call: u16,
    },
    // 30
    Target {
        name: u16,
        ty: Ty,
    },
    // 31
    Discard,
    // 32
    Block {
        statements: Run,
    },
}
