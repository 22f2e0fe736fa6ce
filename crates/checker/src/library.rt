// The types of the library's functions.
ghost use Rattle.std.specs.Prelude.{◌≡◌};
ghost use Rattle.xi.specs.Typing.{numbers_of, library_takes, library_gives};

use xi::node::{LibraryFunction, Ty};

pub(crate) fn takes(function: LibraryFunction) -> &'static [Ty]
    ensures { numbers_of result.now ≡ library_takes function }
{
    match function {
        LibraryFunction::Print | LibraryFunction::Println | LibraryFunction::ParseInt => {
            &[Ty::INTS]
        }
        LibraryFunction::Readln | LibraryFunction::Getchar | LibraryFunction::Eof => &[],
        LibraryFunction::UnparseInt => &[Ty::INT],
        LibraryFunction::Ratio => &[Ty::INT, Ty::INT],
    }
}

pub(crate) fn gives(function: LibraryFunction) -> &'static [Ty]
    ensures { numbers_of result.now ≡ library_gives function }
{
    match function {
        LibraryFunction::Print | LibraryFunction::Println => &[],
        LibraryFunction::Readln | LibraryFunction::UnparseInt => &[Ty::INTS],
        LibraryFunction::Getchar | LibraryFunction::Ratio => &[Ty::INT],
        LibraryFunction::Eof => &[Ty::BOOL],
        LibraryFunction::ParseInt => &[Ty::INT, Ty::BOOL],
    }
}
