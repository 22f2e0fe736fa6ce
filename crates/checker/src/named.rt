// Things with a name.
ghost use Rattle.std.specs.Prelude.{◌≡◌, ◌==◌, ℕ};
ghost use Rattle.std.specs.List.{position_from};
ghost use Rattle.checker.specs.Checked.{has_name, global_name, parameter_name};
ghost use Rattle.checker.specs.Repeats.{record_name, repeated};

use sheet::functions::FunctionRecord;
use xi::program::{GlobalVariable, Parameter};

pub(crate) trait Named {
    ghost name: { Self → ℕ };

    fn name_number(&self) -> u16
        ensures { result ≡ name self.now };
}

impl Named for GlobalVariable {
    ghost name = { global_name };

    fn name_number(&self) -> u16 {
        self.name
    }
}

impl Named for FunctionRecord {
    ghost name = { record_name };

    fn name_number(&self) -> u16 {
        self.function.name
    }
}

impl Named for Parameter {
    ghost name = { parameter_name };

    fn name_number(&self) -> u16 {
        self.name
    }
}

// One of the items has that name.
pub(crate) fn has_name<T: Named>(items: &[T], name: u16) -> bool
    ensures { result ≡ has_name T.Named.name items.now name }
{
    items.iter().any(|item| item.name_number() == name)
}

// The number of the first item of that name. There are at most 64 items, so a map would be no plainer, and has to be made.
pub(crate) fn number_of<T: Named>(items: &[T], name: u16) -> Option<usize>
    ensures { result ≡ position_from (λ item. T.Named.name item == name) 0 items.now }
{
    items.iter().position(|item| item.name_number() == name)
}

// The number of the first item that has the name of an earlier one.
pub(crate) fn repeated<T: Named>(items: &[T]) -> Option<usize>
    ensures { result ≡ repeated T.Named.name items.now }
{
    // a loop and no `position`: each turn looks at the items before it
    for (i, item) in items.iter().enumerate() {
        if has_name(&items[..i], item.name_number()) {
            return Some(i);
        }
    }
    None
}
