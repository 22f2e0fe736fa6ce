// What a name stands for. The number is found first, since what is known of a function or a global is known by its number.
ghost use Rattle.std.specs.Prelude.{◌≡◌, ℕ, ◌<◌, length, get_or, IfSome, MatchOption, slice_index_or};
ghost use Rattle.std.proofs.Math.Option.{none, some};
ghost use Rattle.xi.specs.Typing.{global_type, function_named, variable_type};
ghost use Rattle.checker.specs.Checked.{no_global};
ghost use Rattle.checker.specs.Facts.{FunctionSized};
ghost use Rattle.checker.specs.Scopes.{scope_of, type_found, function_found};
ghost use Rattle.checker.specs.Trees.{no_function};

use crate::named::number_of;
use crate::read_sheet::ReadSheet;
use crate::scope::Scope;
use xi::node::Ty;
use xi::program::Function;

impl ReadSheet<'_> {
    // The number of the function of that name.
    pub(crate) fn function_number(&self, name: u16) -> Option<usize>
        ensures { MatchOption result (function_named self.now.program.functions name ≡ none) (λ i. (i < length self.now.program.functions) × (function_named self.now.program.functions name ≡ some (slice_index_or self.now.program.functions i no_function))) }
    {
        number_of(self.functions(), name)
    }

    // The number of the global of that name.
    pub(crate) fn global_number(&self, name: u16) -> Option<usize>
        ensures { MatchOption result (global_type self.now.program.globals name ≡ none) (λ i. (i < length self.now.program.globals) × (global_type self.now.program.globals name ≡ some (get_or self.now.program.globals i no_global).ty.number)) }
    {
        number_of(self.globals(), name)
    }

    // The function of that name.
    pub(crate) fn function_named(&self, name: u16) -> Option<Function>
        ensures named { function_named self.now.program.functions name ≡ function_found result }
        ensures sized { IfSome result (λ F. FunctionSized self.now.program F) }
    {
        let number = self.function_number(name)?;
        Some(self.function_at(number))
    }

    // The type of the variable of that name: a local or parameter in scope, or a global.
    pub(crate) fn variable(&self, scope: &Scope, name: u16) -> Option<Ty>
        ensures { variable_type self.now.program (scope_of scope.now) name ≡ type_found result }
    {
        if let Some(ty) = scope.find(name) {
            return Some(ty);
        }
        let number = self.global_number(name)?;
        Some(self.globals()[number].ty)
    }
}
