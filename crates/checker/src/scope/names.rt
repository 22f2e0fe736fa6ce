// The names in a scope.
ghost use Rattle.std.specs.Prelude.{◌≡◌, ℕ, ◌<◌, [], ◌∷◌, length, nat_lt};
ghost use Rattle.xi.specs.Typing.{binding, type_in};
ghost use Rattle.checker.specs.Scopes.{scope_of, type_found};

use crate::scope::Scope;
use xi::node::Ty;
use xi::program::Parameter;

#[tactic(auto, unfolding(crate::specs::Scopes::scope_of))]
impl Scope {
    pub(crate) fn empty() -> Scope
        ensures { scope_of result ≡ [] }
    {
        let none = Parameter {
            name: 0,
            ty: Ty::INT,
        };
        Scope {
            names: [none; 64],
            len: 0,
        }
    }

    // The type of a name in scope.
    pub(crate) fn find(&self, name: u16) -> Option<Ty>
        ensures { type_in (scope_of self.now) name ≡ type_found result }
    {
        // by place: `.iter().rev()` of the names was tried, in a chain with `find` and in a `for`, and the proof did not close
        for i in (0..self.len).rev() {
            if self.names[i].name == name {
                return Some(self.names[i].ty);
            }
        }
        None
    }

    pub(crate) fn has_room(&self) -> bool
        ensures { result ≡ nat_lt (length (scope_of self.now)) 64 }
    {
        self.len < 64
    }

    // The scope with one name more.
    pub(crate) fn with(mut self, local: Parameter) -> Scope
        requires { length (scope_of self) < 64 }
        ensures { scope_of result ≡ binding local.name local.ty ∷ scope_of self }
    {
        let len = self.len;
        self.names[len] = local;
        self.len = len + 1;
        self
    }
}
