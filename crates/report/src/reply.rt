// What is said of an input, and its line.
ghost use Rattle.std.specs.Prelude.{Some};
ghost use Rattle.report.specs.Lines.{line_of};

use std::fmt;
use xi::rule::Rule;

#[derive(Clone, Copy)]
pub enum Reply {
    // the sheet breaks that rule at that offset
    Refused {
        rule: Rule,
        at: usize,
    },
    // the sheet obeys every rule, and has so many parts
    Checked {
        names: usize,
        constants: usize,
        entries: usize,
        nodes: usize,
        globals: usize,
        functions: usize,
    },
}

impl fmt::Display for Reply {
    ghost output = { λ r. Some (line_of r) };

    fn fmt<W: fmt::Write>(&self, f: &mut fmt::Formatter<W>) -> fmt::Result {
        match *self {
            Reply::Refused { rule, at } => {
                let number = rule.number();
                writeln!(f, "= refused {number} {at}")
            }
            Reply::Checked {
                names,
                constants,
                entries,
                nodes,
                globals,
                functions,
            } => writeln!(
                f,
                "= checked {names} {constants} {entries} {nodes} {globals} {functions}"
            ),
        }
    }
}
