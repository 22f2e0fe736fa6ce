// The items of a sheet that was read, and their offsets.
ghost use Rattle.std.specs.Prelude.{◌≡◌, ℕ, ◌+◌, ◌*◌, ◌<◌, ◌≤◌, length, map, slice_index};
ghost use Rattle.sheet.specs.declared.functions.FunctionRecord.{FunctionRecord as Record};
ghost use Rattle.xi.specs.Program.{items_of};
ghost use Rattle.xi.specs.Tree.{node_at, entries_of};
ghost use Rattle.checker.specs.Facts.{Granted, Inside, Sized, FunctionSized};
ghost use Rattle.checker.specs.Held.{held_by};
ghost use Rattle.checker.specs.Trees.{offset_of, function_at};

use crate::read_sheet::ReadSheet;
use sheet::functions::FunctionRecord;
use sheet::sheet::Sheet;
use xi::node::{Node, Run, Ty};
use xi::program::{Function, GlobalVariable, Parameter};

#[tactic(auto, unfolding(crate::specs::Held::held_by))]
impl<'a> ReadSheet<'a> {
    // A sheet for which that holds which reading grants.
    pub(crate) fn new(sheet: Sheet<'a>) -> ReadSheet<'a>
        requires { Granted (held_by sheet) }
        ensures { result ≡ held_by sheet.entry }
    {
        ReadSheet { sheet }
    }

    pub(crate) fn into_sheet(self) -> Sheet<'a>
        ensures { held_by result ≡ self.entry }
    {
        self.sheet
    }

    pub(crate) fn names(&self) -> &[&'a [u8]]
        ensures { map (λ v. v.now) result.now ≡ self.now.program.names }
    {
        &self.sheet.names
    }

    pub(crate) fn node_at(&self, n: usize) -> Node
        requires { n < length self.now.program.nodes }
        ensures same { result ≡ node_at self.now.program n }
        ensures sized { Sized self.now.program result }
    {
        self.sheet.nodes[n]
    }

    pub(crate) fn nodes(&self) -> &[Node]
        ensures nodes { result.now ≡ self.now.program.nodes }
        ensures granted { Granted self.now }
    {
        &self.sheet.nodes
    }

    // The offset of node `n`.
    pub(crate) fn offset(&self, n: usize) -> usize
        requires { n < length self.now.program.nodes }
        ensures { result ≡ offset_of self.now n }
    {
        self.sheet.nodes_at + 8 * n
    }

    // The entries of a run.
    pub(crate) fn entries(&self, run: Run) -> &[u16]
        requires { Inside (length self.now.program.entries) run }
        ensures { result.now ≡ entries_of self.now.program run }
    {
        run.of(&self.sheet.entries)
    }

    pub(crate) fn function_at(&self, i: usize) -> Function
        requires { i < length self.now.program.functions }
        ensures same { result ≡ function_at self.now.program i }
        ensures sized { FunctionSized self.now.program result }
    {
        self.sheet.functions.records[i].function
    }

    // The offset of the record of function `i`.
    pub(crate) fn function_place(&self, i: usize) -> usize
        requires { i < length self.now.program.functions }
        ensures { result ≡ slice_index self.now.function_places i }
    {
        self.sheet.functions.records[i].at
    }

    pub(crate) fn functions(&self) -> &[FunctionRecord]
        ensures functions { map (λ (r : Record). r.function) result.now ≡ self.now.program.functions }
        ensures places { map (λ (r : Record). r.at) result.now ≡ self.now.function_places }
        ensures granted { Granted self.now }
    {
        &self.sheet.functions.records
    }

    pub(crate) fn parameters(&self, function: Function) -> &[Parameter]
        requires { Inside (length self.now.program.parameters) function.parameters }
        ensures items { result.now ≡ items_of self.now.program.parameters function.parameters }
        ensures count { length result.now ≡ function.parameters.count }
    {
        function.parameters.of(&self.sheet.functions.parameters)
    }

    pub(crate) fn results(&self, function: Function) -> &[Ty]
        requires { Inside (length self.now.program.results) function.results }
        ensures { result.now ≡ items_of self.now.program.results function.results }
    {
        function.results.of(&self.sheet.functions.results)
    }

    pub(crate) fn globals(&self) -> &[GlobalVariable]
        ensures { result.now ≡ self.now.program.globals }
    {
        &self.sheet.globals
    }

    // The offset of global `i`.
    pub(crate) fn global_offset(&self, i: usize) -> usize
        requires { i < length self.now.program.globals }
        ensures { result ≡ self.now.globals_at + 12 * i }
    {
        self.sheet.globals_at + 12 * i
    }

    // The offset of the functions' count.
    pub(crate) fn functions_offset(&self) -> usize
        ensures { result ≡ self.now.functions_at }
    {
        self.sheet.functions_at
    }
}
