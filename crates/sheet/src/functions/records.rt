// Reads the records of functions.
ghost use Rattle.std.specs.Prelude.{◌≡◌, ℕ, ◌+◌, ◌*◌, ◌/◌, ◌^◌, ◌<◌, ◌≤◌, [], length, vec_len, OnOk, IfOk};
ghost use Rattle.sheet.specs.Outcome.{Said};
ghost use Rattle.sheet.specs.Fields.{items_in};
ghost use Rattle.sheet.specs.Functions.{FunctionList, listed, parameter_reads, result_reads, function_of, function_item};
ghost use Rattle.sheet.specs.FunctionsOf.{functions_of};

use crate::functions::{FunctionRecord, Functions};
use crate::item::{Item, Known};
use crate::part::Part;
use crate::reader::Reader;
use crate::refusal::Refusal;
use crate::span::Span;
use std::alloc::Global;
use xi::node::{Run, Ty};
use xi::program::{Function, Parameter};

impl Item for Parameter {
    ghost SIZE = { 3 };

    ghost reads = { λ k. parameter_reads k.names };

    const SIZE: usize = 3;

    fn read(known: Known, span: Span) -> Result<Parameter, Refusal> {
        Ok(Parameter {
            name: known.name(span, 0)?,
            ty: span.ty(2)?,
        })
    }
}

impl Item for Ty {
    ghost SIZE = { 1 };

    ghost reads = { λ _. result_reads };

    const SIZE: usize = 1;

    fn read(_known: Known, span: Span) -> Result<Ty, Refusal> {
        span.ty(0)
    }
}

// Adds the items that lie one after another in the span, and gives their run.
fn add_items<T: Item + Drop>(known: Known, span: Span, all: &mut Vec<T>) -> Result<Run, Refusal>
    requires some { 0 < T.Item.SIZE }
    requires few { vec_len all.old < 2 ^ 16 }
    requires short { length span.bytes.now < 2 ^ 16 }
    ensures said { Said result (λ _. all.new.items) (items_in T.Item.SIZE (T.Item.reads known.entry) span.entry.at (length span.entry.bytes.now / T.Item.SIZE) span.entry.bytes.now all.old.items) }
    ensures len { OnOk result (vec_len all.new ≡ vec_len all.old + length span.entry.bytes.now / T.Item.SIZE) }
    ensures most { vec_len all.new ≤ vec_len all.old + length span.entry.bytes.now / T.Item.SIZE }
    ensures run { IfOk result (λ r. r ≡ record { first = vec_len all.old; count = length span.entry.bytes.now / T.Item.SIZE }) }
{
    let run = Run {
        first: all.len() as u16,
        count: (span.bytes.len() / T::SIZE) as u16,
    };
    let at = span.at;
    for bytes in span.bytes.chunks_exact(T::SIZE) {
        all.push(T::read(known, Span { bytes, at })?)?;
    }
    Ok(run)
}

// The function of so many parameters and results with the record `span`.
fn add_record(
    known: Known,
    span: Span,
    parameters: usize,
    results: usize,
    all: &mut Functions,
) -> Result<(), Refusal>
    requires long { length span.bytes.now ≡ 6 + 3 * parameters + results }
    requires parameters { vec_len all.old.parameters ≤ 512 }
    requires results { vec_len all.old.results ≤ 512 }
    ensures said { Said result (λ _. functions_of all.new) (function_of known.entry.names span.entry.at parameters results span.entry.bytes.now (functions_of all.old)) }
    ensures parameters { OnOk result (vec_len all.new.parameters ≤ vec_len all.old.parameters + 8) }
    ensures results { OnOk result (vec_len all.new.results ≤ vec_len all.old.results + 8) }
{
    let name = known.name(span, 0)?;
    span.in_range(parameters <= 8 && results <= 8)?;
    let results_at = 4 + 3 * parameters;
    let body = span.pair(results_at + results);
    let parameters = add_items(known, span.part(3, 3 * parameters), &mut all.parameters)?;
    let results = add_items(known, span.part(results_at, results), &mut all.results)?;
    let function = Function {
        name,
        parameters,
        results,
        body,
    };
    all.records.push(FunctionRecord {
        function,
        at: span.at,
    })?;
    Ok(())
}

impl<'a> Part<'a> for Functions {
    ghost Value = { FunctionList };

    ghost value = { functions_of };

    ghost none = { listed [] [] [] [] };

    ghost item = { λ k. function_item k.names };

    ghost most = { 64 };

    // said here, and in no ghost field of `Functions`: a record that is refused leaves its parameters there, without a function
    ghost after = { λ n f. vec_len f.parameters ≤ 8 * n × vec_len f.results ≤ 8 * n };

    fn empty(heap: Global) -> Functions {
        Functions {
            records: Vec::new(heap),
            parameters: Vec::new(heap),
            results: Vec::new(heap),
        }
    }

    // A record is as long as its own counts say, whether or not they are in range.
    fn add(&mut self, r: &mut Reader<'a>, known: Known) -> Result<(), Refusal> {
        let parameters = r.peek(2)? as usize;
        let results = r.peek(3 + 3 * parameters)? as usize;
        let span = r.span(6 + 3 * parameters + results)?;
        add_record(known, span, parameters, results, self)
    }
}
