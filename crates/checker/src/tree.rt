// The nodes of a sheet form trees: each is a part of one node or the body of one function, and none lies too deep.
ghost use Rattle.std.specs.Prelude.{◌≡◌, length, replicate, IfOk, IfSome, OnOk, nat_lt, ◌<◌};
ghost use Rattle.std.specs.List.{position_from};
ghost use Rattle.sheet.specs.Outcome.{Said};
ghost use Rattle.xi.specs.declared.rule.Rule.TheVariants.{Tree as TreeRule};
ghost use Rattle.checker.specs.Repeats.{fails_at};
ghost use Rattle.checker.specs.Trees.{offset_of, is_free, all_used, deeper, level_by, levels, all_shallow, tree_of};
ghost use Rattle.checker.specs.Facts.{Falling, Bodied};
ghost use Rattle.checker.specs.declared.mark.Mark.TheVariants.{Free};

use crate::claims::{claim_all, claim_bodies};
use crate::mark::Mark;
use crate::read_sheet::ReadSheet;
use crate::trees::Trees;
use sheet::refusal::Refusal;
use std::alloc::Global;
use xi::rule::Rule;

// The rule of the tree is broken at the node that was found, if one was.
fn broken_at(sheet: &ReadSheet, found: Option<usize>) -> Result<(), Refusal>
    requires { IfSome found (λ n. n < length sheet.now.program.nodes) }
    ensures { Said result (λ _. tt) (fails_at TreeRule (offset_of sheet.now) found) }
{
    match found {
        None => Ok(()),
        Some(n) => Err(Refusal::Broken {
            rule: Rule::Tree,
            at: sheet.offset(n),
        }),
    }
}

fn first_free(marks: &[Mark]) -> Option<usize>
    ensures first { result ≡ position_from is_free 0 marks.now }
    ensures within { IfSome result (λ n. n < length marks.now) }
{
    marks.iter().position(|mark| *mark == Mark::Free)
}

// Each node is a part or a body.
fn all_used(sheet: &ReadSheet, marks: &[Mark]) -> Result<(), Refusal>
    requires { length marks.now ≡ length sheet.now.program.nodes }
    ensures { Said result (λ _. tt) (all_used sheet.now marks.now) }
{
    broken_at(sheet, first_free(marks))
}

// The level below `level`. What is too deep stays at 33.
fn level_below(level: u8) -> u8
    ensures { result ≡ deeper level }
{
    level.saturating_add(1).min(33)
}

// The level of a node with such a mark. A node that it is a part of has its level already.
fn level_of(mark: Mark, levels: &[u8]) -> u8
    ensures { result ≡ level_by mark levels.now }
{
    match mark {
        Mark::Free => 0,
        Mark::Body => 1,
        Mark::PartOf { node } => {
            if node < levels.len() {
                level_below(levels[node])
            } else {
                1
            }
        }
    }
}

// A node is above its parts in number, so the levels are found from the last node down; each is written where later ones are read.
fn find_levels(marks: &[Mark], found: &mut [u8])
    requires { length found.old ≡ length marks.now }
    ensures { found.new ≡ levels marks.now (length marks.now) found.old }
{
    for n in (0..marks.len()).rev() {
        found[n] = level_of(marks[n], found);
    }
}

fn first_too_deep(found: &[u8]) -> Option<usize>
    ensures first { result ≡ position_from (nat_lt 32) 0 found.now }
    ensures within { IfSome result (λ n. n < length found.now) }
{
    found.iter().position(|level| *level > 32)
}

// No node is too deep.
fn all_shallow(sheet: &ReadSheet, found: &[u8]) -> Result<(), Refusal>
    requires { length found.now ≡ length sheet.now.program.nodes }
    ensures { Said result (λ _. tt) (all_shallow sheet.now found.now) }
{
    broken_at(sheet, first_too_deep(found))
}

// The tests over marks and levels, one for each node.
fn tree_by(sheet: &ReadSheet, marks: &mut [Mark], found: &mut [u8]) -> Result<(), Refusal>
    requires unmarked { marks.old ≡ replicate (length sheet.now.program.nodes) Free }
    requires unfound { found.old ≡ replicate (length sheet.now.program.nodes) 0 }
    requires long { length marks.old ≡ length sheet.now.program.nodes }
    requires wide { length found.old ≡ length sheet.now.program.nodes }
    ensures said { Said result (λ _. tt) (tree_of sheet.now) }
    ensures below { OnOk result (Falling sheet.now.program) }
    ensures bodied { OnOk result (Bodied sheet.now.program) }
{
    claim_all(sheet, marks)?;
    claim_bodies(sheet, marks)?;
    all_used(sheet, marks)?;
    find_levels(marks, found);
    all_shallow(sheet, found)
}

// The sheet's nodes form trees, or break a rule of the tree. Marks and levels are two lists: a level can be found only when all marks are there.
pub(crate) fn tree<'a>(heap: Global, sheet: ReadSheet<'a>) -> Result<Trees<'a>, Refusal>
    ensures said { Said result (λ _. tt) (tree_of sheet.entry) }
    ensures same { IfOk result (λ t. t.sheet ≡ sheet.entry) }
{
    let count = sheet.nodes().len();
    let mut marks = vec![in heap; Mark::Free; count]?;
    let mut found = vec![in heap; 0u8; count]?;
    tree_by(&sheet, &mut marks, &mut found)?;
    Ok(Trees { sheet })
}
