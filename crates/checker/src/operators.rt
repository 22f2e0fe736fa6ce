// The types of operands and of what an operator gives.
ghost use Rattle.std.specs.Prelude.{◌≡◌};
ghost use Rattle.sheet.specs.Outcome.{Said};
ghost use Rattle.checker.specs.Walk.{operands, unary_gives, operator_gives};

use sheet::refusal::{Refusal, hold};
use xi::node::{Operator, Ty, UnaryOperator};
use xi::rule::Rule;

// Operands that are as they must be, and the type of the value.
pub(crate) fn operands(fit: bool, at: usize, value: Ty) -> Result<Ty, Refusal>
    ensures { Said result (λ t. t.number) (operands fit at value.number) }
{
    hold(fit, Rule::Type, at)?;
    Ok(value)
}

pub(crate) fn unary(operator: UnaryOperator, operand: Ty, at: usize) -> Result<Ty, Refusal>
    ensures { Said result (λ t. t.number) (unary_gives operator operand.number at) }
{
    match operator {
        UnaryOperator::Minus => operands(operand == Ty::INT, at, Ty::INT),
        UnaryOperator::Not => operands(operand == Ty::BOOL, at, Ty::BOOL),
    }
}

pub(crate) fn binary(operator: Operator, left: Ty, right: Ty, at: usize) -> Result<Ty, Refusal>
    ensures { Said result (λ t. t.number) (operator_gives operator left.number right.number at) }
{
    let ints = left == Ty::INT && right == Ty::INT;
    let bools = left == Ty::BOOL && right == Ty::BOOL;
    let same = left == right;
    match operator {
        Operator::Add => operands(same && left != Ty::BOOL, at, left),
        Operator::Subtract | Operator::Multiply | Operator::Divide | Operator::Remainder => {
            operands(ints, at, Ty::INT)
        }
        Operator::Less | Operator::LessEqual | Operator::Greater | Operator::GreaterEqual => {
            operands(ints, at, Ty::BOOL)
        }
        Operator::Equal | Operator::NotEqual => operands(same, at, Ty::BOOL),
        Operator::And | Operator::Or => operands(bools, at, Ty::BOOL),
    }
}
