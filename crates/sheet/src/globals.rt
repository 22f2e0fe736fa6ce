// The globals of a sheet.
ghost use Rattle.std.specs.Prelude.{◌≡◌, length, slice_index};
ghost use Rattle.sheet.specs.Outcome.{Said};
ghost use Rattle.sheet.specs.Fields.{eight};
ghost use Rattle.sheet.specs.Globals.{first_value, global_reads};

use crate::item::{Item, Known};
use crate::refusal::Refusal;
use crate::span::Span;
use xi::node::Ty;
use xi::program::GlobalVariable;

// The first value of a global of that type.
fn first_value(span: Span, ty: Ty) -> Result<Option<i64>, Refusal>
    requires { length span.bytes.now ≡ 12 }
    ensures { Said result (λ v. v) (first_value span.entry.at ty.number (slice_index span.entry.bytes.now 3) (eight span.entry.bytes.now 4)) }
{
    let value = span.eight(4);
    match span.bytes[3] {
        0 if value == 0 => Ok(None),
        1 if ty == Ty::INT || ty == Ty::BOOL && value <= 1 => Ok(Some(value.cast_signed())),
        _ => Err(span.out_of_range()),
    }
}

impl Item for GlobalVariable {
    ghost SIZE = { 12 };

    ghost reads = { λ k. global_reads k.names k.constants.now k.entries };

    const SIZE: usize = 12;

    fn read(known: Known, span: Span) -> Result<GlobalVariable, Refusal> {
        let name = known.name(span, 0)?;
        let ty = span.ty(2)?;
        let first = first_value(span, ty)?;
        Ok(GlobalVariable { name, ty, first })
    }
}
