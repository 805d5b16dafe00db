// An operand as four words, and back.
ghost use Rattle.std.specs.Prelude.{◌≡◌};
ghost use Rattle.record_arrays.specs.RecordArray.{quad_of, operand_of, operand_at};

use crate::{Quad, RecordArray};
use word::Operand;

impl From<Operand> for Quad {
    ghost from_gives = { λ operand q. q ≡ quad_of operand };

    fn from(operand: Operand) -> Quad {
        match operand {
            Operand::Constant { rotate, value } => Quad {
                kind: 0,
                first: rotate,
                second: value,
                third: 0,
            },
            Operand::ShiftByAmount { rm, shift, amount } => Quad {
                kind: 1,
                first: rm,
                second: shift,
                third: amount,
            },
            Operand::ShiftByRegister { rm, shift, rs } => Quad {
                kind: 2,
                first: rm,
                second: shift,
                third: rs,
            },
        }
    }
}

impl From<Quad> for Operand {
    ghost from_gives = { λ q operand. operand ≡ operand_of q };

    fn from(q: Quad) -> Operand {
        match q.kind {
            0 => Operand::Constant {
                rotate: q.first,
                value: q.second,
            },
            1 => Operand::ShiftByAmount {
                rm: q.first,
                shift: q.second,
                amount: q.third,
            },
            _ => Operand::ShiftByRegister {
                rm: q.first,
                shift: q.second,
                rs: q.third,
            },
        }
    }
}

pub fn operand_at(words: &RecordArray) -> Operand
    ensures { result ≡ operand_at words.now }
{
    Operand::from(Quad {
        kind: words[10],
        first: words[11],
        second: words[12],
        third: words[13],
    })
}
