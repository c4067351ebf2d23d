// Judges a group, on every path by one function.
ghost use Rattle.vector_groups.specs.declared.group.Group.{Group};
ghost use Rattle.vector_report.specs.Report.{Judges, Judged};

use crate::verdict::{Agreement, Verdict};
use camellia_byte::ByteCamellia;
use camellia_long::cipher::LongCamellia;
use camellia_word::WordCamellia;
use engine::Engine;
use vector_groups::group::Group;

fn agreement<E: Engine + Drop>(group: &Group) -> Agreement
    ensures { Judges E.Engine.takes E.Engine.cipher E.Engine.inverse group.now result }
{
    let mut engine = E::new();
    let Ok(()) = engine.load(group.key.bytes()) else {
        return Agreement::Differs;
    };
    let mut forth = group.plain;
    engine.encipher(&mut forth);
    let mut back = group.cipher;
    engine.decipher(&mut back);
    if forth == group.cipher && back == group.plain {
        Agreement::Same
    } else {
        Agreement::Differs
    }
}

pub(crate) fn judge(group: &Group) -> Verdict
    ensures { Judged group.now result }
{
    Verdict {
        byte: agreement::<ByteCamellia>(group),
        word: agreement::<WordCamellia>(group),
        long: agreement::<LongCamellia>(group),
    }
}
