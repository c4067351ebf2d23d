// The lines that are written for a text of test vectors.
ghost use Rattle.std.specs.Prelude.{◌≡◌, ◌++◌, take, IfOk, string_bytes, OnOk};
ghost use Rattle.vector_report.specs.Report.{Reports, judged_line, malformed_line};

use crate::groups::{Groups, Malformed};
use crate::judge::judge;
use crate::verdict::Verdict;
use std::alloc::{AllocError, Global};

// No more of an input is read.
pub const LIMIT: usize = 65536;

fn write_judged(out: &mut String, number: usize, verdict: Verdict) -> Result<(), AllocError>
    ensures { OnOk result (string_bytes out.new ≡ string_bytes out.old ++ judged_line number verdict) }
{
    let Verdict { byte, word, long } = verdict;
    writeln!(out, "group={number} byte={byte} word={word} long={long}")
}

fn write_malformed(out: &mut String, number: usize) -> Result<(), AllocError>
    ensures { OnOk result (string_bytes out.new ≡ string_bytes out.old ++ malformed_line number) }
{
    writeln!(out, "group={number} malformed")
}

// Reports the groups from the first one on; reads at most the first 65,536 bytes of the input.
pub fn report(heap: Global, input: &[u8]) -> Result<String, AllocError>
    ensures { IfOk result (λ out. Reports 1 (take 65536 input.now) (string_bytes out)) }
{
    let mut out = String::new(heap);
    let groups = Groups {
        rest: limited(input),
    };
    for (i, group) in groups.enumerate() {
        match group {
            Ok(group) => write_judged(&mut out, i + 1, judge(&group))?,
            Err(Malformed) => write_malformed(&mut out, i + 1)?,
        }
    }
    Ok(out)
}

// At most the first 65,536 bytes.
fn limited(input: &[u8]) -> &[u8]
    ensures { result.now ≡ take 65536 input.now }
{
    input.get(..LIMIT).unwrap_or(input)
}
