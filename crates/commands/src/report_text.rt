//! What was read by a run on threads, in words.
ghost use Rattle.std.specs.Prelude.{◌≡◌, ◌++◌, OnOk};
ghost use Rattle.std.specs.Fmt.{decimal};
ghost use Rattle.commands.specs.ReportText.{report_line};

use crew::Report;
use std::alloc::AllocError;

/// The line of a report.
pub fn push_report(output: &mut Vec<u8>, report: &Report) -> Result<(), AllocError>
    ensures { OnOk result (output.new.items ≡ output.old.items ++ report_line report.now) }
{
    push_count(output, b"writers ", report.writers)?;
    push_count(output, b" writes ", report.writes)?;
    push_count(output, b" bytes ", report.bytes)?;
    let ending = if report.in_order {
        b" in order\n".as_slice()
    } else {
        b" out of order\n".as_slice()
    };
    output.extend_from_slice(ending)
}

/// A word and a number.
fn push_count(output: &mut Vec<u8>, word: &[u8], count: u64) -> Result<(), AllocError>
    ensures { OnOk result (output.new.items ≡ output.old.items ++ word.now ++ decimal count) }
{
    let digits = count.to_string(*output.allocator())?;
    output.extend_from_slice(word)?;
    output.extend_from_slice(digits.as_bytes())
}
