//! Rows: a call with its arguments, ` -> `, and the answer that is due.
use crate::out::Out;
use std::alloc::Global;
use std::io;

/// Reads rows from standard input, and prints each whose call gives another answer, and last how
/// many there were and how many differ.
pub fn run<F: Fn(&mut Out, &str)>(rt: &HostRuntime, answer: F) -> io::Result<()>
    requires { F.IsAlwaysCallable answer }
{
    let text = io::read_to_string(rt.alloc(), rt.stdin())?;
    let report = report(rt.alloc(), text.as_str(), answer);
    let report = report.as_str();
    print!(rt; "{report}")
}

/// What is printed.
fn report<F: Fn(&mut Out, &str)>(alloc: Global, text: &str, answer: F) -> Out
    requires { F.IsAlwaysCallable answer }
{
    let mut report = Out::new(alloc);
    let mut rows = 0usize;
    let mut differ = 0usize;
    for (index, line) in text.lines().enumerate() {
        if is_row(line) {
            let (call, due) = line.split_once(" -> ").unwrap_or((line, ""));
            let mut got = Out::new(alloc);
            answer(&mut got, call);
            let differs = compare(&mut report, index, call, [got.as_str(), due]);
            rows = rows.wrapping_add(1);
            differ = differ.wrapping_add(usize::from(differs));
        }
    }
    report.show(&rows);
    report.text(" rows, ");
    report.show(&differ);
    report.text(" differ\n");
    report
}

/// Whether the line is a row: no comment, and not empty.
fn is_row(line: &str) -> bool {
    !line.is_empty() && !line.starts_with('#')
}

/// Whether the answer to a call isn't the one that is due. If so, the report has the number of the
/// line, the call and the answer. No answer is empty, so a row without one that is due differs.
fn compare(report: &mut Out, index: usize, call: &str, [got, due]: [&str; 2]) -> bool {
    if got == due {
        return false;
    }
    report.show(&index.wrapping_add(1));
    report.text(": ");
    report.text(call);
    report.text(" -> ");
    report.text(got);
    report.text("\n");
    true
}
