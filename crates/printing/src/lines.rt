ghost use Rattle.std.specs.Prelude.{OnOk};
ghost use Rattle.printing.specs.Lines.{Adds, after_tenth, each_spaced, exchange_line, fault_line, first_line, spaced, trunk_line};

use super::printed::{OrDash, Printed};
use std::alloc::AllocError;

// The first line of a run; `word` says how it ended.
pub fn print_first(
    out: &mut String,
    home: u16,
    word: &str,
    passes: u64,
    scans: u64,
) -> Result<(), AllocError>
    ensures { OnOk result (Adds (first_line home word.now passes scans) out.old out.new) }
{
    writeln!(out, "home {home} {word} passes {passes} scans {scans}")
}

// The line of a fault: its layer, its number and the offset of its place. The layer is a number here: printing knows no
// tape.
pub fn print_fault(out: &mut String, layer: u16, number: u16, at: usize) -> Result<(), AllocError>
    ensures { OnOk result (Adds (fault_line layer number at) out.old out.new) }
{
    writeln!(out, "fault {layer} {number} at {at}")
}

// The line of an exchange.
pub fn print_exchange<L: Printed>(
    out: &mut String,
    x: u16,
    label: Option<L>,
    arrival: Option<u16>,
) -> Result<(), AllocError>
    ensures { OnOk result (Adds (exchange_line L.printed x label arrival) out.old out.new) }
{
    writeln!(out, "{x} {} {}", OrDash(label), OrDash(arrival))
}

// The blank line that follows every tenth of the exchange lines.
pub fn print_blank(out: &mut String, x: u16) -> Result<(), AllocError>
    ensures { OnOk result (Adds (after_tenth x) out.old out.new) }
{
    if x % 10 == 9 {
        out.push_str("\n")?;
    }
    Ok(())
}

// These numbers, each after a space.
fn print_spaced(out: &mut String, numbers: &[u16]) -> Result<(), AllocError>
    ensures { OnOk result (Adds (each_spaced numbers.now) out.old out.new) }
{
    for t in numbers {
        write!(out, " {t}")?;
    }
    Ok(())
}

// These numbers, with single spaces between them.
fn print_numbers(out: &mut String, numbers: &[u16]) -> Result<(), AllocError>
    ensures { OnOk result (Adds (spaced numbers.now) out.old out.new) }
{
    let [first, rest @ ..] = numbers else {
        return Ok(());
    };
    write!(out, "{first}")?;
    print_spaced(out, rest)
}

// The line of a loop: the numbers of its trunks.
pub fn print_trunks(out: &mut String, trunks: &[u16]) -> Result<(), AllocError>
    ensures { OnOk result (Adds (trunk_line trunks.now) out.old out.new) }
{
    print_numbers(out, trunks)?;
    out.push_str("\n")
}
