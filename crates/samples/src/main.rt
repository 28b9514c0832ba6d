// Worked examples: proved together from the rules, and others run by the code.
#![tactic(auto)]

mod worked;

use book::making::fit;
use book::{Book, Space};
use lengths::charge::Charge;
use orders::topological_order::Topological;
use whole_run::running_out::run_whole;
use worked::worked_examples;

// From, to and charge of each trunk; `first_run` has them too, and no crate is worth five numbers.
const TRUNKS: [(u16, u16, i32); 5] = [(0, 2, 7), (0, 1, 4), (1, 2, -2), (2, 3, 3), (3, 1, 0)];

// How many exchanges make a book.
fn show_fit(rt: &impl Print) -> std::io::Result<()> {
    let lengths = [Charge::of(0); 257];
    for n in 256..258 {
        match fit(n, &lengths) {
            Ok(()) => println!(rt; "{n} exchanges: Fit")?,
            Err(refusal) => println!(rt; "{n} exchanges: {refusal:?}")?,
        }
    }
    Ok(())
}

fn lay_all(book: &mut Book, lengths: &mut [Charge]) {
    for (from, to, mills) in TRUNKS {
        let _ = book.lay(lengths, from, to, Charge::of(mills));
    }
}

// The route to exchange 3, into this list.
fn show_route(
    rt: &impl Print,
    book: &Book,
    lengths: &[Charge],
    trunks: &mut [u16],
) -> std::io::Result<()> {
    let size = trunks.len();
    match book.route(lengths, 3, trunks) {
        Ok(count) => println!(rt; "a list of {size}: {count} trunks, {trunks:?}"),
        Err(refusal) => {
            let number = refusal.number();
            println!(rt; "a list of {size}: refusal {number}")
        }
    }
}

fn run(rt: &HostRuntime) -> anyhow::Result<()> {
    worked_examples();
    show_fit(rt)?;
    let mut lengths = [Charge::of(0); 9];
    let mut book = Book::new(Space::take(rt.alloc())?, 1, 4);
    lay_all(&mut book, &mut lengths);
    let _ = run_whole(&mut book, &mut lengths, &Topological, 0);
    show_route(rt, &book, &lengths, &mut [0; 3])?;
    show_route(rt, &book, &lengths, &mut [0; 2])?;
    Ok(())
}

fn main(rt: HostRuntime) -> anyhow::Result<()> {
    run(&rt)
}
