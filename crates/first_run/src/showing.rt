use super::stories::Example;
use book::outcome::Ending;
use book::refusal::Refusal;
use lengths::charge::Charge;
use printing::printed::OrDash;
use replay::{Answer, Line, Read};
use std::io;

// What a call came to, where it answers nothing but that it is done.
pub fn show_done(rt: &impl Print, what: &str, res: Result<(), Refusal>) -> io::Result<()> {
    match res {
        Ok(()) => println!(rt; "{what}"),
        Err(refusal) => show_refusal(rt, what, refusal),
    }
}

pub fn show_refusal(rt: &impl Print, what: &str, refusal: Refusal) -> io::Result<()> {
    let number = refusal.number();
    println!(rt; "{what}: refused with {number}")
}

fn show_line(rt: &impl Print, x: usize, line: Line<Charge>) -> io::Result<()> {
    println!(rt; "  {x} {} {}", OrDash(line.charge), OrDash(line.arrival))
}

// A line for each exchange: its charge, and the trunk by which a call arrives.
pub fn show_charges(rt: &impl Print, example: &Example) -> io::Result<()> {
    let Example { book, lengths } = example;
    for x in 0..4 {
        match (book.charge(lengths, x), book.arrival(lengths, x)) {
            (Ok(charge), Ok(arrival)) => show_line(rt, x as usize, Line { charge, arrival })?,
            _ => println!(rt; "  {x} cannot be read")?,
        }
    }
    Ok(())
}

pub fn show_trunks(rt: &impl Print, what: &str, trunks: &[u16]) -> io::Result<()> {
    print!(rt; "  {what}:")?;
    for t in trunks {
        print!(rt; " {t}")?;
    }
    println!(rt; "")
}

// What a reading wrote into a list: so many trunks at its front, or a refusal.
fn show_written(
    rt: &impl Print,
    what: &str,
    count: Result<usize, Refusal>,
    trunks: &[u16],
) -> io::Result<()> {
    match count {
        Ok(count) => show_trunks(rt, what, trunks.get(..count).unwrap_or(trunks)),
        Err(refusal) => {
            print!(rt; "  ")?;
            show_refusal(rt, what, refusal)
        }
    }
}

fn show_route(rt: &impl Print, example: &Example) -> io::Result<()> {
    let mut trunks = [0u16; 4];
    let count = example.book.route(&example.lengths, 3, &mut trunks);
    show_written(rt, "route to 3", count, &trunks)
}

fn show_loop(rt: &impl Print, example: &Example) -> io::Result<()> {
    let mut trunks = [0u16; 4];
    let count = example.book.loop_trunks(&example.lengths, &mut trunks);
    show_written(rt, "loop", count, &trunks)
}

// How a run ended, and what can be read of it.
pub fn show_run(
    rt: &impl Print,
    what: &str,
    example: &Example,
    ending: Result<Option<Ending>, Refusal>,
) -> io::Result<()> {
    match ending {
        Ok(Some(Ending::Settled { passes, scans })) => {
            println!(rt; "{what}: settled, passes {passes}, scans {scans}")?;
            show_charges(rt, example)?;
            show_route(rt, example)
        }
        Ok(Some(Ending::Loop { passes, scans })) => {
            println!(rt; "{what}: loop, passes {passes}, scans {scans}")?;
            show_loop(rt, example)
        }
        Ok(None) => println!(rt; "{what}: abandoned"),
        Err(refusal) => show_refusal(rt, what, refusal),
    }
}

fn show_answer(rt: &impl Print, answer: Result<Answer, Refusal>) -> io::Result<()> {
    match answer {
        Err(refusal) => show_refusal(rt, "  answer", refusal),
        Ok(Answer::Skipped) => println!(rt; "  skipped"),
        Ok(Answer::Laid(t)) => println!(rt; "  trunk {t}"),
        Ok(Answer::Done) => println!(rt; "  done"),
        Ok(Answer::Passed(progress)) => println!(rt; "  {progress:?}"),
        Ok(Answer::Finished(ending)) => println!(rt; "  finished: {ending:?}"),
    }
}

pub fn show_answers(rt: &impl Print, answers: &[Result<Answer, Refusal>]) -> io::Result<()> {
    println!(rt; "a list of calls")?;
    for answer in answers {
        show_answer(rt, *answer)?;
    }
    Ok(())
}

// What a list of calls came to.
pub fn show_read(
    rt: &impl Print,
    read: Option<Read>,
    lines: &[Line<Charge>],
    looped: &[u16],
) -> io::Result<()> {
    match read {
        None => println!(rt; "  no run is finished"),
        Some(Read::Loop(count)) => show_written(rt, "loop", Ok(count), looped),
        Some(Read::Sheet) => {
            for (x, line) in lines.iter().enumerate() {
                show_line(rt, x, *line)?;
            }
            Ok(())
        }
    }
}
