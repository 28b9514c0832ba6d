use super::stories::close;
use book::making::fit;
use book::refusal::{Refusal, Refused};
use book::{Book, Space};
use lengths::charge::Charge;
use orders::queue_order::Queue;
use replay::replaying::replay;
use replay::{Answer, Call, Line};
use std::alloc::Global;
use std::test::Fail;

// The number of the refusal, if there is one.
fn refused<T: Drop>(res: Result<T, Refusal>) -> Option<u16> {
    res.err().map(Refusal::number)
}

// Makes the calls on a new book of `n` exchanges, and hands the book on.
fn made(
    heap: Global,
    n: usize,
    lengths: &mut [Charge],
    calls: &[Call<Charge>],
    answers: &mut [Result<Answer, Refusal>],
) -> Result<Book, Fail> {
    let mut lines = [Line::BLANK; 300];
    let mut looped = [0u16; 300];
    let space = Space::take(heap)?;
    match replay(
        space,
        1,
        n,
        lengths,
        &Queue,
        calls,
        answers,
        &mut lines,
        &mut looped,
    ) {
        Err(
            Refused {
                refusal: _,
                back: _,
            },
        ) => Err(Fail::new("the lists are too short")),
        Ok(replayed) => Ok(close(replayed, lengths).0),
    }
}

const CHEAP: i32 = 1;

const DEAR: i32 = 1_000_001;

fn lay(from: u16, to: u16, mills: i32) -> Call<Charge> {
    Call::Lay {
        from,
        to,
        length: Charge::of(mills),
    }
}

#[test]
fn what_can_make_a_book(rt: HostRuntime) {
    let lengths = [Charge::of(0); 256];
    assert_eq!(rt; fit(0, &lengths), Err(Refusal::BadSize));
    assert_eq!(rt; fit(257, &lengths), Err(Refusal::BadSize));
    assert_eq!(rt; fit(256, &lengths), Ok(()));
    assert_eq!(rt; fit(256, &lengths[0..255]), Err(Refusal::ShortList));
}

#[test]
fn a_void_book_refuses_all(rt: HostRuntime) -> Result<(), Fail> {
    let mut lengths = [Charge::of(0); 2];
    let calls = [lay(9, 9, DEAR), Call::Begin { home: 9 }];
    let mut answers = [Ok(Answer::Skipped); 2];
    let book = made(rt.alloc(), 257, &mut lengths, &calls, &mut answers)?;
    assert_eq!(rt; refused(answers[0]), Some(3));
    assert_eq!(rt; refused(answers[1]), Some(3));
    assert_eq!(rt; refused(book.charge(&lengths, 0)), Some(3));
    Ok(())
}

#[test]
fn a_lay_is_refused_in_order(rt: HostRuntime) -> Result<(), Fail> {
    let mut lengths = [Charge::of(0); 3];
    let calls = [
        lay(2, 0, DEAR),
        lay(0, 1, DEAR),
        lay(0, 1, CHEAP),
        lay(0, 1, DEAR),
        lay(0, 1, CHEAP),
        Call::Begin { home: 0 },
        lay(2, 0, DEAR),
    ];
    let mut answers = [Ok(Answer::Skipped); 7];
    let _ = made(rt.alloc(), 2, &mut lengths, &calls, &mut answers)?;
    assert_eq!(rt; refused(answers[0]), Some(5));
    assert_eq!(rt; refused(answers[1]), Some(6));
    assert_eq!(rt; refused(answers[2]), None);
    assert_eq!(rt; refused(answers[3]), Some(6));
    assert_eq!(rt; refused(answers[4]), Some(7));
    assert_eq!(rt; refused(answers[6]), Some(4));
    Ok(())
}

#[test]
fn changes_and_steps_are_refused_in_order(rt: HostRuntime) -> Result<(), Fail> {
    let mut lengths = [Charge::of(0); 4];
    let calls = [
        Call::Reprice {
            trunk: 0,
            length: Charge::of(DEAR),
        },
        lay(0, 1, CHEAP),
        Call::Reprice {
            trunk: 0,
            length: Charge::of(DEAR),
        },
        Call::Bar { trunk: 1 },
        Call::Begin { home: 2 },
        Call::Begin { home: 0 },
        Call::Begin { home: 2 },
        Call::Finish,
        Call::Pass,
        Call::Pass,
        Call::Pass,
    ];
    let mut answers = [Ok(Answer::Skipped); 11];
    let _ = made(rt.alloc(), 2, &mut lengths, &calls, &mut answers)?;
    assert_eq!(rt; refused(answers[0]), Some(8));
    assert_eq!(rt; refused(answers[2]), Some(6));
    assert_eq!(rt; refused(answers[3]), Some(8));
    assert_eq!(rt; refused(answers[4]), Some(5));
    assert_eq!(rt; refused(answers[6]), Some(4));
    assert_eq!(rt; refused(answers[7]), Some(12));
    assert_eq!(rt; refused(answers[10]), Some(11));
    Ok(())
}

#[test]
fn a_settled_run_is_read(rt: HostRuntime) -> Result<(), Fail> {
    let mut lengths = [Charge::of(0); 5];
    let calls = [
        lay(0, 1, -CHEAP),
        Call::Begin { home: 0 },
        Call::Pass,
        Call::Pass,
        Call::Finish,
    ];
    let mut answers = [Ok(Answer::Skipped); 5];
    let book = made(rt.alloc(), 3, &mut lengths, &calls, &mut answers)?;
    let mut none: [u16; 0] = [];
    assert_eq!(rt; refused(book.charge(&lengths[0..3], 9)), Some(2));
    assert_eq!(rt; refused(book.charge(&lengths, 9)), Some(5));
    assert_eq!(rt; refused(book.route(&lengths, 9, &mut none)), Some(5));
    assert_eq!(rt; refused(book.route(&lengths, 2, &mut none)), Some(16));
    assert_eq!(rt; refused(book.route(&lengths, 1, &mut none)), Some(17));
    assert_eq!(rt; refused(book.loop_trunks(&lengths, &mut none)), Some(15));
    let mut trunks = [7u16; 2];
    assert_eq!(rt; refused(book.route(&lengths, 1, &mut trunks)), None);
    assert_eq!(rt; trunks[0], 0);
    assert_eq!(rt; trunks[1], 7);
    Ok(())
}

#[test]
fn a_loop_is_read(rt: HostRuntime) -> Result<(), Fail> {
    let mut lengths = [Charge::of(0); 2];
    let calls = [
        lay(0, 0, -CHEAP),
        Call::Begin { home: 0 },
        Call::Pass,
        Call::Finish,
    ];
    let mut answers = [Ok(Answer::Skipped); 4];
    let book = made(rt.alloc(), 1, &mut lengths, &calls, &mut answers)?;
    let mut none: [u16; 0] = [];
    let mut trunks = [7u16; 1];
    assert_eq!(rt; refused(book.charge(&lengths, 9)), Some(14));
    assert_eq!(rt; refused(book.arrival(&lengths, 9)), Some(14));
    assert_eq!(rt; refused(book.loop_trunks(&lengths, &mut none)), Some(17));
    assert_eq!(rt; refused(book.loop_trunks(&lengths, &mut trunks)), None);
    assert_eq!(rt; trunks[0], 0);
    Ok(())
}
