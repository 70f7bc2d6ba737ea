//! The lines of the replies.
use co_batch_text::sleep::{print_reply, print_ticked};
use co_sbt::NoMemory;
use co_sleepq::{End, SleepReply, Ticked};
use co_text::Page;

static REPLIES: [SleepReply; 9] = [
    SleepReply::Began(18_446_744_073_709_551_614),
    SleepReply::Already,
    SleepReply::Woke(2),
    SleepReply::One(1023),
    SleepReply::Nobody,
    SleepReply::Asleep,
    SleepReply::Was(End::Never),
    SleepReply::Was(End::Woken),
    SleepReply::Was(End::TimedOut),
];

/// The lines of these replies and of a tick.
fn print(page: &mut Page) -> Result<(), NoMemory> {
    for reply in &REPLIES {
        print_reply(page, *reply)?;
    }
    print_ticked(page, Ticked { out: 1, late: 2 })
}

#[test]
fn each_reply_has_a_line(rt: HostRuntime) {
    let mut page = Page::new(rt.alloc());
    print(&mut page).expect(&rt, "no memory");
    let text = page.done().expect(&rt, "no memory");
    let wanted =
        b"began 18446744073709551614\nalready\nwoke 2\none 1023\nnobody\nasleep\nnever\nwoken\ntimedout\nticked 1 2\n".as_slice();
    let same = text.as_slice() == wanted;
    drop(text);
    assert!(rt; same);
}
