//! Calls of a single inbox: what a report of drops has. Other lists of calls are worked rows of
//! proofs/rows/RowsInboxes.antt.
use data_dropped::{Arrival, DropBytes, Inbox};
use seq_circle::Seq48;
use std::test::Fail;

fn arrives(inbox: &mut Inbox, number: u64, answer: Arrival) -> bool {
    match Seq48::new(number) {
        Some(number) => inbox.arrived(number, b"data") == answer,
        None => false,
    }
}

// Whether each number from the first up to the second comes to this.
fn all_arrive(inbox: &mut Inbox, first: u64, past: u64, answer: Arrival) -> bool {
    for number in first..past {
        if !arrives(inbox, number, answer) {
            return false;
        }
    }
    true
}

// 1 and 2 are held, and each of 3 to 19 is dropped.
fn fills(inbox: &mut Inbox) -> bool {
    all_arrive(inbox, 1, 3, Arrival::Kept) && all_arrive(inbox, 3, 20, Arrival::Dropped(2))
}

fn takes(inbox: &mut Inbox, number: u64) -> bool {
    let mut into = [0; 1024];
    match inbox.take(&mut into) {
        Some((taken, count)) => taken.get() == number && count == 4 && into.starts_with(b"data"),
        None => false,
    }
}

// The number 20 without a drop, and then 17 numbers with code 2.
fn reports(inbox: &Inbox) -> bool {
    let Some(number) = Seq48::new(20) else {
        return false;
    };
    let mut out = DropBytes::new();
    inbox.write(&mut out, number) && out.as_slice() == [0x00, 0xaf, 0xa0].as_slice()
}

// The report is the same before and after both items are taken; the inbox is slow only before.
fn is_emptied(inbox: &mut Inbox) -> bool {
    let before = fills(inbox) && inbox.slow() && reports(inbox);
    let taken = takes(inbox, 1) && takes(inbox, 2);
    before && taken && !inbox.slow() && reports(inbox)
}

#[test]
fn drops_of_an_inbox(rt: HostRuntime) -> Result<(), Fail> {
    let emptied = is_emptied(&mut Inbox::new(rt.alloc(), 2)?);
    assert!(rt; emptied);
    Ok(())
}
