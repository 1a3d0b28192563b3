//! Tickets that are gone on with.
use super::{
    COPY, INSERTED, LATER, LATER_COPY, LEAVES, Other, TABLE, node_with, run, sizes, word_at,
};
use remote_resize::ResizeOp;
use split_text::{ResizeOutcome, Ticket};
use std::process::Abort;
use std::test::Fail;
use verb_log::Verb;

// The ticket of a split that has ended with one.
fn ticket_of(outcome: Option<ResizeOutcome>) -> Option<Ticket> {
    match outcome {
        Some(ResizeOutcome::Again { ticket }) => ticket,
        _ => None,
    }
}

// Another client updates the key before the verb of this number, which is the Flip, by a block at 95.
fn updated(number: u64) -> [Other; 5] {
    [
        (number, 0, 98),
        (number, 95, 65_537),
        (number, 96, 107),
        (number, 97, 120),
        (number, 25, LATER),
    ]
}

// The Flip is lost to an update or to a Remove. A split that may lose another swap goes on at once; one that may not ends with a
// ticket that tells the word found and the copy, and a call that goes on with it does the same verbs.
#[test]
fn goes_on_after_a_lost_flip(rt: HostRuntime) -> Result<(), Fail> {
    let update = updated(19);
    let remove: [Other; 1] = [(19, 25, 0)];
    // what is written, the word found, the first verb of going on, its verbs, and what stands in the child then
    let rows: [(&[Other], u64, Verb, usize, u64); 2] = [
        (&update, LATER, Verb::Read { at: 95 }, 42, LATER),
        (
            &remove,
            0,
            Verb::Swap {
                at: 72,
                expected: COPY,
                word: 0,
            },
            36,
            0,
        ),
    ];
    for (others, found, first, count, child) in rows {
        let mut node = node_with(rt.alloc(), &INSERTED)?;
        let mut whole = ResizeOp::start(sizes()?, 0, TABLE, 0, 0, 2);
        let verbs = run(rt.alloc(), &mut node, &mut whole, LEAVES, others)?;
        let is_split = matches!(whole.outcome(), Some(ResizeOutcome::Split { .. }));
        assert!(rt; is_split && whole.lost() == 1, "whole to {found}");
        assert!(rt; verbs.len() == 19 + count, "{verbs:?}");
        let mut node = node_with(rt.alloc(), &INSERTED)?;
        let mut split = ResizeOp::start(sizes()?, 0, TABLE, 0, 0, 1);
        let verbs = run(rt.alloc(), &mut node, &mut split, LEAVES, others)?;
        assert!(rt; verbs.len() == 19 && split.lost() == 1, "{verbs:?}");
        let ticket = ticket_of(split.outcome()).ok_or("no ticket")?;
        assert!(rt;
            ticket.slot == 0 && ticket.word == found && ticket.copy == COPY,
            "ticket to {found}"
        );
        let mut rest = ResizeOp::go_on(ticket, 1);
        let verbs = run(rt.alloc(), &mut node, &mut rest, LEAVES, &[])?;
        assert!(rt;
            verbs.len() == count && verbs.first() == Some(&first),
            "{verbs:?}"
        );
        let is_split = matches!(
            rest.outcome(),
            Some(ResizeOutcome::Split {
                table: TABLE,
                depth: 1
            })
        );
        assert!(rt; is_split && rest.lost() == 0, "rest to {found}");
        assert!(rt;
            word_at(&mut node, 72) == Some(child) && word_at(&mut node, 25) == Some(0),
            "words to {found}"
        );
    }
    Ok(())
}

// Going on may lose its Flip again: the next ticket tells the copy that stands then.
#[test]
fn keeps_the_ticket(rt: HostRuntime) -> Result<(), Fail> {
    let update = updated(19);
    let mut node = node_with(rt.alloc(), &INSERTED)?;
    let mut split = ResizeOp::start(sizes()?, 0, TABLE, 0, 0, 1);
    let verbs = run(rt.alloc(), &mut node, &mut split, LEAVES, &update)?;
    assert!(rt; verbs.len() == 19);
    let ticket = ticket_of(split.outcome()).ok_or("no ticket")?;
    let mut rest = ResizeOp::go_on(ticket, 1);
    let verbs = run(rt.alloc(), &mut node, &mut rest, LEAVES, &[(5, 25, 0)])?;
    let next = ticket_of(rest.outcome()).ok_or("no ticket")?;
    assert!(rt; verbs.len() == 5 && rest.lost() == 1, "{verbs:?}");
    assert!(rt; next.slot == 0 && next.word == 0 && next.copy == LATER_COPY);
    Ok(())
}
