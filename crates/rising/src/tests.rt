//! Calls that start again.
use crate::{Rise, RiseEnd, Start};
use std::test::Fail;
use verbs::Call;

// Each row: the tries, the answers to the verbs in order (depths read, words that swaps found), and how the call ends.
#[test]
fn ends_by_answers(rt: HostRuntime) -> Result<(), Fail> {
    let rows: [(u32, &[u64], Option<RiseEnd>); 5] = [
        (1, &[0, 0], Some(RiseEnd::Won { depth: 0 })),
        (1, &[4, 4, 0], Some(RiseEnd::Won { depth: 4 })),
        (1, &[4, 4, 9], Some(RiseEnd::Spent)),
        (2, &[0, 9, 3, 3, 0], Some(RiseEnd::Won { depth: 3 })),
        (2, &[0, 9, 3], None),
    ];
    for (tries, answers, end) in rows {
        let start = Start {
            tries,
            depth: 0,
            lost: 0,
        };
        assert!(rt; start.lost < start.tries);
        let mut call = Rise::start(start);
        for answer in answers {
            assert!(rt; call.next().is_some());
            call.feed(*answer);
        }
        assert_eq!(rt; call.answer(), end);
    }
    Ok(())
}
