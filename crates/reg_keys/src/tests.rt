//! An opening and its token, and what an event is made of.
use crate::{Event, Opening};
use std::test::Fail;

#[test]
fn an_opening_comes_back_from_its_token(rt: HostRuntime) -> Result<(), Fail> {
    let rows: [(u64, u16, u64); 4] = [
        (32, 0, 4096),
        (33, 1, 4224),
        (163, 35, 20865),
        ((1 << 57) - 1, 4095, u64::MAX),
    ];
    for (number, fd, token) in rows.iter() {
        let opening = Opening {
            number: *number,
            fd: *fd,
        };
        assert!(rt; opening.token() == *token);
        assert!(rt; Opening::of_token(*token) == opening);
    }
    Ok(())
}

#[test]
fn an_event_shows_and_gives_what_it_was_made_of(rt: HostRuntime) -> Result<(), Fail> {
    let opening = Opening { number: 32, fd: 0 };
    let event = Event::named(opening, 96);
    assert!(rt; event.opening() == opening);
    assert!(rt; event.number() == 96);
    let (same, number) = event.into_parts();
    assert!(rt; same == opening);
    assert!(rt; number == 96);
    Ok(())
}
