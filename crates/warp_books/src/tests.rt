//! A book of sums that is handed made-up connections.
ghost use Rattle.std.specs.Prelude.{None};
ghost use Rattle.outside.specs.Counts.{nothing_counted};

use crate::{Book, Ended, Finish, SumBook, Turned};
use conn_loop::End;
use std::test::Fail;

/// A connection that is known by its end and its numbers.
#[derive(Drop)]
struct Done {
    end: Finish,
    moments: Vec<u64>,
    bytes: u64,
    waits: u64,
}

impl Ended for Done {
    ghost told = { λ d. record {
      opening = record { number = 0; fd = 0 };
      link = record {
        taken = None;
        sent = None;
        ended = None;
        plan = None;
        faults = nothing_counted;
        waits = nothing_counted;
      };
      moments = d.moments.items;
      bytes = d.bytes;
      waits = d.waits;
      end = d.end;
    } };

    fn end(&self) -> Finish {
        self.end
    }

    fn moments(&self) -> u64 {
        self.moments.len() as u64
    }

    fn bytes(&self) -> u64 {
        self.bytes
    }

    fn waits(&self) -> u64 {
        self.waits
    }
}

#[test]
fn a_book_counts_each_kind_and_adds_up(rt: HostRuntime) -> Result<(), Fail> {
    let mut book = SumBook::new();
    let ends = [
        Finish::Ended(End::Clean),
        Finish::TimedOut,
        Finish::TurnedAway(Turned::Watches),
        Finish::Ended(End::Clean),
    ];
    for end in ends {
        let moments = vec![in rt.alloc(); 7; 3]?;
        book.finished(Done {
            end,
            moments,
            bytes: 100,
            waits: 2,
        });
    }
    assert_eq!(rt; book.ends(Finish::Ended(End::Clean)), 2);
    assert_eq!(rt; book.ends(Finish::Ended(End::Cut)), 0);
    assert_eq!(rt; book.ends(Finish::TimedOut), 1);
    assert_eq!(rt; book.ends(Finish::TurnedAway(Turned::Watches)), 1);
    assert_eq!(rt; book.ends(Finish::TurnedAway(Turned::Shut)), 0);
    assert_eq!(rt; (book.moments(), book.bytes(), book.waits()), (12, 400, 8));
    Ok(())
}

#[test]
fn a_sum_stops_at_the_most_that_a_number_holds(rt: HostRuntime) -> Result<(), Fail> {
    let mut book = SumBook::new();
    for bytes in [u64::MAX - 1, 1, 1] {
        book.finished(Done {
            end: Finish::Ended(End::Cut),
            moments: Vec::new(rt.alloc()),
            bytes,
            waits: 0,
        });
    }
    assert_eq!(rt; book.bytes(), u64::MAX);
    assert_eq!(rt; book.ends(Finish::Ended(End::Cut)), 3);
    Ok(())
}
