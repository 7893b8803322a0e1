//! Listeners that give links, and one that gives none.
ghost use Rattle.std.specs.Prelude.{None};

use super::OPENING;
use crate::Listening;
use outside::{AcceptOut, Count, Listener};
use poller::{MemLink, MemNet, Script};
use std::test::Fail;

/// A listener whose accepts all fail.
#[derive(Drop)]
struct Deaf {
    faults: Count,
}

impl Listener for Deaf {
    ghost use Rattle.std.proofs.Common.{arith};

    type Link = MemLink;

    ghost told = { λ listener. record {
      accepted = 0;
      waits = 0;
      faults = listener.faults.n;
      failed_row = listener.faults.n;
      plans = None;
    } };

    fn accept(&mut self) -> AcceptOut<MemLink> {
        self.faults.rise();
        AcceptOut::Failed
    }

    ghost plans_apart = { λ _. tt };

    ghost row_fits = { λ _. Prim.omega arith };

    ghost accepted_fits = { λ _. Prim.omega arith };

    ghost waits_fit = { λ _. Prim.omega arith };

    ghost faults_fit = { λ listener. listener.faults.fits };
}

#[test]
fn a_listener_is_broken_once_1000_accepts_in_a_row_failed(rt: HostRuntime) -> Result<(), Fail> {
    let mut listening = Listening::new(
        OPENING,
        Deaf {
            faults: Count::new(),
        },
    );
    for _ in 0..999 {
        let _ = listening.accept();
    }
    assert!(rt; !listening.is_broken());
    let _ = listening.accept();
    assert!(rt; listening.is_broken());
    assert_eq!(rt; listening.into_listener().faults.now(), 1_000);
    Ok(())
}

#[test]
fn links_that_a_listener_gave_are_counted(rt: HostRuntime) -> Result<(), Fail> {
    let alloc = rt.alloc();
    let script = Script {
        steps: Vec::new(alloc),
        room: 100,
    };
    let (listener, _pollers) = MemNet::new(alloc, vec![in alloc; script]?, 1)?;
    let mut listening = Listening::new(OPENING, listener);
    assert!(rt; matches!(listening.accept(), AcceptOut::Accepted(_)));
    assert!(rt; matches!(listening.accept(), AcceptOut::NotYet));
    assert_eq!(rt; listening.accepted(), 1);
    assert_eq!(rt; listening.opening().fd, 7);
    Ok(())
}
