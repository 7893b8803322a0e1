//! The ring of reports.
use crate::{REPORTS, Reports};
use reg_keys::{Dirs, Opening};
use std::test::Fail;

#[test]
fn a_ring_takes_its_fill_and_gives_in_order(rt: HostRuntime) -> Result<(), Fail> {
    let mut reports = Reports::new(rt.alloc())?;
    for fd in 0..REPORTS as u16 {
        let taken = reports.push(Opening { number: 32, fd }, Dirs::Read);
        assert!(rt; taken);
    }
    let refused = reports.push(Opening { number: 64, fd: 0 }, Dirs::Both);
    assert!(rt; !refused);
    assert_eq!(rt; reports.len(), REPORTS);
    let Some((first, _)) = reports.pop_first() else {
        return Err("no report")?;
    };
    assert_eq!(rt; first.fd, 0);
    let again = reports.push(Opening { number: 64, fd: 9 }, Dirs::Both);
    assert!(rt; again);
    reports.clear();
    assert_eq!(rt; reports.len(), 0);
    assert!(rt; reports.pop_first().is_none());
    Ok(())
}
