use SnapEvent::{Begin, Cover, Freeze, Release, Reply, Thaw};
use cf_snapshot::{Snap, SnapEvent, snap_step};
use std::process::Abort;
use std::test::Fail;

#[test]
fn a_cut_of_two_hosts(rt: HostRuntime) -> Result<(), Fail> {
    let mut snap = Snap::new(rt.alloc(), 2)?;
    for (event, taken) in [
        (Cover(0), true),
        (Begin, true),
        (Freeze(0), true),
        (Cover(0), false),
        (Cover(1), true),
        (Release, false),
        (Freeze(1), true),
        (Reply(0), true),
        (Reply(1), true),
        (Reply(0), true),
        (Release, true),
    ] {
        assert!(rt; snap.cut().is_none());
        assert_eq!(rt; snap_step(&mut snap, event), taken);
    }
    assert_eq!(rt; snap.cut(), Some([1, 1].as_slice()));
    Ok(())
}
