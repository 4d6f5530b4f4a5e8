use crate::{default_matrix, start_registers};
use ps_fixed::apply;
use ps_kinds::{PageSide, Real, Settings};
use std::test::Fail;

/// A whole number as a real.
fn whole(n: i32) -> Real {
    Real {
        count: n as i64 * 16_777_216,
    }
}

#[test]
fn a_job_starts_with_its_settings(rt: HostRuntime) -> Result<(), Fail> {
    // At 144 dots per inch a point is two pixels, and the upper left pixel is the origin of the device.
    let matrix = default_matrix(144, 100);
    assert!(rt; apply(&matrix, whole(0), whole(50)).ok() == Some((whole(0), whole(0))));
    assert!(rt; apply(&matrix, whole(7), whole(0)).ok() == Some((whole(14), whole(100))));

    let settings = Settings {
        dpi: 144,
        width: 300,
        height: 100,
        keep: false,
    };
    let regs = start_registers(rt.alloc(), &settings)?;
    assert!(rt; regs.operands.is_empty());
    assert!(rt; regs.dicts.len() == 3);
    assert!(rt; regs.state.ctm == matrix);
    assert!(rt; regs.state.wide == PageSide::new(300));
    Ok(())
}
