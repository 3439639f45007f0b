//! A plant of three locations, and the numbers at both ends.
use crate::{GenStop, generate, plant_of};
use std::test::Fail;

const ONE: &[u8] =
    b"lhg 1\nvars x\nloc a1\ninv 0 <= x <= 10\nflow x = 1\nsafe x <= 8\nsafe x >= 9\nend\n";

const THREE: &[u8] = b"lhg 1\nvars x\nloc a1\ninv 0 <= x <= 10\nflow x = 1\nsafe x <= 8\nsafe x >= 9
loc a2\ninv 0 <= x <= 10\nflow x = 1\nsafe x <= 8\nsafe x >= 9
loc a3\ninv 0 <= x <= 10\nflow x = 1\nsafe x <= 8\nsafe x >= 9
switch g1 ctl a1 a2 keep\nswitch g2 ctl a2 a3 keep\nend\n";

#[test]
fn texts(rt: HostRuntime) -> Result<(), Fail> {
    for (k, text) in [(1, ONE), (3, THREE)] {
        let answer = plant_of(rt.alloc(), k)?;
        assert_eq!(rt; answer.as_slice(), text);
    }
    let most = plant_of(rt.alloc(), 64)?;
    assert!(rt;
        most.as_slice()
            .ends_with(b"switch g63 ctl a63 a64 keep\nend\n")
    );
    Ok(())
}

#[test]
fn plants(rt: HostRuntime) -> Result<(), Fail> {
    let plant = generate(rt.alloc(), 64)?;
    assert_eq!(rt; plant.locs.len(), 64);
    assert_eq!(rt; plant.switches.len(), 63);
    Ok(())
}

#[test]
fn out_of_range(rt: HostRuntime) -> Result<(), Fail> {
    for k in [0, 65] {
        let answer = plant_of(rt.alloc(), k);
        assert!(rt; matches!(answer, Err(GenStop::Range)));
    }
    Ok(())
}
