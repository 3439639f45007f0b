// Names at both ends of their length, and a set of states of one's own.
use crate::laws::{law_monotone, law_secure_sets, law_still_sets};
use crate::{Location, Name, Plant, State, StateSet};
use lhg_num::Wide;
use lhg_row::Point;
use std::test::Fail;

// The states of one location.
struct Here(u32);

impl StateSet for Here {
    ghost use Rattle.std.specs.Prelude.{◌≡◌};

    ghost belongs = { λ set a s. s.loc ≡ set.0 };

    fn has(&self, _plant: &Plant, state: &State) -> Result<bool, Wide> {
        Ok(state.loc == self.0)
    }
}

#[test]
fn names_keep_their_bytes(rt: HostRuntime) {
    let short = Name::new(b"_");
    let long = Name::new(b"a_name_of_32_bytes_0123456789ABC");
    assert_eq!(rt; short.bytes(), b"_".as_slice());
    assert_eq!(rt;
        long.bytes(),
        b"a_name_of_32_bytes_0123456789ABC".as_slice()
    );
    assert!(rt; short != long);
    assert!(rt; long == long);
}

#[test]
fn a_set_of_ones_own(rt: HostRuntime) -> Result<(), Fail> {
    let mut vars = Vec::new(rt.alloc());
    vars.push(Name::new(b"x"))?;
    let mut locs = Vec::new(rt.alloc());
    locs.push(Location {
        name: Name::new(b"l"),
        inv: Vec::new(rt.alloc()),
        flow: Vec::new(rt.alloc()),
        safe: Vec::new(rt.alloc()),
    })?;
    let plant = Plant {
        vars,
        locs,
        switches: Vec::new(rt.alloc()),
    };
    let state = State {
        loc: 2,
        at: Point {
            at: Vec::new(rt.alloc()),
        },
    };
    assert!(rt; Here(2).has(&plant, &state).ok().ok_or("wide")?);
    assert!(rt; !Here(1).has(&plant, &state).ok().ok_or("wide")?);
    law_secure_sets(&Here(2));
    law_monotone(&Here(2), &Here(2));
    law_still_sets(&Here(2), &Here(1));
    Ok(())
}
