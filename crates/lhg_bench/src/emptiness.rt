// Which systems of crossings between found pieces are told to have a point, or none.
ghost use Rattle.std.specs.Prelude.{◌<◌, length};
ghost use Rattle.lhg_row.specs.Width.{AllWide};
ghost use Rattle.lhg_reach.specs.FoundParts.{AllFoundVars};

use crate::lattice::Lattice;
use crate::systems::system;
use lhg_cross::Tally;
use lhg_elim::is_empty;
use lhg_num::{Frac, Halt};
use lhg_reach::Found;
use lhg_row::{Row, System};
use lhg_simplex::decide;
use std::alloc::Global;

/// By what it is told.
#[derive(Clone, Copy)]
pub enum Means {
    /// The systems are formed, and nothing is asked.
    Nothing,
    /// A confirmed guess.
    Guess,
    /// The elimination of all variables.
    Elimination,
}

// How many systems are formed.
const SYSTEMS: u32 = 1000;

// How often each is asked, so that this takes most of the time.
const TIMES: u32 = 50;

// The systems are picked from all by steps of this prime, so that they are of all kinds.
const STEP: usize = 7919;

/// Of how many of 1,000 systems of crossings between the pieces that are found in the lattice it is told whether they have a point.
pub fn told(alloc: Global, lattice: &Lattice, means: Means) -> Result<u64, Halt> {
    let mut tally = Tally::new();
    let flow = lattice.speeds(alloc)?;
    let found = lattice.found(alloc, &mut tally)?;
    if found.is_empty() {
        return Ok(0);
    }
    told_of(alloc, lattice.width(), means, &found, &flow)
}

// The same of these found pieces.
fn told_of(
    alloc: Global,
    vars: usize,
    means: Means,
    found: &[Found<Frac>],
    flow: &[Row<Frac>],
) -> Result<u64, Halt>
    requires few { vars < 256 }
    requires some { 0 < length found.now }
    requires found { AllFoundVars vars found.now }
    requires flow { AllWide vars flow.now }
{
    let mut count = 0;
    for i in 0..SYSTEMS {
        let system = system_at(alloc, vars, found, flow, i as usize * STEP)?;
        if is_told_often(alloc, means, &system)? {
            count += 1;
        }
    }
    Ok(count)
}

// The system with this number: from a piece, through a piece, into a piece, the last of which changes fastest.
fn system_at(
    alloc: Global,
    vars: usize,
    found: &[Found<Frac>],
    flow: &[Row<Frac>],
    number: usize,
) -> Result<System<Frac>, Halt>
    requires few { vars < 256 }
    requires some { 0 < length found.now }
    requires found { AllFoundVars vars found.now }
    requires flow { AllWide vars flow.now }
{
    let pair = number / found.len();
    let from = &found[pair / found.len() % found.len()];
    let through = &found[pair % found.len()];
    let into = &found[number % found.len()];
    system(alloc, vars, &from.piece, &through.piece, &into.piece, flow)
}

// The same answer, for the time that it takes.
fn is_told_often(alloc: Global, means: Means, system: &System<Frac>) -> Result<bool, Halt> {
    for _ in 1..TIMES {
        let _ = is_told(alloc, means, system)?;
    }
    is_told(alloc, means, system)
}

// Whether it is told of the system that it has a point, or that it has none.
fn is_told(alloc: Global, means: Means, system: &System<Frac>) -> Result<bool, Halt> {
    match means {
        Means::Nothing => Ok(true),
        Means::Guess => {
            let answer = decide(alloc, system.vars(), system.rows())?;
            Ok(answer.is_some())
        }
        Means::Elimination => match is_empty(alloc, system) {
            Ok(_) => Ok(true),
            Err(Halt::Memory) => Err(Halt::Memory),
            Err(_) => Ok(false),
        },
    }
}
