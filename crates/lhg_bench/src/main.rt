//! Does a part of the work on large lists, and prints a count of what comes out. What it is for is the time that it takes.
#![tactic(auto)]

mod bounds;
mod boxes;
mod emptiness;
mod lattice;
mod lists;
mod systems;

use emptiness::Means;
use itoa::Buffer;
use lattice::Lattice;
use lhg_elim::eliminate;
use lhg_io::{Fault, StdSink, write_all};
use lhg_num::Halt;
use std::alloc::Global;
use std::process::ExitCode;
use std::{env, io};

// What is done.
enum Work {
    // The elimination of a variable from a list of so many rows. The rows that are left are counted.
    Elimination { rows: u8 },
    // The difference of a box and others, over so many variables. The pieces that are left are counted.
    Difference { vars: u8, boxes: u8 },
    // From where in the cells the wall is reached. The crossings are counted.
    Reach(Lattice),
    // Whether systems of crossings have a point. Those of which it is told are counted.
    Emptiness { lattice: Lattice, means: Means },
}

// How many rows are left of the list.
fn rows_left(alloc: Global, rows: u8) -> Result<usize, Halt> {
    let sys = lists::fan(alloc, rows)?;
    let rest = eliminate(alloc, &sys, 2)?;
    Ok(rest.rows().len())
}

// How many there are of what is counted.
fn counted(alloc: Global, work: Work) -> Result<u64, Halt> {
    match work {
        Work::Elimination { rows } => Ok(rows_left(alloc, rows)? as u64),
        Work::Difference { vars, boxes } => {
            let pieces = boxes::left(alloc, usize::from(vars), boxes)?;
            Ok(pieces.len() as u64)
        }
        Work::Reach(lattice) => lattice.crossings(alloc),
        Work::Emptiness { lattice, means } => emptiness::told(alloc, &lattice, means),
    }
}

fn print(rt: &HostRuntime, n: u64) -> Result<(), Fault> {
    let mut buffer = Buffer::new();
    let mut sink = StdSink::new(io::writer(rt));
    write_all(&mut sink, buffer.format(n).as_bytes())?;
    write_all(&mut sink, b"\n")
}

// The lattice with these numbers of variables and of cells along each.
fn lattice_of(vars: &str, cells: &str) -> Option<Lattice> {
    Some(Lattice {
        vars: vars.parse().ok()?,
        cells: cells.parse().ok()?,
    })
}

fn means_of(word: &str) -> Option<Means> {
    match word {
        "nothing" => Some(Means::Nothing),
        "guess" => Some(Means::Guess),
        "elimination" => Some(Means::Elimination),
        _ => None,
    }
}

// What the words of the command line ask for.
fn asked(rt: &HostRuntime) -> Option<Work> {
    let args = env::args(rt).ok()?;
    let words: Vec<String> = args.skip(1).collect(rt.alloc()).ok()?;
    match words.as_slice() {
        [work, rows] if work.as_str() == "elimination" => Some(Work::Elimination {
            rows: rows.parse().ok()?,
        }),
        [work, vars, boxes] if work.as_str() == "difference" => Some(Work::Difference {
            vars: vars.parse().ok()?,
            boxes: boxes.parse().ok()?,
        }),
        [work, vars, cells] if work.as_str() == "reach" => Some(Work::Reach(lattice_of(
            vars, cells,
        )?)),
        [work, vars, cells, kind] if work.as_str() == "emptiness" => Some(Work::Emptiness {
            lattice: lattice_of(vars, cells)?,
            means: means_of(kind)?,
        }),
        _ => None,
    }
}

fn main(rt: HostRuntime) -> ExitCode {
    let Some(work) = asked(&rt) else {
        return ExitCode::from(2);
    };
    let Ok(n) = counted(rt.alloc(), work) else {
        return ExitCode::from(1);
    };
    match print(&rt, n) {
        Ok(()) => ExitCode::SUCCESS,
        Err(_) => ExitCode::from(1),
    }
}
