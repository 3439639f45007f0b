// What answers a generated plant?
ghost use Rattle.std.specs.Prelude.{◌≡◌, ◌++◌, OnOk, IfOk};
ghost use Rattle.lhg_plant.specs.Views.{plain_plant};
ghost use Rattle.lhg_union.specs.Regions.{plain_region};
ghost use Rattle.lhg_loss.specs.Views.{plain_losses};
ghost use Rattle.lhg_row_text.specs.PrintedLine.{line};
ghost use Rattle.lhg_gen.specs.GeneratedPlant.{generated_plant};
ghost use Rattle.lhg_gen.specs.Sizes.{IsSize};
ghost use Rattle.lhg_cli.specs.Summary.{pieces_in, count_line, summary_text, IsGenAnswer};

use crate::Status;
use crate::solving::{Answer, stopped};
use crate::words::MOST_ROUNDS;
use itoa::Buffer;
use lhg_gen::{GenStop, generate};
use lhg_iterate::{Solved, solve};
use lhg_num::Frac;
use lhg_plant::Plant;
use lhg_poly::Poly;
use std::alloc::{AllocError, Global};

// Appends the line of a name and a number.
fn push_count(text: &mut Vec<u8>, name: &[u8], count: u128) -> Result<(), AllocError>
    ensures { OnOk result (text.new.items ≡ text.old.items ++ line (count_line name.now count)) }
{
    let mut buffer = Buffer::new();
    text.extend_from_slice(name)?;
    text.extend_from_slice(b" ")?;
    text.extend_from_slice(buffer.format(count).as_bytes())?;
    text.extend_from_slice(b"\n")
}

// How many pieces the lists have in all.
fn pieces_of(lists: &[Vec<Poly<Frac>>]) -> u128
    ensures { result ≡ pieces_in (plain_region lists.now) }
{
    let mut count = 0;
    for list in lists {
        count += list.len() as u128;
    }
    count
}

// The summary of what solves the game of a plant with so many locations.
fn summary(alloc: Global, k: u32, found: &Solved) -> Result<Vec<u8>, AllocError>
    ensures { IfOk result (λ v. v.items ≡ summary_text k found.now.rounds (plain_region found.now.region.pieces.items) (plain_region found.now.guards.items) (plain_losses found.now.losses.items)) }
{
    let mut text = Vec::new(alloc);
    push_count(&mut text, b"gen", k.into())?;
    push_count(&mut text, b"rounds", found.rounds.into())?;
    push_count(&mut text, b"pieces", pieces_of(&found.region.pieces))?;
    push_count(&mut text, b"guards", pieces_of(&found.guards))?;
    push_count(&mut text, b"losses", found.losses.len() as u128)?;
    Ok(text)
}

// The answer to a plant that is the generated one with k locations.
fn summed_up(alloc: Global, k: u32, plant: &Plant) -> Result<Answer, AllocError>
    requires { plain_plant plant.now ≡ generated_plant k }
    ensures { IfOk result (λ a. IsGenAnswer k a.status a.text.items) }
{
    match solve(alloc, plant, MOST_ROUNDS) {
        Ok(found) => {
            let text = summary(alloc, k, &found)?;
            Ok(Answer {
                status: Status::Done,
                text,
            })
        }
        Err(stop) => stopped(alloc, plant, MOST_ROUNDS, &stop),
    }
}

/// The answer to the generated plant with `k` locations.
pub fn summed(alloc: Global, k: u32) -> Result<Answer, AllocError>
    requires { IsSize k }
    ensures { IfOk result (λ a. IsGenAnswer k a.status a.text.items) }
{
    match generate(alloc, k) {
        Ok(plant) => summed_up(alloc, k, &plant),
        Err(GenStop::Memory) => Err(AllocError),
        Err(GenStop::Range) => unreachable!(),
    }
}
