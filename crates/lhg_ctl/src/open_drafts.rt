// A controller that is being read, line by line.
ghost use Rattle.std.specs.Prelude.{◌≡◌, ◌<◌, ◌+◌, ℕ, length, get_or, replicate, set, nat_lt, Some, None, IfOk, OnOk};
ghost use Rattle.lhg_row.specs.Lists.{piece_limit};
ghost use Rattle.lhg_read.specs.Refusals.{IsRead};
ghost use Rattle.lhg_ctl.specs.ControllerLine.{rounds, piece, guard, end};
ghost use Rattle.lhg_ctl.specs.ControllerSteps as plain;
ghost use Rattle.lhg_ctl.specs.Counted.{IsCounted};
ghost use Rattle.lhg_ctl.specs.Draft.{guard_name};
ghost use Rattle.lhg_ctl.specs.Views.{plain_placed, plain_open};
ghost use Rattle.lhg_ctl.specs.declared.versions.Version.TheVariants.{First, Second};

use crate::controllers::Draft;
use crate::name_lists::{LIST_COUNT, is_listed, list_name, no_names};
use crate::versions::Version;
use itoa::Buffer;
use lhg_num::Frac;
use lhg_plant::{Name, Plant};
use lhg_read::Refusal;
use lhg_row::Row;
use lhg_union::PIECE_LIMIT;
use std::alloc::{AllocError, Global};

/// What is read of a controller behind its head.
#[derive(Drop)]
pub(crate) struct OpenDraft {
    pub version: Version,
    /// Whether the number of rounds is known.
    pub begun: bool,
    pub ended: bool,
    pub draft: Draft,
    /// How many pieces of each location are read.
    pub piece_counts: Vec<u32>,
    /// How many guards of each switch are read.
    pub guard_counts: Vec<u32>,
    /// The names of the guards, each in the list that its bytes say.
    pub name_lists: Vec<Vec<Name>>,
}

// A count of nothing for each of so many places.
fn no_counts(alloc: Global, places: usize) -> Result<Vec<u32>, AllocError>
    ensures { IfOk result (λ v. v.items ≡ replicate places 0) }
{
    let mut counts = Vec::with_capacity(alloc, places)?;
    for _i in 0..places {
        counts.push(0)?;
    }
    Ok(counts)
}

// Whether one more may stand at the place.
fn has_room(counts: &[u32], place: u32) -> bool
    requires { place < length counts.now }
    ensures { result ≡ nat_lt (get_or counts.now place 0) piece_limit }
{
    (counts[place as usize] as usize) < PIECE_LIMIT
}

// One more at the place.
fn count_one(counts: &mut Vec<u32>, place: u32)
    requires place { place < length counts.old.items }
    requires room { get_or counts.old.items place 0 < piece_limit }
    ensures { counts.new.items ≡ set counts.old.items place (get_or counts.old.items place 0 + 1) }
{
    counts[place as usize] += 1;
}

// The name of a guard that is written without one, by its number.
fn guard_name(alloc: Global, number: usize) -> Result<Name, AllocError>
    ensures { IfOk result (λ w. w ≡ guard_name number) }
{
    let mut buffer = Buffer::new();
    let mut text = Vec::new(alloc);
    text.extend_from_slice(b"g")?;
    text.extend_from_slice(buffer.format(number).as_bytes())?;
    Ok(Name::new(&text))
}

impl OpenDraft {
    /// Nothing is read behind the head of a controller of the plant.
    pub(crate) fn new(
        alloc: Global,
        plant: &Plant,
        version: Version,
    ) -> Result<OpenDraft, AllocError>
        ensures open { IfOk result (λ o. plain_open o ≡ plain.open_with version) }
        ensures counted { IfOk result (IsCounted plant.now) }
    {
        let piece_counts = no_counts(alloc, plant.locs.len())?;
        let guard_counts = no_counts(alloc, plant.switches.len())?;
        let name_lists = no_names(alloc, LIST_COUNT)?;
        Ok(OpenDraft {
            version,
            begun: version == Version::First,
            ended: false,
            draft: Draft {
                pieces: Vec::new(alloc),
                guards: Vec::new(alloc),
                rounds: 0,
                names: Vec::new(alloc),
            },
            piece_counts,
            guard_counts,
            name_lists,
        })
    }

    /// The number of rounds.
    pub(crate) fn take_rounds(&mut self, plant: &Plant, number: u32) -> Result<(), Refusal>
        requires { IsCounted plant.now self.old }
        ensures step { IsRead result (plain.step (plain_open self.old) (rounds number)) (λ _. plain_open self.new) }
        ensures counted { OnOk result (IsCounted plant.now self.new) }
    {
        if self.begun {
            return Err(Refusal::NotHere);
        }
        self.begun = true;
        self.draft.rounds = number;
        Ok(())
    }

    /// A piece of the location at a place.
    pub(crate) fn take_piece(
        &mut self,
        plant: &Plant,
        place: u32,
        rows: Vec<Row<Frac>>,
    ) -> Result<(), Refusal>
        requires counted { IsCounted plant.now self.old }
        requires place { place < length plant.now.locs.items }
        ensures step { IsRead result (plain.step (plain_open self.old) (piece (plain_placed (place, rows)))) (λ _. plain_open self.new) }
        ensures counted { OnOk result (IsCounted plant.now self.new) }
    {
        if !self.begun || !self.draft.guards.is_empty() || !has_room(&self.piece_counts, place) {
            return Err(Refusal::NotHere);
        }
        self.draft.pieces.push((place, rows))?;
        count_one(&mut self.piece_counts, place);
        Ok(())
    }

    // A guard, with its name, of the switch at a place.
    fn push_guard(
        &mut self,
        plant: &Plant,
        name: Name,
        place: u32,
        rows: Vec<Row<Frac>>,
    ) -> Result<(), Refusal>
        requires counted { IsCounted plant.now self.old }
        requires place { place < length plant.now.switches.items }
        ensures pushed { IsRead result (plain.pushed (plain_open self.old) name (plain_placed (place, rows))) (λ _. plain_open self.new) }
        ensures counted { OnOk result (IsCounted plant.now self.new) }
    {
        if !self.begun || !has_room(&self.guard_counts, place) {
            return Err(Refusal::NotHere);
        }
        self.draft.names.push(name)?;
        list_name(name, &mut self.name_lists)?;
        self.draft.guards.push((place, rows))?;
        count_one(&mut self.guard_counts, place);
        Ok(())
    }

    /// A guard without a name of the switch at a place.
    pub(crate) fn take_guard(
        &mut self,
        alloc: Global,
        plant: &Plant,
        place: u32,
        rows: Vec<Row<Frac>>,
    ) -> Result<(), Refusal>
        requires version { self.old.version ≡ First }
        requires counted { IsCounted plant.now self.old }
        requires place { place < length plant.now.switches.items }
        ensures step { IsRead result (plain.step (plain_open self.old) (guard None (plain_placed (place, rows)))) (λ _. plain_open self.new) }
        ensures counted { OnOk result (IsCounted plant.now self.new) }
    {
        let name = guard_name(alloc, self.draft.guards.len() + 1)?;
        self.push_guard(plant, name, place, rows)
    }

    /// A guard with a name of the switch at a place.
    pub(crate) fn take_named(
        &mut self,
        plant: &Plant,
        name: Name,
        place: u32,
        rows: Vec<Row<Frac>>,
    ) -> Result<(), Refusal>
        requires version { self.old.version ≡ Second }
        requires counted { IsCounted plant.now self.old }
        requires place { place < length plant.now.switches.items }
        ensures step { IsRead result (plain.step (plain_open self.old) (guard (Some name) (plain_placed (place, rows)))) (λ _. plain_open self.new) }
        ensures counted { OnOk result (IsCounted plant.now self.new) }
    {
        if is_listed(&name, &self.name_lists) {
            return Err(Refusal::NotHere);
        }
        self.push_guard(plant, name, place, rows)
    }

    /// The end.
    pub(crate) fn end(&mut self, plant: &Plant) -> Result<(), Refusal>
        requires { IsCounted plant.now self.old }
        ensures step { IsRead result (plain.step (plain_open self.old) end) (λ _. plain_open self.new) }
        ensures counted { OnOk result (IsCounted plant.now self.new) }
    {
        if !self.begun {
            return Err(Refusal::NotHere);
        }
        self.ended = true;
        Ok(())
    }
}
