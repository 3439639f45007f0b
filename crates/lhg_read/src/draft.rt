// A plant that is being read, line by line.
ghost use Rattle.std.specs.Prelude.{◌≡◌, ◌<◌, ◌≤◌, ◌&&◌, nat_lt, length, map, vec_len, IfOk};
ghost use Rattle.std.specs.List.{list_any};
ghost use Rattle.std.specs.Str.{bytes_eq};
ghost use Rattle.lhg_plant.specs.Limits.{most_locations, most_safe_lines};
ghost use Rattle.lhg_plant.specs.Views.{plain_location, plain_switch};
ghost use Rattle.lhg_read.specs.PlantLine.{inv, flow, safe, loc, block, switch, end};
ghost use Rattle.lhg_read.specs.PlantSteps as plain;
ghost use Rattle.lhg_read.specs.DraftView.{plain_draft, plain_written};
ghost use Rattle.lhg_read.specs.Refusals.{IsRead};

use crate::axes::still_rows;
use crate::refusal::Refusal;
use crate::switches::{Written, placed};
use lhg_num::Frac;
use lhg_plant::{Location, MOST_LOCATIONS, MOST_SAFE_LINES, MOST_SWITCHES, Name, Switch};
use lhg_row::Row;
use std::alloc::{AllocError, Global};

/// What is read of a plant behind its variables. The last location is open until a switch or the end comes.
#[derive(Drop)]
pub(crate) struct Draft {
    pub locs: Vec<Location>,
    /// Whether the open location has an `inv` line.
    pub has_inv: bool,
    /// Whether the open location has a `flow` line.
    pub has_flow: bool,
    pub switches: Vec<Switch>,
    pub ended: bool,
}

fn is_location(name: &Name, locs: &[Location]) -> bool
    ensures { result ≡ list_any (λ l. bytes_eq l.name name.now) locs.now }
{
    locs.iter().any(|l| l.name.bytes() == name.bytes())
}

fn is_switch(name: &Name, switches: &[Switch]) -> bool
    ensures { result ≡ list_any (λ s. bytes_eq s.name name.now) switches.now }
{
    switches.iter().any(|s| s.name.bytes() == name.bytes())
}

// The rows of the last location's invariant.
fn set_inv(locs: &mut Vec<Location>, rows: Vec<Row<Frac>>)
    requires { 0 < vec_len locs.old }
    ensures { map plain_location locs.new.items ≡ plain.with_last (plain.with_inv rows.items) (map plain_location locs.old.items) }
{
    let last = locs.len() - 1;
    let l = &mut locs[last];
    l.inv = rows;
}

// The rows of the last location's flow.
fn set_flow(locs: &mut Vec<Location>, rows: Vec<Row<Frac>>)
    requires { 0 < vec_len locs.old }
    ensures { map plain_location locs.new.items ≡ plain.with_last (plain.with_flow rows.items) (map plain_location locs.old.items) }
{
    let last = locs.len() - 1;
    let l = &mut locs[last];
    l.flow = rows;
}

// A safe line more of the last location.
fn push_safe(locs: &mut Vec<Location>, rows: Vec<Row<Frac>>) -> Result<(), AllocError>
    requires { 0 < vec_len locs.old }
    ensures { IfOk result (λ _. map plain_location locs.new.items ≡ plain.with_last (plain.with_safe rows.items) (map plain_location locs.old.items)) }
{
    let last = locs.len() - 1;
    let l = &mut locs[last];
    l.safe.push(rows)?;
    Ok(())
}

// How many safe lines the last location has.
fn safe_lines(locs: &[Location]) -> usize
    ensures { result ≡ plain.safe_lines (map plain_location locs.now) }
{
    let n = locs.len();
    if n == 0 {
        return 0;
    }
    locs[n - 1].safe.len()
}

impl Draft {
    /// Nothing is read.
    pub(crate) fn new(alloc: Global) -> Draft
        ensures { plain_draft result ≡ plain.empty_draft }
    {
        Draft {
            locs: Vec::new(alloc),
            has_inv: false,
            has_flow: false,
            switches: Vec::new(alloc),
            ended: false,
        }
    }

    // Whether a location goes on.
    fn is_open(&self) -> bool
        ensures { result ≡ plain.is_open (plain_draft self.now) }
    {
        !self.locs.is_empty() && self.switches.is_empty()
    }

    // Whether a location with this name may begin.
    fn may_begin(&self, name: &Name) -> bool
        ensures { result ≡ plain.may_begin (plain_draft self.now) name.now }
    {
        if !self.switches.is_empty() || self.locs.len() >= MOST_LOCATIONS {
            return false;
        }
        !is_location(name, &self.locs)
    }

    // Whether a switch with this name may come.
    fn may_switch(&self, name: &Name) -> bool
        ensures { result ≡ plain.may_switch (plain_draft self.now) name.now }
    {
        if self.locs.is_empty() || self.switches.len() >= MOST_SWITCHES {
            return false;
        }
        !is_switch(name, &self.switches)
    }

    // Whether the open location may have a safe line more.
    fn may_be_safe(&self) -> bool
        ensures { result ≡ (plain.is_open (plain_draft self.now) && nat_lt (plain.safe_lines (plain_draft self.now).locs) most_safe_lines) }
    {
        self.is_open() && safe_lines(&self.locs) < MOST_SAFE_LINES
    }

    /// A location of this name begins, over so many variables.
    pub(crate) fn begin(&mut self, alloc: Global, name: Name, vars: usize) -> Result<(), Refusal>
        ensures { IsRead result (plain.step vars (plain_draft self.old) (loc name)) (λ _. plain_draft self.new) }
    {
        if !self.may_begin(&name) {
            return Err(Refusal::NotHere);
        }
        let location = Location {
            name,
            inv: Vec::new(alloc),
            flow: still_rows(alloc, vars)?,
            safe: Vec::new(alloc),
        };
        self.locs.push(location)?;
        self.has_inv = false;
        self.has_flow = false;
        Ok(())
    }

    /// An `inv` line of the open location.
    pub(crate) fn take_inv(&mut self, rows: Vec<Row<Frac>>) -> Result<(), Refusal>
        ensures { IsRead result (plain.step 0 (plain_draft self.old) (block (inv rows.items))) (λ _. plain_draft self.new) }
    {
        if !self.is_open() || self.has_inv {
            return Err(Refusal::NotHere);
        }
        set_inv(&mut self.locs, rows);
        self.has_inv = true;
        Ok(())
    }

    /// A `flow` line of the open location.
    pub(crate) fn take_flow(&mut self, rows: Vec<Row<Frac>>) -> Result<(), Refusal>
        ensures { IsRead result (plain.step 0 (plain_draft self.old) (block (flow rows.items))) (λ _. plain_draft self.new) }
    {
        if !self.is_open() || self.has_flow {
            return Err(Refusal::NotHere);
        }
        set_flow(&mut self.locs, rows);
        self.has_flow = true;
        Ok(())
    }

    /// A `safe` line of the open location.
    pub(crate) fn take_safe(&mut self, rows: Vec<Row<Frac>>) -> Result<(), Refusal>
        ensures { IsRead result (plain.step 0 (plain_draft self.old) (block (safe rows.items))) (λ _. plain_draft self.new) }
    {
        if !self.may_be_safe() {
            return Err(Refusal::NotHere);
        }
        push_safe(&mut self.locs, rows)?;
        Ok(())
    }

    /// A switch.
    pub(crate) fn take_switch(&mut self, written: Written) -> Result<(), Refusal>
        requires { vec_len self.old.locs ≤ most_locations }
        ensures { IsRead result (plain.step 0 (plain_draft self.old) (switch (plain_written written))) (λ _. plain_draft self.new) }
    {
        if !self.may_switch(&written.name) {
            return Err(Refusal::NotHere);
        }
        let Some(switch) = placed(written, &self.locs) else {
            return Err(Refusal::NotHere);
        };
        self.switches.push(switch)?;
        Ok(())
    }

    /// The end.
    pub(crate) fn end(&mut self) -> Result<(), Refusal>
        ensures { IsRead result (plain.step 0 (plain_draft self.old) end) (λ _. plain_draft self.new) }
    {
        if self.locs.is_empty() {
            return Err(Refusal::NotHere);
        }
        self.ended = true;
        Ok(())
    }
}
