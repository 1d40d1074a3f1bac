// The ring, and what it promises of each cell.
// Layout: one vector of 2^bits samples. The sample of a time is at the time modulo that size, which divides 2^32, so a whole time
// and its 32-bit word, which wraps, have the same cell. There is no head and no tail, and nothing is moved as time goes by: the
// owner of a ring knows its now, and silences the cells that it is done with. A run of times that meets the end of the vector
// goes on at its start. Contracts see the list of the cells.
ghost use Rattle.std.specs.Prelude.{◌≡◌, ◌%◌, ◌^◌, ◌≤◌, length, IfOk, pos, replicate, slice_set};
ghost use Rattle.af_ring.specs.Cells.{cell, ClearsRun, IsRunAt, MixesRun, PutsRun};

use crate::runs::{clear_cells, mix_cells, place, put_cells, read_cells};
use af_time::{DevTime, OutOfMemory};
use std::alloc::Global;
use std::marker::Model;

/// 2 to 2^20 cells, a power of two of them. The cell of a time is the one at the time modulo their
/// number.
#[derive(Drop)]
pub struct TimeRing {
    cells: Vec<i16>,
}

// Clauses see the list of the cells.
impl Model for TimeRing {
    ghost use Rattle.std.specs.Prelude.{List, ℤ, length};
    ghost use Rattle.af_ring.specs.Cells.{IsSize};

    ghost Value = { List ℤ };

    ghost view = { λ r. r.cells.items };

    ghost invariant = { λ r. IsSize (length r.cells.items) };
}

impl TimeRing {
    /// 2^bits silent cells.
    pub fn new(alloc: Global, bits: u32) -> Result<TimeRing, OutOfMemory>
        requires some { 1 ≤ bits }
        requires few { bits ≤ 20 }
        ensures { IfOk result (λ r. r ≡ replicate (2 ^ bits) (pos 0)) }
    {
        let cells = vec![in alloc; 0i16; 1usize << bits]?;
        Ok(TimeRing { cells })
    }

    /// The cell of a time.
    pub fn get(&self, t: DevTime) -> i16
        ensures { result ≡ cell self.now t.0 }
    {
        self.cells[place(t, self.cells.len())]
    }

    /// Changes the cell of a time.
    pub fn set(&mut self, t: DevTime, x: i16)
        ensures { self.new ≡ slice_set self.old (t.0 % length self.old) x }
    {
        let at = place(t, self.cells.len());
        self.cells[at] = x;
    }

    /// Reads the cells from a time on: at most as many as there are.
    pub fn read_run(&self, t: DevTime, out: &mut [i16])
        requires { length out.old ≤ length self.now }
        ensures { IsRunAt out.new self.now t.0 }
    {
        read_cells(&self.cells, t, out);
    }

    /// Mixes samples into the cells from a time on: at most as many as there are.
    pub fn mix_run(&mut self, t: DevTime, samples: &[i16])
        requires { length samples.now ≤ length self.old }
        ensures { MixesRun self.old self.new t.0 samples.now }
    {
        mix_cells(&mut self.cells, t, samples);
    }

    /// Puts samples into the cells from a time on: at most as many as there are.
    pub fn put_run(&mut self, t: DevTime, samples: &[i16])
        requires { length samples.now ≤ length self.old }
        ensures { PutsRun self.old self.new t.0 samples.now }
    {
        put_cells(&mut self.cells, t, samples);
    }

    /// Silences the n cells from a time on: at most as many as there are.
    pub fn clear_run(&mut self, t: DevTime, n: u32)
        requires { n ≤ length self.old }
        ensures { ClearsRun self.old self.new t.0 n }
    {
        clear_cells(&mut self.cells, t, n);
    }
}
