// Runs of cells from a time on, over the list of a ring's cells.
// Layout: a run is at most two parts of the list. The first begins at the place of its time, and goes on to the end of the list
// if it has to. The second begins at the start of the list.
ghost use Rattle.std.specs.Prelude.{◌≡◌, ◌+◌, ◌-◌, ◌%◌, ◌<◌, ◌≤◌, length, min};
ghost use Rattle.af_ring.specs.Cells.{ClearsRun, IsRunAt, IsSize, MixesRun, PutsRun};

use af_sample::mix_into;
use af_time::DevTime;

/// The place of a time's cell among so many.
pub fn place(t: DevTime, size: usize) -> usize
    requires { 0 < size }
    ensures value { result ≡ t.0 % size }
    ensures within { result < size }
{
    t.0 as usize % size
}

// Where the first part of a run of n times from t on begins, among so many cells, and how many cells it has. The second part
// begins at the first cell.
fn first_part(t: DevTime, n: usize, size: usize) -> (usize, usize)
    requires { 0 < size }
    ensures start { result.0 ≡ t.0 % size }
    ensures count { result.1 ≡ min n (size - t.0 % size) }
{
    let start = place(t, size);
    (start, n.min(size - start))
}

pub fn read_cells(cells: &[i16], t: DevTime, out: &mut [i16])
    requires size { IsSize (length cells.now) }
    requires count { length out.old ≤ length cells.now }
    ensures { IsRunAt out.new cells.now t.0 }
{
    let (start, first) = first_part(t, out.len(), cells.len());
    let (before_end, rest) = out.split_at_mut(first);
    before_end.copy_from_slice(&cells[start..start + first]);
    rest.copy_from_slice(&cells[..rest.len()]);
}

pub fn put_cells(cells: &mut [i16], t: DevTime, samples: &[i16])
    requires size { IsSize (length cells.old) }
    requires count { length samples.now ≤ length cells.old }
    ensures { PutsRun cells.old cells.new t.0 samples.now }
{
    let (start, first) = first_part(t, samples.len(), cells.len());
    let (before_end, rest) = samples.split_at(first);
    cells[start..start + first].copy_from_slice(before_end);
    cells[..rest.len()].copy_from_slice(rest);
}

pub fn mix_cells(cells: &mut [i16], t: DevTime, samples: &[i16])
    requires size { IsSize (length cells.old) }
    requires count { length samples.now ≤ length cells.old }
    ensures { MixesRun cells.old cells.new t.0 samples.now }
{
    let (start, first) = first_part(t, samples.len(), cells.len());
    let (before_end, rest) = samples.split_at(first);
    mix_into(&mut cells[start..start + first], before_end);
    mix_into(&mut cells[..rest.len()], rest);
}

pub fn clear_cells(cells: &mut [i16], t: DevTime, n: u32)
    requires size { IsSize (length cells.old) }
    requires count { n ≤ length cells.old }
    ensures { ClearsRun cells.old cells.new t.0 n }
{
    let n = n as usize;
    let (start, first) = first_part(t, n, cells.len());
    cells[start..start + first].fill(0);
    cells[..n - first].fill(0);
}
