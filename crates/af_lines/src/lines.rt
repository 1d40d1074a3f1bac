// The telephone lines of a world, each at the number of its device, and a round over them.
ghost use Rattle.std.specs.Prelude.{◌≡◌, ◌≤◌, ◌<◌, true, false, if◌then◌else◌, MatchOption};
ghost use Rattle.std.specs.declared.option.Option.TheVariants.{None, Some};
ghost use Rattle.af_limits.specs.Limits.{most_devices};
ghost use Rattle.af_process.specs.Acts.{words_of};
ghost use Rattle.af_lines.specs.ExchangeUse.{exchange_use};
ghost use Rattle.af_lines.specs.HeldLines.{no_lines, quiet, exchange_of, lines_after, NoLines, lines_at_round_start, line_at, is_quiet, AsksUpTo, AttachesLine, GoesOverLines, HooksAt, HooksBy, HooksLine, IsAskedOf};

use crate::held_line::HeldLine;
use crate::line_exchange::LineExchange;
use af_exchange::Exchange;
use af_io::Put;
use af_limits::MOST_DEVICES;
use af_phone::LineChange;
use af_program::{Program, Programs};
use af_world::{LineProgram, Ready};
use std::alloc::Global;
use std::marker::Model;

/// The lines of the devices that have one; the device that the round comes to next; and whether a line changed in it.
#[derive(Drop)]
pub struct Lines<P: Program + Drop> {
    held: [Option<HeldLine<P>>; MOST_DEVICES],
    // whether a device may have a line
    some: bool,
    // no line at this number or above it has a program
    end: usize,
    next: usize,
    changed: bool,
}

impl<P: Program + Drop> Model for Lines<P> {
    ghost use Rattle.std.specs.Prelude.{◌≡◌, ◌≤◌, false};
    ghost use Rattle.af_limits.specs.Limits.{most_devices};
    ghost use Rattle.af_lines.specs.HeldLines.{LinesState, NoLines, NoneFrom};

    ghost Value = { LinesState };

    ghost view = { λ l. record { lines = l.held; next = l.next; changed = l.changed } };

    ghost invariant = { λ l. (l.end ≤ most_devices) × (l.next ≤ most_devices) × NoneFrom l.end l.held
        × (l.some ≡ false → NoLines l.held) };
}

impl<P: Program + Drop> Lines<P> {
    /// No device has a line. It takes no memory.
    pub fn new() -> Lines<P>
        ensures { result ≡ no_lines }
    {
        Lines {
            held: [None, None, None, None, None, None, None, None],
            some: false,
            end: 0,
            next: 0,
            changed: false,
        }
    }

    /// This came of the attach of a device, which has a line or none.
    pub fn note_attach(&mut self, attached: Ready, device: u8, has_line: bool)
        requires { attached ≡ Ready.Done → device < most_devices }
        ensures { self.new ≡ lines_after attached device has_line self.old }
    {
        match attached {
            Ready::Done => {
                self.held[usize::from(device)] = new_line(has_line);
                self.some = self.some || has_line;
            }
            Ready::Failed | Ready::OutOfMemory => {}
        }
    }

    /// Whether a device may have a line.
    pub fn has_lines(&self) -> bool
        ensures { result ≡ false → NoLines self.now.lines }
    {
        self.some
    }

    /// Whether a device has a line, and no program stands for its exchange.
    fn is_quiet(&self, device: u8) -> bool
        ensures { result ≡ is_quiet (line_at self.now.lines device) }
    {
        match self.held.get(usize::from(device)) {
            Some(Some(line)) => line.is_quiet(),
            _ => false,
        }
    }

    /// Gives a program to the line of a device, which has none so far, and starts it at this moment.
    pub fn attach<G: Programs<Made = P>>(
        &mut self,
        alloc: Global,
        programs: &mut G,
        device: u8,
        program: LineProgram<'_>,
        at: u64,
    ) -> Ready
        ensures quiet { result ≡ Ready.Done → is_quiet (line_at self.old.lines device) ≡ true }
        ensures attaches { AttachesLine result program.entry.restarts (words_of program.entry.words.now) at device self.old
            self.new }
    {
        if !self.is_quiet(device) {
            return Ready::Failed;
        }
        let exchange = match LineExchange::start(alloc, programs, program, at) {
            Ok(Some(exchange)) => exchange,
            Ok(None) => return Ready::Failed,
            Err(_) => return Ready::OutOfMemory,
        };
        let place = usize::from(device);
        self.held[place] = Some(HeldLine::over(exchange));
        self.some = true;
        self.end = self.end.max(place + 1);
        Ready::Done
    }

    /// The exchange of the line of a device, if a program stands for it.
    pub fn exchange(&self, device: u8) -> Option<&Exchange<P>>
        ensures { MatchOption result (exchange_of (line_at self.now.lines device) ≡ None)
            (λ exchange. exchange_of (line_at self.now.lines device) ≡ Some (exchange_use P.acts exchange.now)) }
    {
        self.held.get(usize::from(device))?.as_ref()?.exchange()
    }

    /// The next line of the round whose program gave a change, and the change. Each gives at most one in a round. Moments are
    /// nanoseconds of a clock.
    pub fn next_change(&mut self, at: u64) -> Option<(u8, LineChange)>
        ensures over { GoesOverLines at self.old result self.new }
    {
        match first_change(&mut self.held, self.next, self.end, at) {
            Some((device, change)) => {
                self.next = usize::from(device) + 1;
                self.changed = true;
                Some((device, change))
            }
            None => {
                self.next = MOST_DEVICES;
                None
            }
        }
    }

    /// Whether a line changed in this round.
    pub fn has_changed(&self) -> bool
        ensures { result ≡ self.now.changed }
    {
        self.changed
    }

    /// A new round begins.
    pub fn begin(&mut self)
        ensures { self.new ≡ lines_at_round_start self.old }
    {
        self.next = 0;
        self.changed = false;
    }

    /// Takes the hook of a device's line off, or puts it on. Failed says that its program takes nothing, and no start is left.
    pub fn hook(&mut self, device: u8, off: bool, at: u64) -> Put
        ensures { HooksAt device off result self.old self.new }
    {
        hook_at(&mut self.held, device, off, at)
    }
}

/// The line of a device that has one or not. It has no program so far.
fn new_line<P: Program + Drop>(has_line: bool) -> Option<HeldLine<P>>
    ensures { result ≡ (if has_line then Some quiet else None) }
{
    if has_line {
        Some(HeldLine::quiet())
    } else {
        None
    }
}

/// Takes the hook of the line of a device off, or puts it on, if there is one.
fn hook_at<P: Program + Drop>(
    held: &mut [Option<HeldLine<P>>; MOST_DEVICES],
    device: u8,
    off: bool,
    at: u64,
) -> Put
    ensures { HooksLine device off result held.old held.new }
{
    let place = device as usize;
    if place >= held.len() {
        return Put::Done;
    }
    hook_by(&mut held[place], off, at)
}

/// Takes the hook of the line at a place off, or puts it on, if there is one.
fn hook_by<P: Program + Drop>(place: &mut Option<HeldLine<P>>, off: bool, at: u64) -> Put
    ensures { HooksBy off result place.old place.new }
{
    match place {
        Some(line) => line.set_hook(off, at),
        None => Put::Done,
    }
}

/// The next change of the line at a place, if there is one.
fn change_by<P: Program + Drop>(place: &mut Option<HeldLine<P>>, at: u64) -> Option<LineChange>
    ensures { IsAskedOf at result place.old place.new }
{
    match place {
        Some(line) => line.next_change(at),
        None => None,
    }
}

/// The first line between two whose program gave a change, and the change.
fn first_change<P: Program + Drop>(
    held: &mut [Option<HeldLine<P>>; MOST_DEVICES],
    from: usize,
    to: usize,
    at: u64,
) -> Option<(u8, LineChange)>
    requires { to ≤ most_devices }
    ensures { AsksUpTo at from to held.old result held.new }
{
    for device in from..to {
        if let Some(change) = change_by(&mut held[device], at) {
            return Some((device as u8, change));
        }
    }
    None
}
