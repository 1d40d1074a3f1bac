// The program that is the exchange of a line.
ghost use Rattle.std.specs.Prelude.{◌≡◌, IfOk, IfSome};
ghost use Rattle.af_process.specs.Acts.{words_of};
ghost use Rattle.af_lines.specs.ExchangeUse.{exchange_use, AsksExchange, CallsExchange, IsBegun};

use af_config::{LONGEST_WORD, is_command_line};
use af_exchange::Exchange;
use af_io::Put;
use af_phone::LineChange;
use af_program::{Launched, Program, Programs, Ways};
use af_time::OutOfMemory;
use af_world::{LineProgram, MOST_CARD_RESTARTS};
use std::alloc::Global;
use std::marker::Model;

/// About so many bytes may wait before the standard input of the program: some hundred hook calls.
const INPUT_BYTES: u32 = 4096;

/// The program that is the exchange of a line. It is in a box, so that lines without one are small.
#[derive(Drop)]
pub(crate) struct LineExchange<P: Program + Drop> {
    exchange: Box<Exchange<P>>,
}

impl<P: Program + Drop> Model for LineExchange<P> {
    ghost use Rattle.std.specs.Prelude.{box_value};
    ghost use Rattle.af_lines.specs.ExchangeUse.{ExchangeUse, exchange_use};

    ghost Value = { ExchangeUse };

    ghost view = { λ e. exchange_use P.acts (box_value e.exchange) };
}

impl<P: Program + Drop> LineExchange<P> {
    /// A program that is started at this moment. None says that its numbers are not in their ranges, or that it could not be
    /// started.
    pub(crate) fn start<G: Programs<Made = P>>(
        alloc: Global,
        programs: &mut G,
        program: LineProgram<'_>,
        at: u64,
    ) -> Result<Option<LineExchange<P>>, OutOfMemory>
        ensures begun { IfOk result
            (λ made. IfSome made (λ exchange. IsBegun program.entry.restarts (words_of program.entry.words.now) at exchange)) }
    {
        if program.restarts > MOST_CARD_RESTARTS || !is_command_line(program.words, LONGEST_WORD) {
            return Ok(None);
        }
        let made = programs.program(alloc, Ways::Both, INPUT_BYTES)?;
        let exchange = Exchange::new(alloc, made, program.restarts, program.words)?;
        let mut exchange = Box::new(alloc, exchange)?;
        match exchange.begin(at) {
            Launched::Runs => Ok(Some(LineExchange { exchange })),
            Launched::Failed => Ok(None),
            Launched::OutOfMemory => Err(OutOfMemory),
        }
    }

    /// The exchange.
    pub(crate) fn exchange(&self) -> &Exchange<P>
        ensures { self.now ≡ exchange_use P.acts result.now }
    {
        &self.exchange
    }

    /// The next change of the line, if its program gave one.
    pub(crate) fn next_change(&mut self, at: u64) -> Option<LineChange>
        ensures asks { AsksExchange at result self.old self.new }
    {
        self.exchange.next_change(at)
    }

    /// Takes the hook off, or puts it on.
    pub(crate) fn set_hook(&mut self, off: bool, at: u64) -> Put
        ensures calls { CallsExchange off result self.old self.new }
    {
        self.exchange.set_hook(off, at)
    }
}
