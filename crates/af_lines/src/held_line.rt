// The telephone line of a device.
ghost use Rattle.std.specs.Prelude.{◌≡◌, MatchOption};
ghost use Rattle.std.specs.declared.option.Option.TheVariants.{None, Some};
ghost use Rattle.af_lines.specs.HeldLines.{quiet, over, exchange_of, is_quiet, has_exchange, IsAskedOf, HooksBy};
ghost use Rattle.af_lines.specs.ExchangeUse.{exchange_use};

use crate::line_exchange::LineExchange;
use af_exchange::Exchange;
use af_io::Put;
use af_phone::LineChange;
use af_program::Program;
use std::marker::Model;

/// The telephone line of a device. One without a program never rings, and each hook call of it is done.
#[derive(Drop)]
pub(crate) struct HeldLine<P: Program + Drop> {
    exchange: Option<LineExchange<P>>,
}

impl<P: Program + Drop> Model for HeldLine<P> {
    ghost use Rattle.af_lines.specs.HeldLines.{LineState, line_state};

    ghost Value = { LineState };

    ghost view = { λ l. line_state l.exchange };
}

impl<P: Program + Drop> HeldLine<P> {
    /// A line without a program.
    pub(crate) fn quiet() -> HeldLine<P>
        ensures { result ≡ quiet }
    {
        HeldLine { exchange: None }
    }

    /// A line whose exchange is a program.
    pub(crate) fn over(exchange: LineExchange<P>) -> HeldLine<P>
        ensures { result ≡ over exchange }
    {
        HeldLine {
            exchange: Some(exchange),
        }
    }

    /// Whether it has no program.
    pub(crate) fn is_quiet(&self) -> bool
        ensures { result ≡ is_quiet (Some self.now) }
    {
        self.exchange.is_none()
    }

    /// Its exchange, if it has one.
    pub(crate) fn exchange(&self) -> Option<&Exchange<P>>
        ensures { MatchOption result (exchange_of (Some self.now) ≡ None)
            (λ exchange. exchange_of (Some self.now) ≡ Some (exchange_use P.acts exchange.now)) }
    {
        Some(self.exchange.as_ref()?.exchange())
    }

    /// The next change that its program gave, if it has one.
    pub(crate) fn next_change(&mut self, at: u64) -> Option<LineChange>
        ensures { IsAskedOf at result (Some self.old) (Some self.new) }
    {
        self.exchange.as_mut()?.next_change(at)
    }

    /// Takes the hook off, or puts it on.
    pub(crate) fn set_hook(&mut self, off: bool, at: u64) -> Put
        ensures { HooksBy off result (Some self.old) (Some self.new) }
    {
        match &mut self.exchange {
            Some(exchange) => exchange.set_hook(off, at),
            None => Put::Done,
        }
    }
}
