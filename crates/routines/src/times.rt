//! Delays in ticks, and variables of the time.

use crate::expansion::{Expansion, StatementSpot, add};
use call_nodes::times::{kept_time_node, number_of_size, tens_node, time_node};
use ranges::range::VectorRange;
use sizing::faults::ExpressionFaultKind;
use statement_parts::delays::delay_at;
use statement_parts::faults::{Lowered, StatementKind, fault};
use statement_parts::scales::{TICKS, TimeScale, decimal_of, scaled, scaled_decimal};
use std::alloc::{AllocError, Global};
use syntax_tree::expressions::VerilogExpression;
use syntax_tree::statements::VerilogStatement;

/// The digits of the time.
const TIME_RANGE: VectorRange = VectorRange { most: 63, least: 0 };

/// Whether a conversion goes on behind a byte, by whether one has begun before it.
fn is_begun(begun: bool, byte: u8) -> bool {
    match byte {
        b'%' => !begun,
        b'0'..=b'9' => begun,
        _ => false,
    }
}

/// Whether a letter behind a `%` takes an argument.
fn takes_argument(letter: u8) -> bool {
    match letter {
        b'%' | b'm' | b'M' => false,
        b'0'..=b'9' => false,
        _ => true,
    }
}

/// Which of the arguments behind a format are shown as times, the last one first (17.1.1). Fails where memory is refused.
fn times_in(alloc: Global, format: &[u8]) -> Result<Vec<bool>, AllocError> {
    let mut found = Vec::new(alloc);
    let mut begun = false;
    for byte in format {
        if begun && takes_argument(*byte) {
            found.push(*byte == b't' || *byte == b'T')?;
        }
        begun = is_begun(begun, *byte);
    }
    found.reverse();
    Ok(found)
}

/// The same of an argument: none where it is no format.
fn times_of(alloc: Global, argument: &VerilogExpression) -> Result<Vec<bool>, AllocError> {
    match argument {
        VerilogExpression::Text { bytes, .. } => times_in(alloc, bytes.as_slice()),
        _ => Ok(Vec::new(alloc)),
    }
}

impl<'r, 't> Expansion<'r, 't> {
    /// The scale of the module in which a token stands.
    fn scale_at(&self, token: usize) -> TimeScale {
        let behind = self.scales.partition_point(|module| module.token <= token);
        match self.scales.get(behind.saturating_sub(1)) {
            Some(module) => module.scale,
            None => TICKS,
        }
    }

    /// Refuses the time in a module whose unit isn't the tick.
    pub(crate) fn refuse_scaled(&self, token: usize) -> Lowered<()> {
        if self.scale_at(token).unit > 0 {
            return fault(token, StatementKind::ScaledTime);
        }
        Ok(())
    }

    /// Which of the arguments behind an argument are times, the last one first, where it is a format of a module whose unit isn't the least
    /// precision of all.
    pub(crate) fn times_behind(
        &self,
        token: usize,
        argument: &Option<VerilogExpression>,
    ) -> Lowered<Vec<bool>> {
        if self.scale_at(token).shown == 0 {
            return Ok(Vec::new(self.alloc));
        }
        match argument {
            Some(e) => Ok(times_of(self.alloc, e)?),
            None => Ok(Vec::new(self.alloc)),
        }
    }

    /// An argument of a call at a token that is shown as a time: in the least precision of all modules (17.1.1.6).
    pub(crate) fn shown_time(
        &self,
        token: usize,
        argument: Option<VerilogExpression>,
    ) -> Lowered<Option<VerilogExpression>> {
        match argument {
            Some(e) => {
                let power = self.scale_at(token).shown;
                Ok(Some(tens_node(self.alloc, token, e, power)?))
            }
            None => Ok(None),
        }
    }

    /// What holds the time: a variable that is given it before, or the low digits of that (17.7). Refuses arguments.
    pub(crate) fn time(
        &mut self,
        at: StatementSpot,
        token: usize,
        function: &[u8],
        arguments: &[VerilogExpression],
        out: &mut Vec<VerilogStatement>,
    ) -> Lowered<VerilogExpression> {
        if !arguments.is_empty() {
            let kind = ExpressionFaultKind::Arguments;
            return fault(token, StatementKind::Expression(kind));
        }
        self.refuse_scaled(token)?;
        let name = self
            .scopes
            .declare_own(at.scope, token, b"time", Some(TIME_RANGE))?;
        add(out, time_node(self.alloc, token, name.as_slice())?)?;
        Ok(kept_time_node(self.alloc, token, function, name.as_slice())?)
    }

    /// The ticks of a delay of a statement at a token, where these aren't what the text has: of a real number, and where the unit isn't the
    /// tick (9.7.1, 19.8).
    fn ticks_of(
        &self,
        at: StatementSpot,
        token: usize,
        e: &VerilogExpression,
    ) -> Lowered<Option<u64>> {
        let scale = self.scale_at(token);
        if let VerilogExpression::Real { token, text } = e {
            let Some(number) = decimal_of(text.as_slice()) else {
                let kind = ExpressionFaultKind::Real;
                return fault(*token, StatementKind::Expression(kind));
            };
            return short(*token, scaled_decimal(number, scale));
        }
        if scale.unit == 0 {
            return Ok(None);
        }
        let place = self.scopes.design.place(at.scope);
        let delay = delay_at(self.alloc, &place, token, e)?;
        short(token, scaled(delay, scale))
    }

    /// A number of ticks, of 64 digits.
    fn ticks_node(&self, token: usize, ticks: u64) -> Lowered<Box<VerilogExpression>> {
        let made = number_of_size(self.alloc, token, 64, ticks)?;
        Ok(Box::new(self.alloc, made)?)
    }

    /// A delay of a statement at a token, in ticks (9.7.1, 19.8).
    #[cycle(expansion)]
    pub(crate) fn delay(
        &mut self,
        at: StatementSpot,
        token: usize,
        e: &VerilogExpression,
        out: &mut Vec<VerilogStatement>,
    ) -> Lowered<Box<VerilogExpression>> {
        match self.ticks_of(at, token, e)? {
            Some(ticks) => self.ticks_node(token, ticks),
            None => self.boxed(at, e, out),
        }
    }
}

/// The ticks of a delay that isn't too long. Refuses one that is.
fn short(token: usize, ticks: Option<u64>) -> Lowered<Option<u64>> {
    match ticks {
        Some(_) => Ok(ticks),
        None => fault(token, StatementKind::LongDelay),
    }
}
