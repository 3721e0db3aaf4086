// Faults that constants make.

use crate::mistakes::Mistakes;
use awk_findings::calls::{ends_value, kind_before, kind_behind};
use awk_lex::token::{Kind, Operator, Token};
use awk_value::pow;
use std::alloc::AllocError;

const BY_ZERO: &[u8] = b"a division by zero, fault 4 when it is met";

/// The number that a token is.
fn number_at(tokens: &[Token], at: usize) -> Option<i128> {
    match kind_behind(tokens, at, 0) {
        Some(Kind::Number(value)) => Some(*value),
        _ => None,
    }
}

/// Whether a power begins behind a token.
fn is_base(tokens: &[Token], at: usize) -> bool {
    matches!(
        kind_behind(tokens, at, 1),
        Some(Kind::Operator(Operator::Power))
    )
}

impl<'a> Mistakes<'a> {
    /// `/ 0` and `% 0`.
    pub(crate) fn add_division(&mut self, at: usize) -> Result<(), AllocError> {
        let divisor = at.saturating_add(1);
        if number_at(self.tokens, divisor) != Some(0) || is_base(self.tokens, divisor) {
            return Ok(());
        }
        self.add_stretch(at, divisor.saturating_add(1), BY_ZERO, b"")
    }

    /// `/= 0` and `%= 0`.
    pub(crate) fn add_assigned_division(&mut self, at: usize) -> Result<(), AllocError> {
        let divisor = at.saturating_add(1);
        if number_at(self.tokens, divisor) != Some(0) || !ends_value(self.tokens, divisor) {
            return Ok(());
        }
        self.add_stretch(at, divisor.saturating_add(1), BY_ZERO, b"")
    }

    /// `2 ^ -1`.
    fn add_negative_power(&mut self, at: usize) -> Result<(), AllocError> {
        let exponent = at.saturating_add(2);
        match (
            kind_behind(self.tokens, at, 1),
            number_at(self.tokens, exponent),
        ) {
            (Some(Kind::Operator(Operator::Minus)), Some(1..)) if !is_base(self.tokens, exponent) =>
                self.add_stretch(
                    at,
                    exponent.saturating_add(1),
                    b"a negative exponent, fault 5 when it is met",
                    b"numbers are whole: divide by the power",
                ),
            _ => Ok(()),
        }
    }

    /// A power of two constants that is out of range, or one with a negative exponent.
    pub(crate) fn add_power(&mut self, at: usize) -> Result<(), AllocError> {
        let Some(base) = at.checked_sub(1) else {
            return Ok(());
        };
        let exponent = at.saturating_add(1);
        // (`$2 ^ 3` is a field's power, and `getline <2 ^ 3` that of what it gives)
        let is_operand = matches!(
            kind_before(self.tokens, base, 1),
            Some(Kind::Dollar | Kind::Operator(Operator::Less))
        );
        match (
            number_at(self.tokens, base),
            number_at(self.tokens, exponent),
        ) {
            (Some(value), Some(times))
                if !is_operand && !is_base(self.tokens, exponent) && pow(value, times).is_err() => {
                self.add_stretch(
                    base,
                    exponent.saturating_add(1),
                    b"the power is out of range, fault 3 when it is met",
                    b"numbers go from -2^127 to 2^127 - 1",
                )
            }
            (_, None) => self.add_negative_power(at),
            _ => Ok(()),
        }
    }

    /// `$(-1)`.
    pub(crate) fn add_negative_field(&mut self, at: usize) -> Result<(), AllocError> {
        let is_negative = matches!(
            (
                kind_behind(self.tokens, at, 1),
                kind_behind(self.tokens, at, 2)
            ),
            (
                Some(Kind::OpenParenthesis),
                Some(Kind::Operator(Operator::Minus))
            )
        );
        let number = number_at(self.tokens, at.saturating_add(3));
        let is_closed = matches!(
            kind_behind(self.tokens, at, 4),
            Some(Kind::CloseParenthesis)
        );
        match number {
            Some(1..) if is_negative && is_closed => self.add_stretch(
                at,
                at.saturating_add(5),
                b"a field below $0, fault 8 when it is met",
                b"the last field is $NF, and the one before it $(NF - 1)",
            ),
            _ => Ok(()),
        }
    }
}
