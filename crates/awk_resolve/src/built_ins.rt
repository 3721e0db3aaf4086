// Built-in functions as nodes.

ghost use Rattle.std.specs.Prelude.{◌≡◌, IfOk, IfSome};
ghost use Rattle.awk_grammar.specs.Tree as tree;
ghost use Rattle.awk_grammar.specs.View.{expr_of, exprs_of};
ghost use Rattle.awk_resolve.specs.support.Builds.{Stands, Evaluate};
ghost use Rattle.awk_resolve.specs.support.Exchanges.{FindsExchangeBy, FindsExchange};
ghost use Rattle.awk_resolve.specs.support.Operands.{split_by, takes_one, reads_in_place, strict_node, substitution};
ghost use Rattle.awk_resolve.specs.support.Scopes.{Builds, LowersValue};

use crate::builder::{Builder, next_number};
use crate::calls::name_in;
use crate::excluded::no_such_call;
use crate::node::{Exchange, OutsideCall, SplitBy, ValueNode};
use crate::readings::is_read_behind;
use crate::scope::Scope;
use awk_grammar::tree::Expr;
use awk_lex::token::BuiltIn;
use awk_storage::Variable;
use awk_value::{Bytes, Value};
use std::alloc::AllocError;

/// What separates the pieces, by the ERE that stands there, or by a value.
fn split_by(pattern: Option<u32>) -> SplitBy
    ensures { result ≡ split_by pattern }
{
    match pattern {
        Some(number) => SplitBy::Ere(number),
        None => SplitBy::Value,
    }
}

/// Whether the function takes one value, as `close` and `system` do.
fn takes_one(function: BuiltIn) -> bool
    ensures { result ≡ takes_one function }
{
    match function {
        BuiltIn::Close => true,
        BuiltIn::System => true,
        _ => false,
    }
}

/// Whether the function is one of values alone that reads the first of them where they stand.
fn reads_in_place(function: BuiltIn) -> bool
    ensures { result ≡ reads_in_place function }
{
    match function {
        BuiltIn::Substr | BuiltIn::Index => true,
        _ => false,
    }
}

/// What a function makes of so many values.
fn strict_node(function: BuiltIn, count: u32) -> ValueNode
    ensures { result ≡ strict_node function count }
{
    match function {
        BuiltIn::Close => ValueNode::Outside(OutsideCall::Close),
        BuiltIn::System => ValueNode::Outside(OutsideCall::System),
        _ => ValueNode::Apply(function, count),
    }
}

/// The ERE and the string that a pattern and a replacement are, if they are such.
fn ere_and_string<'a>(pattern: &'a Expr, replacement: &'a Expr) -> Option<(&'a Bytes, &'a Bytes)>
    ensures { IfSome result (λ texts. (expr_of pattern.now ≡ tree.Ere texts.0.now) × (expr_of replacement.now ≡ tree.String texts.1.now)) }
{
    let Expr::Ere(ere) = pattern else {
        return None;
    };
    let Expr::String(text) = replacement else {
        return None;
    };
    Some((&ere.text, text))
}

/// The function that exchanges all matches, or the first.
fn substitution(all: bool) -> BuiltIn
    ensures { result ≡ substitution all }
{
    if all {
        return BuiltIn::Gsub;
    }
    BuiltIn::Sub
}

// The functions below lower each number of arguments that the grammar has; a call with another one is never parsed.
impl Builder {
    /// `length`
    #[cycle(expressions)]
    fn lower_length(&mut self, scope: &Scope, list: &[Expr], next: u32) -> Result<u32, AllocError>
        requires { Stands next self.old }
        ensures { IfOk result (λ place. Builds scope.now self.old self.new place (Evaluate (tree.BuiltIn BuiltIn.Length (exprs_of list.now)) next)) }
    {
        match list {
            [] => self.push_value(ValueNode::RecordLength, next),
            [e] => {
                if let Some(array) = scope.measured(e) {
                    return self.push_value(ValueNode::CountElements(array), next);
                }
                if let Some(operands) = self.operands_of(scope, list)? {
                    let length = ValueNode::ApplyTo(BuiltIn::Length, operands, 0);
                    return self.push_value(length, next);
                }
                let length = self.push_value(ValueNode::Apply(BuiltIn::Length, 1), next)?;
                self.lower(scope, e, length)
            }
            _ => Err(no_such_call(BuiltIn::Length, list.len()).unwrap()),
        }
    }

    /// `fflush`
    #[cycle(expressions)]
    fn lower_flush(&mut self, scope: &Scope, list: &[Expr], next: u32) -> Result<u32, AllocError>
        requires { Stands next self.old }
        ensures { IfOk result (λ place. Builds scope.now self.old self.new place (Evaluate (tree.BuiltIn BuiltIn.Fflush (exprs_of list.now)) next)) }
    {
        match list {
            [] => self.push_value(ValueNode::Outside(OutsideCall::FlushAll), next),
            [name] => {
                let flush = self.push_value(ValueNode::Outside(OutsideCall::Flush), next)?;
                self.lower(scope, name, flush)
            }
            _ => Err(no_such_call(BuiltIn::Fflush, list.len()).unwrap()),
        }
    }

    /// `match`
    #[cycle(expressions)]
    fn lower_match(&mut self, scope: &Scope, list: &[Expr], next: u32) -> Result<u32, AllocError>
        requires { Stands next self.old }
        ensures { IfOk result (λ place. Builds scope.now self.old self.new place (Evaluate (tree.BuiltIn BuiltIn.Match (exprs_of list.now)) next)) }
    {
        let [text, pattern] = list else {
            return Err(no_such_call(BuiltIn::Match, list.len()).unwrap());
        };
        let number = self.pattern_of(pattern)?;
        let found = self.push_value(ValueNode::Match(number), next)?;
        let right = self.lower_unless_ere(scope, pattern, found)?;
        self.lower(scope, text, right)
    }

    /// `split`
    #[cycle(expressions)]
    fn lower_split(&mut self, scope: &Scope, list: &[Expr], next: u32) -> Result<u32, AllocError>
        requires { Stands next self.old }
        ensures { IfOk result (λ place. Builds scope.now self.old self.new place (Evaluate (tree.BuiltIn BuiltIn.Split (exprs_of list.now)) next)) }
    {
        match list {
            [text, array] => {
                let array = scope.array_of(name_in(array))?;
                let by = SplitBy::FieldSeparator;
                let split = self.push_value(ValueNode::Split(array, by), next)?;
                self.lower(scope, text, split)
            }
            [text, array, separator] => {
                let array = scope.array_of(name_in(array))?;
                let by = split_by(self.pattern_of(separator)?);
                let split = self.push_value(ValueNode::Split(array, by), next)?;
                let right = self.lower_unless_ere(scope, separator, split)?;
                self.lower(scope, text, right)
            }
            _ => Err(no_such_call(BuiltIn::Split, list.len()).unwrap()),
        }
    }

    /// What exchanges matches of an ERE with a string.
    fn exchange_by(
        &mut self,
        all: bool,
        ere: &Bytes,
        replacement: &Bytes,
        variable: Option<Variable>,
    ) -> Result<Exchange, AllocError>
        ensures { IfOk result (λ exchange. FindsExchangeBy self.old self.new all ere.now replacement.now variable exchange) }
    {
        let number = self.ere_of(ere)?;
        Ok(Exchange {
            all,
            ere: number,
            replacement: Value::Text(replacement.clone()?),
            variable,
        })
    }

    /// What a `sub` or `gsub` exchanges that takes nothing off the stack: by an ERE, with a string, in a variable or in the record. None
    /// of any other.
    ///
    /// # Errors
    ///
    /// Where memory is refused, or numbers run out.
    pub(crate) fn exchange_of(
        &mut self,
        scope: &Scope,
        all: bool,
        list: &[Expr],
    ) -> Result<Option<Exchange>, AllocError>
        ensures { IfOk result (λ exchange. FindsExchange scope.now self.old self.new exchange all (exprs_of list.now)) }
    {
        match list {
            [pattern, replacement] => {
                let Some((ere, text)) = ere_and_string(pattern, replacement) else {
                    return Ok(None);
                };
                Ok(Some(self.exchange_by(all, ere, text, None)?))
            }
            [pattern, replacement, variable] => {
                let Some((ere, text)) = ere_and_string(pattern, replacement) else {
                    return Ok(None);
                };
                let Expr::Name(x) = variable else {
                    return Ok(None);
                };
                let variable = Some(self.variable_of(scope, x.as_slice())?);
                Ok(Some(self.exchange_by(all, ere, text, variable)?))
            }
            _ => Ok(None),
        }
    }

    /// `sub` and `gsub`
    #[cycle(expressions)]
    fn lower_substitute(
        &mut self,
        scope: &Scope,
        all: bool,
        list: &[Expr],
        next: u32,
    ) -> Result<u32, AllocError>
        requires { Stands next self.old }
        ensures { IfOk result (λ place. Builds scope.now self.old self.new place (Evaluate (tree.BuiltIn (substitution all) (exprs_of list.now)) next)) }
    {
        if let Some(exchange) = self.exchange_of(scope, all, list)? {
            return self.push_value(ValueNode::SubstituteIn(exchange), next);
        }
        match list {
            [pattern, replacement] => {
                let number = self.pattern_of(pattern)?;
                let substitute = self.push_value(ValueNode::Substitute(all, number, None), next)?;
                let right = self.lower(scope, replacement, substitute)?;
                self.lower_unless_ere(scope, pattern, right)
            }
            [pattern, replacement, place] => {
                let target = self.place_of(scope, place)?;
                let number = self.pattern_of(pattern)?;
                let node = ValueNode::Substitute(all, number, Some(target));
                let substitute = self.push_value(node, next)?;
                let old = self.push_value(ValueNode::Load(target), substitute)?;
                let operand = self.lower_operand(scope, place, old)?;
                let right = self.lower(scope, replacement, operand)?;
                self.lower_unless_ere(scope, pattern, right)
            }
            _ => Err(no_such_call(substitution(all), list.len()).unwrap()),
        }
    }

    /// A call of a built-in function.
    #[cycle(expressions)]
    pub(crate) fn lower_built_in(
        &mut self,
        scope: &Scope,
        function: BuiltIn,
        list: &[Expr],
        next: u32,
    ) -> Result<u32, AllocError>
        requires { Stands next self.old }
        ensures { IfOk result (λ place. Builds scope.now self.old self.new place (Evaluate (tree.BuiltIn function (exprs_of list.now)) next)) }
    {
        match function {
            BuiltIn::Length => self.lower_length(scope, list, next),
            BuiltIn::Fflush => self.lower_flush(scope, list, next),
            BuiltIn::Match => self.lower_match(scope, list, next),
            BuiltIn::Split => self.lower_split(scope, list, next),
            BuiltIn::Sub => self.lower_substitute(scope, false, list, next),
            BuiltIn::Gsub => self.lower_substitute(scope, true, list, next),
            _ => {
                if let Some(place) = self.lower_in_place(scope, function, list, next)? {
                    return Ok(place);
                }
                if takes_one(function) && list.len() != 1 {
                    return Err(no_such_call(function, list.len()).unwrap());
                }
                let count = next_number(list.len())?;
                let last = self.push_value(strict_node(function, count), next)?;
                self.lower_all(scope, list, last)
            }
        }
    }

    /// A call of a function that reads operands where they stand: all its arguments, or the first where it may be read behind the others.
    /// None of any other call.
    #[cycle(expressions)]
    fn lower_in_place(
        &mut self,
        scope: &Scope,
        function: BuiltIn,
        list: &[Expr],
        next: u32,
    ) -> Result<Option<u32>, AllocError>
        requires { Stands next self.old }
        ensures { IfOk result (λ place. LowersValue scope.now self.old self.new place (tree.BuiltIn function (exprs_of list.now)) next) }
    {
        if !reads_in_place(function) {
            return Ok(None);
        }
        if let Some(operands) = self.operands_of(scope, list)? {
            let place = self.push_value(ValueNode::ApplyTo(function, operands, 0), next)?;
            return Ok(Some(place));
        }
        let Some((first, others)) = list.split_first() else {
            return Ok(None);
        };
        if !is_read_behind(first, others) {
            return Ok(None);
        }
        let Some(operand) = self.operands_of(scope, &list[..1])? else {
            return Ok(None);
        };
        let count = next_number(others.len())?;
        let last = self.push_value(ValueNode::ApplyTo(function, operand, count), next)?;
        let place = self.lower_all(scope, others, last)?;
        Ok(Some(place))
    }
}
