// The items of a program as places: the actions before all records, the rules on a record, and the actions behind all records.

ghost use Rattle.std.specs.Prelude.{◌≡◌, true, [], IfOk};
ghost use Rattle.awk_grammar.specs.Tree.{Range};
ghost use Rattle.awk_grammar.specs.View.{expr_of, statements_of, pattern_of, item_of, items_of};
ghost use Rattle.awk_kinds.specs.Placed.{item_fits, are_in_place};
ghost use Rattle.awk_semantics.specs.Items.{run_action, print_record, try_item, is_rule, has_rule};
ghost use Rattle.awk_resolve.specs.support.Plans.{begin_run, rules_run, end_run};
ghost use Rattle.awk_resolve.specs.support.Builds.{Stands, ExecuteAll};
ghost use Rattle.awk_resolve.specs.support.Holding.{IsOver, IsAction, AddsPlace, Passes, Selects};
ghost use Rattle.awk_resolve.specs.support.Scopes.{Builds};

use crate::builder::{Builder, Exits, next_number};
use crate::node::{EffectNode, Node, Tested};
use crate::scope::Scope;
use awk_grammar::tree::{Expr, Item, Pattern, PrintForm, Statement};
use awk_kinds::Kinds;
use std::alloc::AllocError;

/// Whether records are read for an item.
fn is_rule(item: &Item) -> bool
    ensures { result ≡ is_rule (item_of item.now) }
{
    match item {
        Item::Begin(_) | Item::Function(_, _, _) => false,
        _ => true,
    }
}

/// Whether records are read at all: not where only BEGIN and functions stand.
pub(crate) fn has_rule(items: &[Item]) -> bool
    ensures { result ≡ has_rule (items_of items.now) }
{
    items.iter().any(|item| is_rule(item))
}

impl Builder {
    /// A body, which goes on at a place, however its statements pass on.
    pub(crate) fn lower_body(
        &mut self,
        scope: &Scope,
        all: &[Statement],
        next: u32,
    ) -> Result<u32, AllocError>
        requires { Stands next self.old }
        ensures { IfOk result (λ place. Builds scope.now self.old self.new place
            (ExecuteAll (statements_of all.now) (record { next = next; breaks = next; continues = next }))) }
    {
        let exits = Exits {
            next,
            breaks: next,
            continues: next,
        };
        self.lower_block(scope, all, exits)
    }

    /// The action of an item, and what follows it.
    fn lower_action(
        &mut self,
        kinds: &Kinds,
        all: &[Statement],
        next: u32,
    ) -> Result<u32, AllocError>
        requires next { Stands next self.old }
        requires action { IsAction (statements_of all.now) }
        ensures { IfOk result (λ place. Passes kinds.now self.old self.new place (λ functions. run_action functions (statements_of all.now)) next) }
    {
        let scope = Scope {
            kinds,
            parameters: None,
        };
        self.lower_body(&scope, all, next)
    }

    /// The print of a pattern without an action, and what follows it.
    fn push_print(&mut self, kinds: &Kinds, next: u32) -> Result<u32, AllocError>
        requires { Stands next self.old }
        ensures { IfOk result (λ place. Passes kinds.now self.old self.new place print_record next) }
    {
        let print = self.push(Node::Effect(EffectNode::Print(PrintForm::Print, 0, None), next))?;
        self.step(print)
    }

    /// A range, by the number of its item: it is inside from where it begins, and its second expression tells where it ends.
    fn lower_range(
        &mut self,
        kinds: &Kinds,
        number: u32,
        from: &Expr,
        to: &Expr,
        here: u32,
        other: u32,
    ) -> Result<u32, AllocError>
        requires here { Stands here self.old }
        requires other { Stands other self.old }
        ensures { IfOk result (λ place. Selects kinds.now self.old self.new place number (Range (expr_of from.now) (expr_of to.now)) here other) }
    {
        let scope = Scope {
            kinds,
            parameters: None,
        };
        let ends = self.push(Node::Effect(EffectNode::SetInside(number, false), here))?;
        let through = self.lower_test(&scope, to, ends, here)?;
        let begins = self.push(Node::Effect(EffectNode::SetInside(number, true), through))?;
        let outside = self.lower_test(&scope, from, begins, other)?;
        self.push(Node::Test(Tested::Inside(number), through, outside))
    }

    /// A pattern, by the number of its item: at one place it goes on where the record is selected, and at the other one where it isn't.
    fn lower_record_pattern(
        &mut self,
        kinds: &Kinds,
        number: u32,
        pattern: &Pattern,
        here: u32,
        other: u32,
    ) -> Result<u32, AllocError>
        requires here { Stands here self.old }
        requires other { Stands other self.old }
        ensures { IfOk result (λ place. Selects kinds.now self.old self.new place number (pattern_of pattern.now) here other) }
    {
        match pattern {
            Pattern::Single(e) => {
                let scope = Scope {
                    kinds,
                    parameters: None,
                };
                self.lower_test(&scope, e, here, other)
            }
            Pattern::Range(from, to) => self.lower_range(kinds, number, from, to, here, other),
        }
    }

    /// An item on a record, by its number, and what follows it.
    fn lower_item(
        &mut self,
        kinds: &Kinds,
        number: u32,
        item: &Item,
        next: u32,
    ) -> Result<u32, AllocError>
        requires next { Stands next self.old }
        requires in_place { item_fits (item_of item.now) ≡ true }
        ensures { IfOk result (λ place. Passes kinds.now self.old self.new place (λ functions. try_item functions number (item_of item.now)) next) }
    {
        match item {
            Item::Action(all) => self.lower_action(kinds, all, next),
            Item::PatternAction(pattern, all) => {
                let action = self.lower_action(kinds, all, next)?;
                self.lower_record_pattern(kinds, number, pattern, action, next)
            }
            Item::PatternOnly(pattern) => {
                let print = self.push_print(kinds, next)?;
                self.lower_record_pattern(kinds, number, pattern, print, next)
            }
            _ => Ok(next),
        }
    }

    /// The items of a program on a record, in their order; their places are put behind the others, from the last item on.
    pub(crate) fn lower_rules(
        &mut self,
        kinds: &Kinds,
        items: &[Item],
        over: u32,
        places: &mut Vec<u32>,
    ) -> Result<u32, AllocError>
        requires over { IsOver kinds.now over self.old }
        requires in_place { are_in_place (items_of items.now) ≡ true }
        ensures { IfOk result (λ place. AddsPlace kinds.now self.old self.new [] place (rules_run 0 (items_of items.now))) }
    {
        let mut next = over;
        for i in (0..items.len()).rev() {
            let number = next_number(i)?;
            next = self.lower_item(kinds, number, &items[i], next)?;
            places.push(next)?;
        }
        Ok(next)
    }

    /// The actions that come before all records, in their order.
    pub(crate) fn lower_begin(
        &mut self,
        kinds: &Kinds,
        items: &[Item],
        over: u32,
    ) -> Result<u32, AllocError>
        requires over { IsOver kinds.now over self.old }
        requires in_place { are_in_place (items_of items.now) ≡ true }
        ensures { IfOk result (λ place. AddsPlace kinds.now self.old self.new [] place (begin_run (items_of items.now))) }
    {
        let mut next = over;
        for i in (0..items.len()).rev() {
            if let Item::Begin(all) = &items[i] {
                next = self.lower_action(kinds, all, next)?;
            }
        }
        Ok(next)
    }

    /// The actions that come behind all records, in their order.
    pub(crate) fn lower_end(
        &mut self,
        kinds: &Kinds,
        items: &[Item],
        over: u32,
    ) -> Result<u32, AllocError>
        requires over { IsOver kinds.now over self.old }
        requires in_place { are_in_place (items_of items.now) ≡ true }
        ensures { IfOk result (λ place. AddsPlace kinds.now self.old self.new [] place (end_run (items_of items.now))) }
    {
        let mut next = over;
        for i in (0..items.len()).rev() {
            if let Item::End(all) = &items[i] {
                next = self.lower_action(kinds, all, next)?;
            }
        }
        Ok(next)
    }
}
