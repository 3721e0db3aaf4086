// What a program does with names, statement by statement.

ghost use Rattle.std.specs.Prelude.{◌≡◌, IfOk, OnOk};
ghost use Rattle.awk_grammar.specs.View.{print_list_of, output_of, simple_of, optional_simple_of};
ghost use Rattle.awk_grammar.specs.View.{statement_of, statements_of, pattern_of, item_of, items_of};
ghost use Rattle.awk_kinds.specs.definitions.Kinds.{outside_functions, uses_in_print_list, uses_in_output, uses_in_simple, uses_in_optional_simple};
ghost use Rattle.awk_kinds.specs.definitions.Kinds.{uses_in_statement, uses_in_block, uses_in_pattern, uses_in_item, uses_in};
ghost use Rattle.awk_kinds.specs.definitions.NameUses.{names_in_print_list, names_in_output, names_in_simple, names_in_optional_simple};
ghost use Rattle.awk_kinds.specs.definitions.NameUses.{names_in_statement, names_in_block, names_in_pattern, names_in_item, names_in};
ghost use Rattle.awk_kinds.specs.support.Adds.{Adds};
ghost use Rattle.awk_kinds.specs.support.Known.{HoldsUses};

use crate::scope::Scope;
use crate::uses::Uses;
use awk_grammar::tree::{Item, Output, Pattern, PrintList, SimpleStatement, Statement};
use std::alloc::{AllocError, Global};

impl Uses {
    fn add_print_list(&mut self, scope: &Scope, list: &PrintList) -> Result<(), AllocError>
        ensures { OnOk result (Adds self.old self.new (uses_in_print_list scope.now (print_list_of list.now)) (names_in_print_list scope.now (print_list_of list.now))) }
    {
        match list {
            PrintList::Bare(list) => self.add_list(scope, list),
            PrintList::Parenthesized(list) => self.add_list(scope, list),
        }
    }

    fn add_output(&mut self, scope: &Scope, output: &Output) -> Result<(), AllocError>
        ensures { OnOk result (Adds self.old self.new (uses_in_output scope.now (output_of output.now)) (names_in_output scope.now (output_of output.now))) }
    {
        match output {
            Output::Standard => Ok(()),
            Output::Redirected(_, target) => self.add_expr(scope, target),
        }
    }

    fn add_simple(&mut self, scope: &Scope, simple: &SimpleStatement) -> Result<(), AllocError>
        ensures { OnOk result (Adds self.old self.new (uses_in_simple scope.now (simple_of simple.now)) (names_in_simple scope.now (simple_of simple.now))) }
    {
        match simple {
            SimpleStatement::Expression(e) => self.add_expr(scope, e),
            SimpleStatement::Print(_, list, output) => {
                self.add_print_list(scope, list)?;
                self.add_output(scope, output)
            }
            SimpleStatement::Delete(array, list) => {
                self.add_array(scope, array)?;
                self.add_list(scope, list)
            }
            SimpleStatement::DeleteAll(array) => self.add_array(scope, array),
            SimpleStatement::Next
            | SimpleStatement::NextFile
            | SimpleStatement::Break
            | SimpleStatement::Continue => Ok(()),
            SimpleStatement::Exit(e) => self.add_optional_expr(scope, e),
            SimpleStatement::Return(e) => self.add_optional_expr(scope, e),
        }
    }

    /// An outer part of a `for`.
    fn add_part(&mut self, scope: &Scope, part: &Option<SimpleStatement>) -> Result<(), AllocError>
        ensures { OnOk result (Adds self.old self.new (uses_in_optional_simple scope.now (optional_simple_of part.now)) (names_in_optional_simple scope.now (optional_simple_of part.now))) }
    {
        match part {
            Some(simple) => self.add_simple(scope, simple),
            None => Ok(()),
        }
    }

    #[cycle(statements)]
    fn add_statement(&mut self, scope: &Scope, s: &Statement) -> Result<(), AllocError>
        ensures { OnOk result (Adds self.old self.new (uses_in_statement scope.now (statement_of s.now)) (names_in_statement scope.now (statement_of s.now))) }
    {
        match s {
            Statement::Empty => Ok(()),
            Statement::Simple(simple) => self.add_simple(scope, simple),
            Statement::Block(all) => self.add_block(scope, all),
            Statement::If(c, s) | Statement::While(c, s) => {
                self.add_expr(scope, c)?;
                self.add_statement(scope, s)
            }
            Statement::IfElse(c, s, other) => {
                self.add_expr(scope, c)?;
                self.add_statement(scope, s)?;
                self.add_statement(scope, other)
            }
            Statement::Do(s, c) => {
                self.add_statement(scope, s)?;
                self.add_expr(scope, c)
            }
            Statement::ForIn(key, array, s) => {
                self.add_scalar(scope, key)?;
                self.add_array(scope, array)?;
                self.add_statement(scope, s)
            }
            Statement::For(parts, s) => {
                self.add_part(scope, &parts.first)?;
                self.add_optional_expr(scope, &parts.condition)?;
                self.add_part(scope, &parts.last)?;
                self.add_statement(scope, s)
            }
        }
    }

    #[cycle(statements)]
    fn add_block(&mut self, scope: &Scope, all: &[Statement]) -> Result<(), AllocError>
        ensures { OnOk result (Adds self.old self.new (uses_in_block scope.now (statements_of all.now)) (names_in_block scope.now (statements_of all.now))) }
    {
        for s in all {
            self.add_statement(scope, s)?;
        }
        Ok(())
    }

    fn add_pattern(&mut self, scope: &Scope, pattern: &Pattern) -> Result<(), AllocError>
        ensures { OnOk result (Adds self.old self.new (uses_in_pattern scope.now (pattern_of pattern.now)) (names_in_pattern scope.now (pattern_of pattern.now))) }
    {
        match pattern {
            Pattern::Single(e) => self.add_expr(scope, e),
            Pattern::Range(from, to) => {
                self.add_expr(scope, from)?;
                self.add_expr(scope, to)
            }
        }
    }

    fn add_item(&mut self, alloc: Global, outside: &Scope, item: &Item) -> Result<(), AllocError>
        requires { outside.now ≡ outside_functions }
        ensures { OnOk result (Adds self.old self.new (uses_in_item (item_of item.now)) (names_in_item (item_of item.now))) }
    {
        match item {
            Item::Begin(block) => self.add_block(outside, block),
            Item::End(block) => self.add_block(outside, block),
            Item::Action(block) => self.add_block(outside, block),
            Item::PatternAction(pattern, block) => {
                self.add_pattern(outside, pattern)?;
                self.add_block(outside, block)
            }
            Item::PatternOnly(pattern) => self.add_pattern(outside, pattern),
            Item::Function(name, parameters, block) => {
                let scope = Scope::new(alloc, name, parameters)?;
                self.add_block(&scope, block)
            }
        }
    }

    /// What a program does with its names.
    pub(crate) fn of_items(alloc: Global, items: &[Item]) -> Result<Uses, AllocError>
        ensures { IfOk result (HoldsUses (items_of items.now)) }
    {
        let mut uses = Uses::new(alloc);
        let outside = Scope::outside_functions(alloc)?;
        for item in items {
            uses.add_item(alloc, &outside, item)?;
        }
        Ok(uses)
    }
}
