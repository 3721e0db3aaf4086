// Checked statements and items: each is known not to be too high, and has its height beside it.

ghost use Rattle.std.specs.Prelude.{◌≡◌, ◌≤◌, [], None};
ghost use Rattle.awk_grammar.specs.definitions.Height.{max_height, optional_height, height_of_print_list};
ghost use Rattle.awk_grammar.specs.definitions.Height.{height_of_simple, height_of_optional_simple, height_of_statement};
ghost use Rattle.awk_grammar.specs.definitions.Height.{tallest_of, height_of_pattern, height_of_item, height_of_program};
ghost use Rattle.awk_grammar.specs.definitions.View.{optional_expr_of, print_list_of, simple_of, optional_simple_of};
ghost use Rattle.awk_grammar.specs.definitions.View.{statement_of, statements_of, pattern_of, item_of, items_of};

use awk_grammar::tree::{Expr, Item, Pattern, PrintList, SimpleStatement, Statement};
use std::alloc::Global;

/// What a print prints.
#[derive(Drop)]
pub struct CheckedPrintList {
    pub list: PrintList,
    pub height: u32,
    ghost counted: { height ≡ height_of_print_list (print_list_of list) },
    ghost low: { height ≤ max_height },
}

/// A simple statement that is not too high.
#[derive(Drop)]
pub struct CheckedSimple {
    pub simple: SimpleStatement,
    pub height: u32,
    ghost counted: { height ≡ height_of_simple (simple_of simple) },
    ghost low: { height ≤ max_height },
}

/// An outer part of a `for`, which may be left out.
#[derive(Drop)]
pub struct CheckedPart {
    pub part: Option<SimpleStatement>,
    pub height: u32,
    ghost counted: { height ≡ height_of_optional_simple (optional_simple_of part) },
    ghost low: { height ≤ max_height },
}

impl CheckedPart {
    /// It is left out.
    pub fn absent() -> CheckedPart
        ensures { result.part ≡ None }
    {
        CheckedPart {
            part: None,
            height: 0,
        }
    }
}

/// The condition of a `for`, or the value of an `exit` or `return`, which may be left out.
#[derive(Drop)]
pub struct CheckedOptionalExpr {
    pub expr: Option<Box<Expr>>,
    pub height: u32,
    ghost counted: { height ≡ optional_height (optional_expr_of expr) },
    ghost low: { height ≤ max_height },
}

impl CheckedOptionalExpr {
    /// It is left out.
    pub fn absent() -> CheckedOptionalExpr
        ensures { result.expr ≡ None }
    {
        let height = 0;
        CheckedOptionalExpr { expr: None, height }
    }
}

/// A statement that is not too high, in a box.
#[derive(Drop)]
pub struct CheckedStatement {
    pub statement: Box<Statement>,
    pub height: u32,
    ghost counted: { height ≡ height_of_statement (statement_of statement.value) },
    ghost low: { height ≤ max_height },
}

/// The statements of a block, and the greatest height among them.
#[derive(Drop)]
pub struct CheckedStatements {
    pub statements: Vec<Statement>,
    pub height: u32,
    ghost counted: { height ≡ tallest_of (statements_of statements.items) },
    ghost low: { height ≤ max_height },
}

impl CheckedStatements {
    /// None so far.
    pub fn new(alloc: Global) -> CheckedStatements
        ensures { result.statements.items ≡ [] }
    {
        CheckedStatements {
            statements: Vec::new(alloc),
            height: 0,
        }
    }
}

/// A pattern that is not too high.
#[derive(Drop)]
pub struct CheckedPattern {
    pub pattern: Pattern,
    pub height: u32,
    ghost counted: { height ≡ height_of_pattern (pattern_of pattern) },
    ghost low: { height ≤ max_height },
}

/// An item that is not too high.
#[derive(Drop)]
pub struct CheckedItem {
    pub item: Item,
    ghost low: { height_of_item (item_of item) ≤ max_height },
}

/// The items of a program, none of them too high.
#[derive(Drop)]
pub struct CheckedItems {
    pub items: Vec<Item>,
    ghost low: { height_of_program (items_of items.items) ≤ max_height },
}

impl CheckedItems {
    /// None so far.
    pub fn new(alloc: Global) -> CheckedItems
        ensures { result.items.items ≡ [] }
    {
        CheckedItems {
            items: Vec::new(alloc),
        }
    }
}
