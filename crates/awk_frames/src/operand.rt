// Operands and lists of operands that are read. Beside a tree, which is none where it is too high, stands what the parser
// has to know of it, so that it goes on without the tree.

ghost use Rattle.std.specs.Prelude.{◌≡◌, IfOk};
ghost use Rattle.awk_grammar.specs.definitions.Tree as t;
ghost use Rattle.awk_grammar.specs.definitions.Height.{max_height};
ghost use Rattle.awk_grammar.specs.support.Parser as parser;
ghost use Rattle.awk_frames.specs.support.CheckedExpressions.{checked_expr, checked_child};
ghost use Rattle.awk_frames.specs.support.FrameView.{operand_of, optional_operand_of, list_of};

use crate::checked_expressions::{CheckedExpr, CheckedExprs};
use crate::child::OptionalChild;
use crate::lists::one_more_expr;
use awk_grammar::precedence::PRIMARY;
use awk_grammar::tree::{Ere, Expr};
use awk_value::Bytes;
use std::alloc::{AllocError, Global};

/// An operand: its precedence, whether it is a place, and its tree unless that is too high.
#[derive(Drop)]
pub struct Operand {
    pub precedence: u8,
    pub is_place: bool,
    pub tree: Option<CheckedExpr>,
}

/// A list of operands: how many, whether it has no third or the third is a place, and the trees.
#[derive(Drop)]
pub struct OperandList {
    pub count: usize,
    pub third_is_place: bool,
    pub exprs: Option<CheckedExprs>,
}

impl Operand {
    /// An operand that can't be assigned.
    pub fn new(precedence: u8, tree: Option<CheckedExpr>) -> Operand
        ensures { operand_of result ≡ parser.operand_of precedence (checked_expr tree) }
    {
        Operand {
            precedence,
            is_place: false,
            tree,
        }
    }

    /// An operand that can be assigned.
    pub fn place(precedence: u8, tree: Option<CheckedExpr>) -> Operand
        ensures { operand_of result ≡ parser.place_operand precedence (checked_expr tree) }
    {
        Operand {
            precedence,
            is_place: true,
            tree,
        }
    }

    /// A number.
    pub fn number(alloc: Global, n: i128) -> Result<Operand, AllocError>
        ensures { IfOk result (λ p. operand_of p ≡ parser.leaf max_height (t.Number n)) }
    {
        let expr = Box::new(alloc, Expr::Number(n))?;
        Ok(Operand::new(PRIMARY, Some(CheckedExpr { expr, height: 1 })))
    }

    /// A string.
    pub fn string(alloc: Global, bytes: Bytes) -> Result<Operand, AllocError>
        ensures { IfOk result (λ p. operand_of p ≡ parser.leaf max_height (t.String bytes)) }
    {
        let expr = Box::new(alloc, Expr::String(bytes))?;
        Ok(Operand::new(PRIMARY, Some(CheckedExpr { expr, height: 1 })))
    }

    /// An ERE.
    pub fn ere(alloc: Global, ere: Ere) -> Result<Operand, AllocError>
        ensures { IfOk result (λ p. operand_of p ≡ parser.leaf max_height (t.Ere ere.text)) }
    {
        let expr = Box::new(alloc, Expr::Ere(ere))?;
        Ok(Operand::new(PRIMARY, Some(CheckedExpr { expr, height: 1 })))
    }

    /// The word `length` without parentheses.
    pub fn length(alloc: Global) -> Result<Operand, AllocError>
        ensures { IfOk result (λ p. operand_of p ≡ parser.leaf max_height t.Length) }
    {
        let expr = Box::new(alloc, Expr::Length)?;
        Ok(Operand::new(PRIMARY, Some(CheckedExpr { expr, height: 1 })))
    }

    /// A name.
    pub fn name(alloc: Global, name: Bytes) -> Result<Operand, AllocError>
        ensures { IfOk result (λ p. operand_of p ≡ parser.name_operand max_height name) }
    {
        let expr = Box::new(alloc, Expr::Name(name))?;
        Ok(Operand::place(PRIMARY, Some(CheckedExpr { expr, height: 1 })))
    }
}

/// An operand that may be left out, as a child of a node.
pub(crate) fn child_of(operand: Option<Operand>) -> OptionalChild
    ensures { checked_child result ≡ parser.optional_expr max_height (optional_operand_of operand) }
{
    match operand {
        None => OptionalChild::Absent,
        Some(operand) => OptionalChild::Present(operand.tree),
    }
}

impl OperandList {
    /// None so far.
    pub fn new(alloc: Global) -> OperandList
        ensures { list_of result ≡ parser.no_operands max_height }
    {
        OperandList {
            count: 0,
            third_is_place: true,
            exprs: Some(CheckedExprs::new(alloc)),
        }
    }

    /// With one operand more.
    pub fn with(self, operand: Operand) -> Result<OperandList, AllocError>
        ensures { IfOk result (λ xs. list_of xs ≡ parser.one_more max_height (list_of self) (operand_of operand)) }
    {
        let Some(count) = self.count.checked_add(1) else {
            drop(operand);
            drop(self);
            return Err(AllocError);
        };
        let third_is_place = if self.count == 2 {
            operand.is_place
        } else {
            self.third_is_place
        };
        Ok(OperandList {
            count,
            third_is_place,
            exprs: one_more_expr(self.exprs, operand.tree)?,
        })
    }
}
