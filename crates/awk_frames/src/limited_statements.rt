// Statements by their heights: none where that is too great.

ghost use Rattle.std.specs.Prelude.{◌≡◌, IfOk};
ghost use Rattle.awk_grammar.specs.definitions.Height.{max_height, height_of_simple, height_of_statement};
ghost use Rattle.awk_grammar.specs.definitions.View.{simple_of, statement_of};
ghost use Rattle.awk_grammar.specs.support.Nodes.{limited};
ghost use Rattle.awk_frames.specs.support.CheckedStatementNodes.{checked_simple, checked_statement};

use crate::checked_statements::{CheckedSimple, CheckedStatement};
use awk_grammar::height::MAX_HEIGHT;
use awk_grammar::tree::{SimpleStatement, Statement};
use std::alloc::{AllocError, Global};

impl CheckedSimple {
    /// The node of this height, unless that is too high.
    pub fn of(simple: SimpleStatement, height: u32) -> Option<CheckedSimple>
        requires { height ≡ height_of_simple (simple_of simple) }
        ensures { checked_simple result ≡ limited max_height (height_of_simple (simple_of simple)) (simple_of simple) }
    {
        if height > MAX_HEIGHT {
            drop(simple);
            return None;
        }
        Some(CheckedSimple { simple, height })
    }
}

impl CheckedStatement {
    /// The node of this height, unless that is too high.
    pub fn of(
        alloc: Global,
        statement: Statement,
        height: u32,
    ) -> Result<Option<CheckedStatement>, AllocError>
        requires { height ≡ height_of_statement (statement_of statement) }
        ensures { IfOk result (λ s. checked_statement s
            ≡ limited max_height (height_of_statement (statement_of statement)) (statement_of statement)) }
    {
        if height > MAX_HEIGHT {
            drop(statement);
            return Ok(None);
        }
        let statement = Box::new(alloc, statement)?;
        Ok(Some(CheckedStatement { statement, height }))
    }
}
