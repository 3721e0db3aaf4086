// The nodes of simple statements: none where a child is none or the node is too high.

ghost use Rattle.std.specs.Prelude.{◌≡◌, Some, IfOk};
ghost use Rattle.awk_grammar.specs.definitions.Tree as t;
ghost use Rattle.awk_grammar.specs.definitions.Height.{max_height, height_of_print_list};
ghost use Rattle.awk_grammar.specs.definitions.Height.{height_of_simple, height_of_statement};
ghost use Rattle.awk_grammar.specs.support.Nodes.{limited, over_one};
ghost use Rattle.awk_grammar.specs.support.ParserStatements as parser;
ghost use Rattle.awk_frames.specs.support.CheckedExpressions.{checked_exprs};
ghost use Rattle.awk_frames.specs.support.CheckedStatementNodes.{checked_print_list, checked_simple};
ghost use Rattle.awk_frames.specs.support.CheckedStatementNodes.{checked_optional_expr, checked_statement};

use awk_frames::checked_expressions::CheckedExprs;
use awk_frames::checked_statements::{
    CheckedOptionalExpr, CheckedPrintList, CheckedSimple, CheckedStatement,
};
use awk_grammar::tree::{Output, PrintForm, PrintList, SimpleStatement, Statement};
use awk_value::Bytes;
use std::alloc::{AllocError, Global};

/// The list of a print, bare.
pub(crate) fn bare(list: Option<CheckedExprs>) -> Option<CheckedPrintList>
    ensures { checked_print_list result ≡ over_one max_height height_of_print_list t.Bare (checked_exprs list) }
{
    let list = list?;
    let height = list.height;
    let list = PrintList::Bare(list.exprs);
    Some(CheckedPrintList { list, height })
}

/// The list of a print, in parentheses.
pub(crate) fn parenthesized(list: Option<CheckedExprs>) -> Option<CheckedPrintList>
    ensures { checked_print_list result ≡ over_one max_height height_of_print_list t.Parenthesized (checked_exprs list) }
{
    let list = list?;
    let height = list.height;
    let list = PrintList::Parenthesized(list.exprs);
    Some(CheckedPrintList { list, height })
}

/// A print to standard output.
pub(crate) fn print(form: PrintForm, list: Option<CheckedPrintList>) -> Option<CheckedSimple>
    ensures { checked_simple result
        ≡ over_one max_height height_of_simple (parser.printed_here form) (checked_print_list list) }
{
    let list = list?;
    let height = list.height + 1;
    CheckedSimple::of(
        SimpleStatement::Print(form, list.list, Output::Standard),
        height,
    )
}

/// `delete name[list]`
pub(crate) fn delete(name: Bytes, subscripts: Option<CheckedExprs>) -> Option<CheckedSimple>
    ensures { checked_simple result ≡ over_one max_height height_of_simple (t.Delete name) (checked_exprs subscripts) }
{
    let subscripts = subscripts?;
    let height = subscripts.height + 1;
    CheckedSimple::of(SimpleStatement::Delete(name, subscripts.exprs), height)
}

/// `delete name`
pub(crate) fn delete_all(name: Bytes) -> CheckedSimple
    ensures { checked_simple (Some result) ≡ limited max_height 1 (t.DeleteAll name) }
{
    CheckedSimple {
        simple: SimpleStatement::DeleteAll(name),
        height: 1,
    }
}

/// `exit`, with its value or without.
pub fn exit(value: Option<CheckedOptionalExpr>) -> Option<CheckedSimple>
    ensures { checked_simple result ≡ over_one max_height height_of_simple t.Exit (checked_optional_expr value) }
{
    let value = value?;
    let height = value.height + 1;
    CheckedSimple::of(SimpleStatement::Exit(value.expr), height)
}

/// `return`, with its value or without.
pub(crate) fn return_statement(value: Option<CheckedOptionalExpr>) -> Option<CheckedSimple>
    ensures { checked_simple result ≡ over_one max_height height_of_simple t.Return (checked_optional_expr value) }
{
    let value = value?;
    let height = value.height + 1;
    CheckedSimple::of(SimpleStatement::Return(value.expr), height)
}

/// A simple statement.
pub(crate) fn simple(
    alloc: Global,
    simple: Option<CheckedSimple>,
) -> Result<Option<CheckedStatement>, AllocError>
    ensures { IfOk result
        (λ s. checked_statement s ≡ over_one max_height height_of_statement t.Simple (checked_simple simple)) }
{
    let Some(simple) = simple else {
        return Ok(None);
    };
    CheckedStatement::of(alloc, Statement::Simple(simple.simple), simple.height)
}
