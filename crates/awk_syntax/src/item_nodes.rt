// The nodes of items: none where a child is none or the node is too high.

ghost use Rattle.std.specs.Prelude.{◌≡◌, IfOk};
ghost use Rattle.awk_grammar.specs.definitions.Tree as t;
ghost use Rattle.awk_grammar.specs.definitions.Height.{max_height, height_of_pattern, height_of_item, height_of_program};
ghost use Rattle.awk_grammar.specs.definitions.View.{item_of};
ghost use Rattle.awk_grammar.specs.support.Nodes.{limited, over_one, over_two, add};
ghost use Rattle.awk_frames.specs.support.CheckedExpressions.{checked_expr};
ghost use Rattle.awk_frames.specs.support.CheckedStatementNodes.{checked_statements, checked_pattern, checked_item, checked_items};

use awk_frames::checked_expressions::CheckedExpr;
use awk_frames::checked_statements::{
    CheckedItem, CheckedItems, CheckedPattern, CheckedStatements,
};
use awk_grammar::height::MAX_HEIGHT;
use awk_grammar::tree::{Item, Pattern};
use awk_value::Bytes;
use std::alloc::AllocError;

// The item of this height, unless that is too high.
fn node(item: Item, height: u32) -> Option<CheckedItem>
    requires { height ≡ height_of_item (item_of item) }
    ensures { checked_item result ≡ limited max_height (height_of_item (item_of item)) (item_of item) }
{
    if height > MAX_HEIGHT {
        drop(item);
        return None;
    }
    Some(CheckedItem { item })
}

/// A pattern of one expression.
pub(crate) fn single(expr: Option<CheckedExpr>) -> Option<CheckedPattern>
    ensures { checked_pattern result ≡ over_one max_height height_of_pattern t.Single (checked_expr expr) }
{
    let expr = expr?;
    let height = expr.height;
    let pattern = Pattern::Single(expr.expr);
    Some(CheckedPattern { pattern, height })
}

/// An action before all records.
pub(crate) fn begin(statements: Option<CheckedStatements>) -> Option<CheckedItem>
    ensures { checked_item result ≡ over_one max_height height_of_item t.Begin (checked_statements statements) }
{
    let statements = statements?;
    let height = statements.height + 2;
    node(Item::Begin(statements.statements), height)
}

/// An action behind all records.
pub(crate) fn end(statements: Option<CheckedStatements>) -> Option<CheckedItem>
    ensures { checked_item result ≡ over_one max_height height_of_item t.End (checked_statements statements) }
{
    let statements = statements?;
    let height = statements.height + 2;
    node(Item::End(statements.statements), height)
}

/// An action for every record.
pub(crate) fn action(statements: Option<CheckedStatements>) -> Option<CheckedItem>
    ensures { checked_item result ≡ over_one max_height height_of_item t.Action (checked_statements statements) }
{
    let statements = statements?;
    let height = statements.height + 2;
    node(Item::Action(statements.statements), height)
}

/// An action for the records that the pattern tells.
pub(crate) fn pattern_action(
    pattern: Option<CheckedPattern>,
    statements: Option<CheckedStatements>,
) -> Option<CheckedItem>
    ensures { checked_item result
        ≡ over_two max_height height_of_item t.PatternAction (checked_pattern pattern) (checked_statements statements) }
{
    let Some(pattern) = pattern else {
        drop(statements);
        return None;
    };
    let Some(statements) = statements else {
        drop(pattern);
        return None;
    };
    let height = pattern.height.max(statements.height + 1) + 1;
    node(
        Item::PatternAction(pattern.pattern, statements.statements),
        height,
    )
}

/// A pattern without an action.
pub(crate) fn pattern_only(pattern: Option<CheckedPattern>) -> Option<CheckedItem>
    ensures { checked_item result ≡ over_one max_height height_of_item t.PatternOnly (checked_pattern pattern) }
{
    let pattern = pattern?;
    let height = pattern.height + 1;
    node(Item::PatternOnly(pattern.pattern), height)
}

/// A function: its name, its parameters and its body.
pub(crate) fn function(
    name: Bytes,
    parameters: Vec<Bytes>,
    body: Option<CheckedStatements>,
) -> Option<CheckedItem>
    ensures { checked_item result
        ≡ over_one max_height height_of_item (t.Function name parameters.items) (checked_statements body) }
{
    let Some(body) = body else {
        drop(parameters);
        return None;
    };
    let height = body.height + 2;
    node(Item::Function(name, parameters, body.statements), height)
}

/// A program with one item more.
pub(crate) fn one_more_item(
    items: Option<CheckedItems>,
    item: Option<CheckedItem>,
) -> Result<Option<CheckedItems>, AllocError>
    ensures { IfOk result (λ xs. checked_items xs
        ≡ over_two max_height height_of_program add (checked_items items) (checked_item item)) }
{
    let Some(checked) = items else {
        drop(item);
        return Ok(None);
    };
    let Some(item) = item else {
        drop(checked);
        return Ok(None);
    };
    let mut items = checked.items;
    items.push(item.item)?;
    Ok(Some(CheckedItems { items }))
}
