// Which statement or pattern of a program each node of its plan was made of.

use awk_grammar::tree::{ForParts, Item, Statement};
use awk_resolve::Plan;
use awk_resolve::node::{EffectNode, Node};
use std::alloc::{AllocError, Global};

/// The higher of the two places at which nothing is left to be done.
const LAST_END: u32 = 1;

/// The nodes of a plan by the parts of its program, which are the statements and patterns in the order of the text.
#[derive(Drop)]
pub(crate) struct PartNodes {
    /// The part of each node, by the node's place.
    pub(crate) parts: Vec<Option<usize>>,
    /// The node at which each part begins that is a statement, or a pattern that prints.
    pub(crate) heads: Vec<Option<usize>>,
}

/// A walk from the last node of a plan to its first. The nodes of a part lie together, from the one at which it begins down,
/// and so do those of a loop's condition; those of the statements in a part lie below it.
#[derive(Drop)]
struct NodeWalk<'a> {
    nodes: &'a [Node],
    /// Whether each node is the highest of those that lie together.
    tops: Vec<bool>,
    /// How many nodes are left.
    left: usize,
    found: PartNodes,
}

/// The items that are lowered together.
#[derive(Clone, Copy)]
enum Stage {
    Begin,
    Rules,
    End,
}

/// Whether a statement begins with a node: one that spends its step.
fn is_head(node: &Node) -> bool {
    matches!(
        node,
        Node::Spend(_)
            | Node::Update(_, _, _, _)
            | Node::Increment(_, _, _)
            | Node::AppendOperands(_, _, _)
            | Node::Effect(EffectNode::Exchange(_), _)
            | Node::Print(_, _)
    )
}

/// Marks the nodes at places.
fn mark(tops: &mut [bool], places: &[u32]) {
    for place in places {
        if let Some(is_top) = tops.get_mut(*place as usize) {
            *is_top = true;
        }
    }
}

/// Whether each node is the highest of those that lie together.
fn tops_of(alloc: Global, plan: &Plan) -> Result<Vec<bool>, AllocError> {
    let mut tops = Vec::new(alloc);
    for node in plan.nodes.as_slice() {
        tops.push(is_head(node))?;
    }
    mark(&mut tops, &[LAST_END]);
    mark(&mut tops, &plan.conditions);
    mark(&mut tops, &plan.rule_places);
    Ok(tops)
}

/// How many parts stand in a statement, with itself.
#[cycle(counts)]
fn count_of(statement: &Statement) -> usize {
    match statement {
        Statement::Empty => 0,
        Statement::Simple(_) => 1,
        Statement::Block(all) => count_of_all(all),
        Statement::If(_, then) => count_of(then).saturating_add(1),
        Statement::IfElse(_, then, other) => count_of(then)
            .saturating_add(count_of(other))
            .saturating_add(1),
        Statement::While(_, body) | Statement::Do(body, _) | Statement::ForIn(_, _, body) => {
            count_of(body).saturating_add(1)
        }
        Statement::For(parts, body) => count_of(body)
            .saturating_add(1)
            .saturating_add(usize::from(parts.first.is_some()))
            .saturating_add(usize::from(parts.last.is_some())),
    }
}

/// How many parts stand in statements.
#[cycle(counts)]
fn count_of_all(all: &[Statement]) -> usize {
    let mut count = 0usize;
    for statement in all {
        count = count.saturating_add(count_of(statement));
    }
    count
}

/// How many parts an item has.
fn count_of_item(item: &Item) -> usize {
    match item {
        Item::Begin(all) | Item::End(all) | Item::Action(all) | Item::Function(_, _, all) => {
            count_of_all(all)
        }
        Item::PatternAction(_, all) => count_of_all(all).saturating_add(1),
        Item::PatternOnly(_) => 1,
    }
}

/// The first part of each item, and behind them how many parts there are.
fn first_parts(alloc: Global, items: &[Item]) -> Result<Vec<usize>, AllocError> {
    let mut firsts = Vec::new(alloc);
    let mut count = 0usize;
    for item in items {
        firsts.push(count)?;
        count = count.saturating_add(count_of_item(item));
    }
    firsts.push(count)?;
    Ok(firsts)
}

/// Puts a number at an index.
fn set(numbers: &mut [Option<usize>], at: usize, number: usize) {
    if let Some(place) = numbers.get_mut(at) {
        *place = Some(number);
    }
}

impl<'a> NodeWalk<'a> {
    /// The nodes that lie together here are those of a part.
    fn take(&mut self, part: usize) {
        let Some(top) = self.left.checked_sub(1) else {
            return;
        };
        let below = self.tops.get(..top).unwrap_or(&[]);
        let bottom = match below.iter().rposition(|is_top| *is_top) {
            Some(place) => place.saturating_add(1),
            None => 0,
        };
        if let Some(node) = self.nodes.get(top) {
            if is_head(node) {
                set(&mut self.found.heads, part, top);
            }
        }
        for place in bottom..self.left {
            set(&mut self.found.parts, place, part);
        }
        self.left = bottom;
    }

    /// The nodes of a `for` and of its first part, if it has one; gives the number of the part behind these.
    fn take_front(&mut self, parts: &ForParts, part: usize) -> usize {
        let first = part.saturating_add(1);
        self.take(part);
        if parts.first.is_none() {
            return first;
        }
        self.take(first);
        first.saturating_add(1)
    }

    /// The nodes of the last part of a `for`, if it has one, which has this number, and of its condition.
    fn take_rear(&mut self, parts: &ForParts, part: usize, last: usize) {
        if parts.last.is_some() {
            self.take(last);
        }
        self.take(part);
    }

    /// The nodes of a statement whose first part has this number; gives the number of the part behind it.
    #[cycle(walks)]
    fn walk(&mut self, statement: &Statement, part: usize) -> usize {
        let inner = part.saturating_add(1);
        match statement {
            Statement::Empty => part,
            Statement::Simple(_) => {
                self.take(part);
                inner
            }
            Statement::Block(all) => self.walk_all(all, part),
            Statement::If(_, then) => {
                self.take(part);
                self.walk(then, inner)
            }
            Statement::IfElse(_, then, other) => {
                self.take(part);
                let behind = self.walk(other, inner.saturating_add(count_of(then)));
                self.walk(then, inner);
                behind
            }
            Statement::While(_, body) | Statement::Do(body, _) | Statement::ForIn(_, _, body) => {
                self.take(part);
                let behind = self.walk(body, inner);
                self.take(part);
                behind
            }
            Statement::For(parts, body) => {
                let last = self.take_front(parts, part);
                let inner = last.saturating_add(usize::from(parts.last.is_some()));
                let behind = self.walk(body, inner);
                self.take_rear(parts, part, last);
                behind
            }
        }
    }

    /// The nodes of statements, one behind the other.
    #[cycle(walks)]
    fn walk_all(&mut self, all: &[Statement], first: usize) -> usize {
        let mut part = first;
        for statement in all {
            part = self.walk(statement, part);
        }
        part
    }

    /// The nodes of an item, if it is one of a stage.
    fn walk_item(&mut self, item: &Item, stage: Stage, first: usize) {
        match (item, stage) {
            (Item::Begin(all), Stage::Begin)
            | (Item::Action(all), Stage::Rules)
            | (Item::End(all), Stage::End) => {
                self.walk_all(all, first);
            }
            (Item::PatternAction(_, all), Stage::Rules) => {
                self.take(first);
                self.walk_all(all, first.saturating_add(1));
            }
            (Item::PatternOnly(_), Stage::Rules) => {
                self.take(first);
                self.take(first);
            }
            _ => {}
        }
    }

    /// The nodes of the items of a stage.
    fn walk_stage(&mut self, items: &[Item], stage: Stage, firsts: &[usize]) {
        for (item, first) in items.iter().zip(firsts.iter()) {
            self.walk_item(item, stage, *first);
        }
    }

    /// The nodes of the functions.
    fn walk_functions(&mut self, items: &[Item], firsts: &[usize]) {
        for (item, first) in items.iter().zip(firsts.iter()).rev() {
            if let Item::Function(_, _, all) = item {
                self.walk_all(all, *first);
            }
        }
    }
}

/// So many places without a number.
fn nothing_at(alloc: Global, count: usize) -> Result<Vec<Option<usize>>, AllocError> {
    let mut numbers = Vec::new(alloc);
    numbers.resize(count, None)?;
    Ok(numbers)
}

/// The nodes of the plan of a program with so many parts; none where they can't be told.
pub(crate) fn part_nodes(
    alloc: Global,
    items: &[Item],
    plan: &Plan,
    count: usize,
) -> Result<Option<PartNodes>, AllocError> {
    let firsts = first_parts(alloc, items)?;
    let mut walk = NodeWalk {
        nodes: &plan.nodes,
        tops: tops_of(alloc, plan)?,
        left: plan.nodes.len(),
        found: PartNodes {
            parts: nothing_at(alloc, plan.nodes.len())?,
            heads: nothing_at(alloc, count)?,
        },
    };
    for stage in [Stage::Begin, Stage::Rules, Stage::End] {
        walk.walk_stage(items, stage, &firsts);
    }
    walk.walk_functions(items, &firsts);
    let is_told = walk.left == LAST_END as usize + 1 && firsts.last() == Some(&count);
    Ok(if is_told { Some(walk.found) } else { None })
}
