// The nodes that an operand ends.

ghost use Rattle.std.specs.Prelude.{◌≡◌, ◌||◌, IfOk};
ghost use Rattle.awk_grammar.specs.definitions.Height.{max_height};
ghost use Rattle.awk_grammar.specs.support.Parser as parser;
ghost use Rattle.awk_frames.specs.support.FrameView.{role_of, operand_of, optional_operand_of, node_frame_of};

use crate::expression_nodes::{
    assign, binary, conditional, field, getline, piped_getline, pre_increment, unary,
};
use crate::frame::{Choice, NodeFrame};
use crate::infix_role::InfixRole;
use crate::operand::{Operand, child_of};
use awk_grammar::precedence::{
    CONDITIONAL, EXPR, FIELD_REFERENCE, PIPE, POST_INCREMENT, PRE_INCREMENT, UNARY,
};
use std::alloc::{AllocError, Global};

/// A getline, behind a command and a `|` or not, with its place and its file where it has them.
pub fn getline_operand(
    alloc: Global,
    command: Option<Operand>,
    place: Option<Operand>,
    file: Option<Operand>,
) -> Result<Operand, AllocError>
    ensures { IfOk result (λ p. operand_of p ≡ parser.getline_operand max_height
        (optional_operand_of command) (optional_operand_of place) (optional_operand_of file)) }
{
    let Some(command) = command else {
        let tree = getline(alloc, child_of(place), child_of(file))?;
        return Ok(Operand::new(POST_INCREMENT, tree));
    };
    drop(file);
    let tree = piped_getline(alloc, command.tree, child_of(place))?;
    Ok(Operand::new(PIPE, tree))
}

// The precedence of a node of a level, by that of its last child: what ends in an assignment is any expression.
fn ending(last: u8, level: u8) -> u8
    ensures { result ≡ parser.ending last level }
{
    if last >= EXPR { EXPR } else { level }
}

impl NodeFrame {
    /// The greatest precedence that may stand as the last child.
    pub(crate) fn greatest_allowed(&self) -> u8
        ensures { result ≡ parser.greatest_allowed (node_frame_of self.now) }
    {
        match self {
            NodeFrame::Field => PRE_INCREMENT,
            NodeFrame::Unary(_) => UNARY,
            NodeFrame::Binary(operator, _) => operator.greatest_right(),
            NodeFrame::Assign(..) => EXPR,
            NodeFrame::SecondChoice(..) => EXPR,
            NodeFrame::PreIncrement(_) => FIELD_REFERENCE,
            NodeFrame::GetlinePlace(_) => FIELD_REFERENCE,
            NodeFrame::GetlineFile(_) => FIELD_REFERENCE,
        }
    }

    /// Whether the node is not made of this operand before a token of this role.
    pub(crate) fn stays_open(&self, operand: &Operand, role: InfixRole) -> bool
        ensures { result ≡ (parser.stays_open (node_frame_of self.now) (operand_of operand.now)
            || parser.takes_file (node_frame_of self.now) (role_of role)) }
    {
        match self {
            NodeFrame::PreIncrement(_) => !operand.is_place,
            NodeFrame::GetlinePlace(command) => {
                !operand.is_place || (command.is_none() && role.is_less())
            }
            _ => false,
        }
    }

    /// The node, made of its last child.
    pub(crate) fn finish(self, alloc: Global, operand: Operand) -> Result<Operand, AllocError>
        ensures { IfOk result (λ p. operand_of p ≡ parser.finish_node max_height (node_frame_of self) (operand_of operand)) }
    {
        match self {
            NodeFrame::Field => {
                let tree = field(alloc, operand.tree)?;
                Ok(Operand::place(FIELD_REFERENCE, tree))
            }
            NodeFrame::PreIncrement(operator) => {
                let tree = pre_increment(alloc, operator, operand.tree)?;
                Ok(Operand::new(PRE_INCREMENT, tree))
            }
            NodeFrame::Unary(operator) => {
                let tree = unary(alloc, operator, operand.tree)?;
                Ok(Operand::new(UNARY, tree))
            }
            NodeFrame::Binary(operator, left) => {
                let tree = binary(alloc, operator, left.tree, operand.tree)?;
                Ok(Operand::new(ending(operand.precedence, operator.precedence()), tree))
            }
            NodeFrame::Assign(operator, place) => {
                let tree = assign(alloc, operator, place.tree, operand.tree)?;
                Ok(Operand::new(EXPR, tree))
            }
            NodeFrame::SecondChoice(choice) => {
                let Choice { condition, first } = Box::into_inner(choice);
                let condition = Box::into_inner(condition);
                let tree = conditional(alloc, condition.tree, first.tree, operand.tree)?;
                Ok(Operand::new(ending(operand.precedence, CONDITIONAL), tree))
            }
            NodeFrame::GetlinePlace(command) => getline_operand(
                alloc,
                Box::into_inner(command),
                Some(operand),
                None,
            ),
            NodeFrame::GetlineFile(place) => {
                getline_operand(alloc, None, Box::into_inner(place), Some(operand))
            }
        }
    }
}
