// Which variables of a program are arrays.

ghost use Rattle.std.specs.Prelude.{◌≡◌, ◌++◌, false, get_or, IfOk};
ghost use Rattle.awk_kinds.specs.support.Graph.{special_uses};
ghost use Rattle.awk_kinds.specs.support.Arrays.{is_marked, MarksLeast};

use crate::functions::Functions;
use crate::graph::Graph;
use crate::reach::reached;
use crate::uses::ArrayUse;
use crate::variable::Variable;
use indexmap::IndexSet;
use std::alloc::{AllocError, Global};

/// The variables that are used as arrays or passed, and which of them are arrays.
#[derive(Drop)]
pub(crate) struct Arrays {
    pub(crate) variables: IndexSet<Variable>,
    pub(crate) marks: Vec<bool>,
}

impl Arrays {
    /// The least set of variables that the special variables and these uses tell to be arrays.
    pub(crate) fn of_uses(
        alloc: Global,
        uses: &[ArrayUse],
        functions: &Functions,
    ) -> Result<Arrays, AllocError>
        ensures { IfOk result (MarksLeast functions.now (special_uses ++ uses.now)) }
    {
        let graph = Graph::of_uses(alloc, uses, functions)?;
        let marks = reached(alloc, graph.variables.len(), &graph.first, &graph.edges)?;
        let Graph {
            variables,
            first: _,
            edges: _,
        } = graph;
        Ok(Arrays { variables, marks })
    }

    /// Whether the variable is an array.
    pub(crate) fn has(&self, v: &Variable) -> bool
        ensures { result ≡ is_marked self.now v.now }
    {
        match self.variables.get_index_of(v) {
            Some(number) => is_on(&self.marks, number),
            None => false,
        }
    }
}

fn is_on(marks: &[bool], number: usize) -> bool
    ensures { result ≡ get_or marks.now number false }
{
    number < marks.len() && marks[number]
}
