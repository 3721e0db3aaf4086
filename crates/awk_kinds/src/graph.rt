// How variables are passed to parameters, as a graph.

ghost use Rattle.std.specs.Prelude.{◌≡◌, ◌∷◌, [], ◌++◌, ℕ, List, map, IfOk, OnOk};
ghost use Rattle.awk_kinds.specs.definitions.SpecialNames.{special_arrays};
ghost use Rattle.awk_kinds.specs.support.Graph.{Numbers, AddsFirst, AddsEdge, AddsUse, FollowsUses, global_use, special_uses};

use crate::functions::Functions;
use crate::special::{ARRAY_COUNT, OWN_VARIABLES, OwnVariable};
use crate::uses::ArrayUse;
use crate::variable::Variable;
use awk_value::Bytes;
use indexmap::IndexSet;
use std::alloc::{AllocError, Global};

/// Variables by their numbers: those that are used as arrays, and from each that is passed an edge to the parameter.
#[derive(Drop)]
pub(crate) struct Graph {
    pub(crate) variables: IndexSet<Variable>,
    pub(crate) first: Vec<usize>,
    pub(crate) edges: Vec<(usize, usize)>,
}

impl Graph {
    /// The number of a variable, the next one where it has none yet.
    fn number_of(&mut self, v: &Variable) -> Result<usize, AllocError>
        ensures { IfOk result (λ number. Numbers self.old self.new number v.now) }
    {
        let (number, _) = self.variables.insert_full(v.clone()?)?;
        Ok(number)
    }

    /// A variable is used as an array.
    fn add_first(&mut self, v: &Variable) -> Result<(), AllocError>
        ensures { OnOk result (AddsFirst self.old self.new v.now) }
    {
        let number = self.number_of(v)?;
        self.first.push(number)?;
        Ok(())
    }

    /// A variable is an array if a parameter is one.
    fn add_edge(&mut self, v: &Variable, parameter: &Variable) -> Result<(), AllocError>
        ensures { OnOk result (AddsEdge self.old self.new v.now parameter.now) }
    {
        let front = self.number_of(v)?;
        let end = self.number_of(parameter)?;
        self.edges.push((front, end))?;
        Ok(())
    }

    fn add(&mut self, array: &ArrayUse, functions: &Functions) -> Result<(), AllocError>
        ensures { OnOk result (AddsUse functions.now self.old self.new array.now) }
    {
        match array {
            ArrayUse::Used(v) => self.add_first(v),
            ArrayUse::Passed(v, function, place) => {
                let Some(x) = functions.parameter(function, *place) else {
                    return Ok(());
                };
                let parameter = Variable::Parameter(function.clone()?, x.clone()?);
                self.add_edge(v, &parameter)
            }
        }
    }

    /// The variables of the whole program that have these rows are used as arrays.
    fn of_rows(
        alloc: Global,
        rows: &[(&[u8], OwnVariable)],
        functions: &Functions,
    ) -> Result<Graph, AllocError>
        ensures { IfOk result (FollowsUses functions.now (map (λ row. global_use row.0.now) rows.now)) }
    {
        let mut graph = Graph {
            variables: IndexSet::new(alloc),
            first: Vec::new(alloc),
            edges: Vec::new(alloc),
        };
        for row in rows {
            let v = Variable::Global(Bytes::from_slice(alloc, row.0)?);
            graph.add_first(&v)?;
        }
        Ok(graph)
    }

    /// The special variables that are arrays, and these uses.
    pub(crate) fn of_uses(
        alloc: Global,
        uses: &[ArrayUse],
        functions: &Functions,
    ) -> Result<Graph, AllocError>
        ensures { IfOk result (FollowsUses functions.now (special_uses ++ uses.now)) }
    {
        let mut graph = Graph::of_rows(alloc, &OWN_VARIABLES[..ARRAY_COUNT], functions)?;
        for array in uses {
            graph.add(array, functions)?;
        }
        Ok(graph)
    }
}
