// Programs as plans.

ghost use Rattle.std.specs.Prelude.{◌≡◌, Bool, true, [], map, IfOk};
ghost use Rattle.std.specs.Global.{Vec};
ghost use Rattle.awk_grammar.specs.View.{statements_of, items_of, tree_of};
ghost use Rattle.awk_kinds.specs.Placed.{are_in_place};
ghost use Rattle.awk_kinds.specs.definitions.Kinds.{definitions_of};
ghost use Rattle.awk_kinds.specs.definitions.Signatures.{Signature, ProgramKinds, kinds_of};
ghost use Rattle.awk_resolve.specs.support.Plans.{IsPlanOf, ResolvesTo};
ghost use Rattle.awk_resolve.specs.support.Builds.{arrays_among};
ghost use Rattle.awk_resolve.specs.support.Holding.{IsOver, AddsEnd, AddsBody, AddsFunctions};

use crate::builder::{Builder, next_number};
use crate::heights::block_height;
use crate::items::has_rule;
use crate::node::Node;
use crate::plan::{Function, Plan};
use crate::scope::Scope;
use awk_grammar::tree::{Item, Statement, Tree};
use awk_kinds::{Kinds, Names, Parameters, law_of_refusals};
use awk_lex::refusal::Refusal;
use std::alloc::{AllocError, Global};

/// Whether each of these parameters is an array.
fn are_arrays(alloc: Global, parameters: &Parameters) -> Result<Vec<bool>, AllocError>
    ensures { IfOk result (λ arrays. arrays.items ≡ arrays_among parameters.now) }
{
    let mut arrays = Vec::new(alloc);
    for place in 0..next_number(parameters.len())? {
        let Some(is_array) = parameters.is_array(place) else {
            unreachable!();
        };
        arrays.push(is_array)?;
    }
    Ok(arrays)
}

/// Whether each parameter is an array, of each function of the program.
fn array_parameters(alloc: Global, kinds: &Kinds) -> Result<Vec<Vec<bool>>, AllocError>
    ensures { IfOk result (λ all. map (λ (v : Vec Bool). v.items) all.items ≡ map (λ (f : Signature). arrays_among f.parameters) kinds.now.functions) }
{
    let mut all = Vec::new(alloc);
    for number in 0..next_number(kinds.function_count())? {
        let Some(parameters) = kinds.parameters(number) else {
            unreachable!();
        };
        all.push(are_arrays(alloc, parameters)?)?;
    }
    Ok(all)
}

impl Builder {
    /// The place at which nothing is left to be done. No part begins at place 0, which stands for loops that aren't closed yet.
    fn push_end(&mut self) -> Result<u32, AllocError>
        ensures { IfOk result (λ over. (kinds : ProgramKinds) → AddsEnd kinds self.old self.new over) }
    {
        self.push(Node::End)?;
        self.push(Node::End)
    }

    fn lower_function(
        &mut self,
        kinds: &Kinds,
        parameters: &Parameters,
        all: &[Statement],
        over: u32,
    ) -> Result<Function, AllocError>
        requires { IsOver kinds.now over self.old }
        ensures { IfOk result (λ made. AddsBody kinds.now self.old self.new made parameters.now (statements_of all.now)) }
    {
        let scope = Scope {
            kinds,
            parameters: Some(parameters),
        };
        let body = self.lower_body(&scope, all, over)?;
        Ok(Function {
            body,
            height: block_height(all)?,
            arrays: are_arrays(self.alloc, parameters)?,
        })
    }

    /// The functions of a program, in the order of their definitions.
    fn lower_functions(
        &mut self,
        kinds: &Kinds,
        items: &[Item],
        over: u32,
    ) -> Result<Vec<Function>, AllocError>
        requires over { IsOver kinds.now over self.old }
        requires kinds { kinds.now ≡ kinds_of (items_of items.now) }
        ensures { IfOk result (λ made. AddsFunctions kinds.now self.old self.new made.items (definitions_of (items_of items.now))) }
    {
        let mut made = Vec::new(self.alloc);
        for item in items {
            if let Item::Function(_, _, all) = item {
                let number = next_number(made.len())?;
                let Some(parameters) = kinds.parameters(number) else {
                    unreachable!();
                };
                made.push(self.lower_function(kinds, parameters, all, over)?)?;
            }
        }
        Ok(made)
    }
}

/// A program as a plan, where these are the kinds of its names, and its statements stand in place. The only error is
/// that memory is refused.
fn lower_program(alloc: Global, items: &[Item], kinds: Kinds) -> Result<Plan, AllocError>
    requires kinds { kinds ≡ kinds_of (items_of items.now) }
    requires in_place { are_in_place (items_of items.now) ≡ true }
    ensures plan { IfOk result (IsPlanOf (items_of items.now)) }
    ensures kinds { IfOk result (λ plan. plan.kinds ≡ kinds_of (items_of items.now)) }
{
    let array_parameters = array_parameters(alloc, &kinds)?;
    let mut builder = Builder {
        alloc,
        nodes: Vec::new(alloc),
        heads: Vec::new(alloc),
        conditions: Vec::new(alloc),
        names: Names::new(alloc),
        eres: Vec::new(alloc),
        array_parameters,
    };
    let over = builder.push_end()?;
    let functions = builder.lower_functions(&kinds, items, over)?;
    let end = builder.lower_end(&kinds, items, over)?;
    let mut rule_places = Vec::new(alloc);
    let rules = builder.lower_rules(&kinds, items, over, &mut rule_places)?;
    let begin = builder.lower_begin(&kinds, items, over)?;
    Ok(Plan {
        nodes: builder.nodes,
        heads: builder.heads,
        conditions: builder.conditions,
        names: builder.names,
        eres: builder.eres,
        functions,
        begin,
        rules,
        end,
        rule_places,
        kinds,
        reads_records: has_rule(items),
    })
}

/// The plan of a program, in which names are numbers. (POSIX awk, Overall Program Structure; Variables and Special
/// Variables; User-Defined Functions.) The time grows as n log n with the program.
///
/// # Errors
///
/// The first of K2 to K8 and K1 that holds, told of line 1, or that memory is refused.
pub fn resolve(alloc: Global, tree: &Tree) -> Result<Plan, Refusal>
    ensures { ResolvesTo (tree_of tree.now) result }
{
    law_of_refusals();
    let kinds = awk_kinds::resolve(alloc, &tree.items)?;
    Ok(lower_program(alloc, &tree.items, kinds)?)
}
