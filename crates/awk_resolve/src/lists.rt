// Lists of expressions as nodes.

ghost use Rattle.std.specs.Prelude.{IfOk};
ghost use Rattle.awk_grammar.specs.View.{exprs_of};
ghost use Rattle.awk_resolve.specs.support.Builds.{Stands, EvaluateAll, EvaluateKey};
ghost use Rattle.awk_resolve.specs.support.Scopes.{Builds};

use crate::builder::{Builder, next_number};
use crate::node::ValueNode;
use crate::scope::Scope;
use awk_grammar::tree::Expr;
use std::alloc::AllocError;

impl Builder {
    /// The values of a list are put on the stack, in their order.
    ///
    /// # Errors
    ///
    /// Where memory is refused, or places or numbers run out.
    #[cycle(expressions)]
    pub(crate) fn lower_all(
        &mut self,
        scope: &Scope,
        list: &[Expr],
        next: u32,
    ) -> Result<u32, AllocError>
        requires { Stands next self.old }
        ensures { IfOk result (λ place. Builds scope.now self.old self.new place (EvaluateAll (exprs_of list.now) next)) }
    {
        let mut rest = next;
        for i in (0..list.len()).rev() {
            rest = self.lower(scope, &list[i], rest)?;
        }
        Ok(rest)
    }

    /// The subscripts of an element are put on the stack as one value.
    ///
    /// # Errors
    ///
    /// Where memory is refused, or places or numbers run out.
    #[cycle(expressions)]
    pub(crate) fn lower_key(
        &mut self,
        scope: &Scope,
        list: &[Expr],
        next: u32,
    ) -> Result<u32, AllocError>
        requires { Stands next self.old }
        ensures { IfOk result (λ place. Builds scope.now self.old self.new place (EvaluateKey (exprs_of list.now) next)) }
    {
        if list.len() == 1 {
            return self.lower(scope, &list[0], next);
        }
        let count = next_number(list.len())?;
        let key = self.push_value(ValueNode::Key(count), next)?;
        self.lower_all(scope, list, key)
    }
}
