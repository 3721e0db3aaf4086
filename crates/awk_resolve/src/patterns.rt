// Patterns as nodes: an ERE of the program stands for itself, and any other expression gives a text.

ghost use Rattle.std.specs.Prelude.{IfOk};
ghost use Rattle.awk_grammar.specs.View.{expr_of};
ghost use Rattle.awk_resolve.specs.support.Builds.{Stands, EvaluateUnlessEre};
ghost use Rattle.awk_resolve.specs.support.Operands.{FindsPattern};
ghost use Rattle.awk_resolve.specs.support.Scopes.{Builds};

use crate::builder::Builder;
use crate::scope::Scope;
use awk_grammar::tree::Expr;
use std::alloc::AllocError;

impl Builder {
    /// The number of the ERE that an expression is, if it is one.
    pub(crate) fn pattern_of(&mut self, e: &Expr) -> Result<Option<u32>, AllocError>
        ensures { IfOk result (λ pattern. FindsPattern self.old self.new pattern (expr_of e.now)) }
    {
        match e {
            Expr::Ere(ere) => Ok(Some(self.ere_of(&ere.text)?)),
            _ => Ok(None),
        }
    }

    /// The value of an expression is put on the stack, unless it is an ERE.
    #[cycle(expressions)]
    pub(crate) fn lower_unless_ere(
        &mut self,
        scope: &Scope,
        e: &Expr,
        next: u32,
    ) -> Result<u32, AllocError>
        requires { Stands next self.old }
        ensures { IfOk result (λ place. Builds scope.now self.old self.new place (EvaluateUnlessEre (expr_of e.now) next)) }
    {
        match e {
            Expr::Ere(_) => Ok(next),
            _ => self.lower(scope, e, next),
        }
    }
}
