// Laws of the evaluator.

ghost use Rattle.std.specs.Prelude.{List};
ghost use Rattle.awk_grammar.specs.Tree.{Item};
ghost use Rattle.awk_resolve.specs.declared.plan.Plan.{Plan};
ghost use Rattle.awk_resolve.specs.Plans.{IsPlanOf};
ghost use Rattle.awk_evaluator.specs.Rest.{IsSound};

/// The plan of a program is one that a machine can run.
#[tactic(auto, using(crate::proofs::SoundPlans::plans_are_sound))]
pub fn law_of_plans()
    ensures { (items : List Item) (plan : Plan) → IsPlanOf items plan → IsSound plan }
{}
