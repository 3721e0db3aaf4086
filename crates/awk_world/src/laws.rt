// What holds of oracles and logs, whatever the world.
ghost use Rattle.std.specs.Prelude.{List, ℕ, Bool, [], ◌++◌};
ghost use Rattle.awk_world.specs.definitions.Log.{Event};
ghost use Rattle.awk_world.specs.definitions.Oracle.{Oracle, IsConsistent};
ghost use Rattle.awk_world.specs.definitions.Orderly.{IsOrderly, IsInOrder};
ghost use Rattle.awk_world.specs.definitions.Writes.{with_events};

/// With a log in order some oracle is consistent; the empty log of any world is in order.
pub fn some_oracle_is_consistent()
    ensures some { (log : List Event) → IsOrderly log → (a : Oracle) × IsConsistent a log }
    ensures start { (is_open : ℕ → Bool) → IsInOrder is_open [] }
{}

/// An oracle that is consistent with a log is consistent with what it was before.
pub fn is_consistent_with_less()
    ensures front { (a : Oracle) (newer older : List Event) → IsConsistent a (newer ++ older) → IsConsistent a older }
    ensures before { (a : Oracle) (es log : List Event) → IsConsistent a (with_events es log) → IsConsistent a log }
{}
