// Rows of arrays, and of functions that are given them.

ghost use Rattle.std.specs.Prelude.{List, [], ◌∷◌, codes};
ghost use Rattle.awk_semantics.specs.declared.outcome.Outcome.TheVariants.{Ended, Fault};
ghost use Rattle.awk_semantics.specs.declared.fault.Fault.TheVariants.{NextWithoutRecord};
ghost use Rattle.awk_rows.specs.definitions.Row.{Gives};

/// Elements, walks and deletions.
pub fn elements()
    // awk 'BEGIN{a["x"];a["y"];a["z"];delete a["x"];a["x"];for(k in a)print k}'
    ensures a_walk_keeps_the_order_of_insertion { Gives (codes "BEGIN{a[\"x\"];a[\"y\"];a[\"z\"];delete a[\"x\"];a[\"x\"];for(k in a)print k}") (Ended 0)
        (codes "y\nz\nx\n") }
    // awk 'BEGIN{a[1];a[2];for(k in a){delete a[2];print k}}'
    ensures a_walk_goes_over_the_keys_of_its_start { Gives (codes "BEGIN{a[1];a[2];for(k in a){delete a[2];print k}}") (Ended 0) (codes "1\n2\n") }
    // awk 'BEGIN{a[1];a[2];print length(a);delete a;print length(a)}'
    ensures an_array_has_a_length_and_is_deleted_whole { Gives (codes "BEGIN{a[1];a[2];print length(a);delete a;print length(a)}") (Ended 0) (codes "2\n0\n") }
{}

/// What functions are given and give.
pub fn calls()
    // awk 'function f(p){p["k"]=1} BEGIN{f(a); for(k in a)print k, a[k]}'
    ensures an_array_is_made_by_the_call_that_fills_it { Gives (codes "function f(p){p[\"k\"]=1} BEGIN{f(a); for(k in a)print k, a[k]}") (Ended 0) (codes "k 1\n") }
    // awk 'function f(p,q){p[1]=5; print q[1]} BEGIN{f(a,a)}'
    ensures an_array_is_one_under_two_parameters { Gives (codes "function f(p,q){p[1]=5; print q[1]} BEGIN{f(a,a)}") (Ended 0) (codes "5\n") }
    // awk 'function f(p,t){t[p]=p; return t[1]} BEGIN{print f(1) f(2)}'
    ensures a_local_array_is_new_for_each_call { Gives (codes "function f(p,t){t[p]=p; return t[1]} BEGIN{print f(1) f(2)}") (Ended 0) (codes "1\n") }
    // awk 'function f(){next} BEGIN{f()}'
    ensures next_without_a_record_is_a_fault { Gives (codes "function f(){next} BEGIN{f()}") (Fault NextWithoutRecord) [] }
{}
