// Rows of statements: conditions, loops, the limit of steps, exits.

ghost use Rattle.std.specs.Prelude.{List, [], ◌∷◌, codes};
ghost use Rattle.awk_streams.specs.Oracle.{Oracle};
ghost use Rattle.awk_semantics.specs.declared.outcome.Outcome.TheVariants.{Ended, Stopped};
ghost use Rattle.awk_rows.specs.definitions.Outside.{plain, assigned, given, prints};
ghost use Rattle.awk_rows.specs.definitions.Row.{Means, MeansFrom, Gives, GivesOf, ample};

/// Turns, and how many steps they spend.
pub fn loops()
    // awk -L 6 'BEGIN{i=0; do print i++; while(i<2)}'
    ensures a_do_loop_spends_six_steps { (outside : Oracle) → MeansFrom (codes "BEGIN{i=0; do print i++; while(i<2)}") plain outside 6 (Ended 0)
        (prints (codes "0\n1\n")) }
    // awk -L 5 'BEGIN{i=0; do print i++; while(i<2)}'
    ensures a_do_loop_is_stopped_within_five_steps { (outside : Oracle) → Means (codes "BEGIN{i=0; do print i++; while(i<2)}") plain outside 5 Stopped
        (prints (codes "0\n")) }
    // awk 'BEGIN{if(1&&
    // 1)print 1
    // else print 2}'
    ensures a_newline_may_stand_behind_and_and_before_else { Gives (codes "BEGIN{if(1&&\n1)print 1\nelse print 2}") (Ended 0) (codes "1\n") }
    // awk -L 10 'BEGIN{x=3; while(x) {print x; x=x-1}}'
    ensures a_loop_is_stopped_where_its_turn_has_no_step { (outside : Oracle) → Means (codes "BEGIN{x=3; while(x) {print x; x=x-1}}") plain outside 10 Stopped
        (prints (codes "3\n2\n1\n")) }
    // awk -L 11 'BEGIN{x=3; while(x) {print x; x=x-1}}'
    ensures a_loop_ends_with_its_last_step { (outside : Oracle) → MeansFrom (codes "BEGIN{x=3; while(x) {print x; x=x-1}}") plain outside 11 (Ended 0)
        (prints (codes "3\n2\n1\n")) }
    // awk -L 7 'BEGIN{while(1) print "y"}'
    ensures an_endless_loop_is_stopped_at_the_limit { (outside : Oracle) → Means (codes "BEGIN{while(1) print \"y\"}") plain outside 7 Stopped
        (prints (codes "y\ny\ny\n")) }
    // awk -L 0 'BEGIN{while(1) print "y"}'
    ensures without_a_step_nothing_is_done { (outside : Oracle) → Means (codes "BEGIN{while(1) print \"y\"}") plain outside 0 Stopped (prints []) }
{}

/// How a run goes from BEGIN over its records to END.
pub fn runs()
    // awk 'BEGIN{print 1; exit 3} {print 2} END{print 4}'
    ensures exit_in_begin_goes_on_with_end { GivesOf (codes "BEGIN{print 1; exit 3} {print 2} END{print 4}") (codes "x\n") (Ended 3) (codes "1\n4\n") }
    // awk 'END{print NR, NF}'
    ensures without_a_record_the_counts_are_zero { GivesOf (codes "END{print NR, NF}") [] (Ended 0) (codes "0 0\n") }
    // awk 'BEGIN{exit -1}'
    ensures an_exit_status_is_taken_by_its_last_byte { Gives (codes "BEGIN{exit -1}") (Ended 255) [] }
    // awk ''
    ensures the_empty_program_does_nothing { Gives [] (Ended 0) [] }
    // awk -L 3 '{print}'
    ensures a_record_spends_a_step_and_so_does_its_statement { Means (codes "{print}") plain (given (codes "a\nb\n")) 3 Stopped (prints (codes "a\n")) }
    // awk -L 4 '{print}'
    ensures two_records_are_printed_within_four_steps { MeansFrom (codes "{print}") plain (given (codes "a\nb\n")) 4 (Ended 0) (prints (codes "a\nb\n")) }
    // awk -L 1 '$1 > 9 { print $2, $1 * 2 }'
    ensures a_record_is_stopped_before_its_statement { Means (codes "$1 > 9 { print $2, $1 * 2 }") plain (given (codes "10 a\n9 b\n")) 1 Stopped (prints []) }
    // awk -L 2 '$1 > 9 { print $2, $1 * 2 }'
    ensures the_next_record_is_stopped { Means (codes "$1 > 9 { print $2, $1 * 2 }") plain (given (codes "10 a\n9 b\n")) 2 Stopped
        (prints (codes "a 20\n")) }
    // awk -L 3 '$1 > 9 { print $2, $1 * 2 }'
    ensures a_pattern_spends_no_step { MeansFrom (codes "$1 > 9 { print $2, $1 * 2 }") plain (given (codes "10 a\n9 b\n")) 3 (Ended 0)
        (prints (codes "a 20\n")) }
    // awk '{print; exit}'
    ensures exit_ends_the_records { GivesOf (codes "{print; exit}") (codes "a\nb\n") (Ended 0) (codes "a\n") }
    // awk -v 'x=5' 'BEGIN{print x}'
    ensures a_variable_is_assigned_before_the_run { (outside : Oracle) → MeansFrom (codes "BEGIN{print x}") (assigned ((codes "x", codes "5") ∷ [])) outside ample
        (Ended 0) (prints (codes "5\n")) }
{}
