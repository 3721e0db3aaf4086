// Rows of inputs and outputs by name, of commands and of operands.

ghost use Rattle.std.specs.Prelude.{List, [], ◌∷◌, codes, pos};
ghost use Rattle.awk_semantics.specs.declared.outcome.Outcome.TheVariants.{Ended, Fault, Stopped};
ghost use Rattle.awk_semantics.specs.declared.fault.Fault.TheVariants.{InputNotReadable, OutputNotOpened};
ghost use Rattle.awk_rows.specs.definitions.Outside.{plain, over, given, holding, with_answers, without_outputs, standard, file, broken_file, command, prints, prints_with, to_file, to_command};
ghost use Rattle.awk_rows.specs.definitions.Row.{Means, MeansFrom, GivesOf, ample};

/// What getline gives, and what operands are.
pub fn inputs()
    // awk 'BEGIN{while((getline l < "f")>0) n++; print n, NR, (getline l < "none")}'
    ensures getline_reads_a_file_to_its_end_and_counts_no_record { MeansFrom (codes "BEGIN{while((getline l < \"f\")>0) n++; print n, NR, (getline l < \"none\")}") plain
        (holding (file (codes "f") (codes "1\n2") ∷ [])) ample (Ended 0) (prints (codes "2 0 -1\n")) }
    // awk 'BEGIN{while((getline l) > 0) n++; print n, NR}'
    ensures getline_of_a_variable_counts_records { GivesOf (codes "BEGIN{while((getline l) > 0) n++; print n, NR}") (codes "a\nb\n") (Ended 0) (codes "2 2\n") }
    // awk 'BEGIN{getline; print; getline < "f"; print}'
    ensures getline_of_a_file_takes_the_place_of_the_record { MeansFrom (codes "BEGIN{getline; print; getline < \"f\"; print}") plain
        (holding (standard (codes "a\n") ∷ file (codes "f") (codes "b\n") ∷ [])) ample (Ended 0)
        (prints (codes "a\nb\n")) }
    // awk 'BEGIN{"c" | getline; print $2, NR; "c" | getline x; print x, NR, NF}'
    ensures getline_of_a_command_goes_on_where_it_was { MeansFrom (codes "BEGIN{\"c\" | getline; print $2, NR; \"c\" | getline x; print x, NR, NF}") plain
        (holding (command (codes "c") (codes "p q\nr\n") ∷ [])) ample (Ended 0) (prints (codes "q 1\nr 2 2\n")) }
    // awk 'BEGIN{while((r=(getline l < "f"))>0) print l; print r}'
    ensures getline_of_a_file_that_breaks_is_refused { MeansFrom (codes "BEGIN{while((r=(getline l < \"f\"))>0) print l; print r}") plain
        (holding (broken_file (codes "f") (codes "a\nb") ∷ [])) ample (Ended 0) (prints (codes "a\n-1\n")) }
    // awk 'BEGIN{"echo hi" | getline x; print x; print close("echo hi")}'
    ensures a_command_is_closed { MeansFrom (codes "BEGIN{\"echo hi\" | getline x; print x; print close(\"echo hi\")}") plain
        (holding (command (codes "echo hi") (codes "hi\n") ∷ [])) ample (Ended 0) (prints (codes "hi\n0\n")) }
    // awk 'BEGIN{"echo q; #" "d" | getline x; print x}'
    ensures a_command_may_be_joined { MeansFrom (codes "BEGIN{\"echo q; #\" \"d\" | getline x; print x}") plain
        (holding (command (codes "echo q; #d") (codes "q\n") ∷ [])) ample (Ended 0) (prints (codes "q\n")) }
    // awk '{print x, $0}' x=1 f x=2 f
    ensures operands_are_assignments_and_files_in_turn { MeansFrom (codes "{print x, $0}") (over (codes "x=1" ∷ codes "f" ∷ codes "x=2" ∷ codes "f" ∷ []))
        (holding (file (codes "f") (codes "a\n") ∷ [])) ample (Ended 0) (prints (codes "1 a\n2 a\n")) }
    // awk -L 7 '{print x, $0}' x=1 f x=2 f
    ensures an_operand_spends_a_step { Means (codes "{print x, $0}") (over (codes "x=1" ∷ codes "f" ∷ codes "x=2" ∷ codes "f" ∷ []))
        (holding (file (codes "f") (codes "a\n") ∷ [])) 7 Stopped (prints (codes "1 a\n")) }
    // awk -L 8 '{print x, $0}' x=1 f x=2 f
    ensures two_files_are_read_within_eight_steps { MeansFrom (codes "{print x, $0}") (over (codes "x=1" ∷ codes "f" ∷ codes "x=2" ∷ codes "f" ∷ []))
        (holding (file (codes "f") (codes "a\n") ∷ [])) 8 (Ended 0) (prints (codes "1 a\n2 a\n")) }
    // awk '{print x $0}' x=1 f x=2 f
    ensures an_assignment_holds_from_its_turn_on { MeansFrom (codes "{print x $0}") (over (codes "x=1" ∷ codes "f" ∷ codes "x=2" ∷ codes "f" ∷ []))
        (holding (file (codes "f") (codes "a\n") ∷ [])) ample (Ended 0) (prints (codes "1a\n2a\n")) }
    // awk '{print FILENAME, FNR, NR}' f g
    ensures records_are_counted_in_all_and_by_file { MeansFrom (codes "{print FILENAME, FNR, NR}") (over (codes "f" ∷ codes "g" ∷ []))
        (holding (file (codes "f") (codes "a\n") ∷ file (codes "g") (codes "b\nc\n") ∷ [])) ample (Ended 0)
        (prints (codes "f 1 1\ng 1 2\ng 2 3\n")) }
    // awk 'FNR==2{nextfile}{print}' f g
    ensures nextfile_goes_on_with_the_next_file { MeansFrom (codes "FNR==2{nextfile}{print}") (over (codes "f" ∷ codes "g" ∷ []))
        (holding (file (codes "f") (codes "a\nb\nc\n") ∷ file (codes "g") (codes "d\n") ∷ [])) ample (Ended 0)
        (prints (codes "a\nd\n")) }
    // awk '{print}' none
    ensures an_operand_that_is_not_there_is_a_fault { MeansFrom (codes "{print}") (over (codes "none" ∷ [])) (given []) ample (Fault InputNotReadable) (prints []) }
{}

/// What is printed to files and commands, and what closing answers.
pub fn outputs()
    // awk '{print $1 > $2}'
    ensures a_file_is_opened_once { MeansFrom (codes "{print $1 > $2}") plain (holding (standard (codes "a x\nb y\nc x\n") ∷ [])) ample (Ended 0)
        (prints_with [] (to_file (codes "x") (codes "a\nc\n") ∷ to_file (codes "y") (codes "b\n") ∷ [])) }
    // awk 'BEGIN{print "a" > "x"; print close("x"), close("x")}'
    ensures a_file_is_closed_once { MeansFrom (codes "BEGIN{print \"a\" > \"x\"; print close(\"x\"), close(\"x\")}") plain (holding []) ample
        (Ended 0) (prints_with (codes "0 -1\n") (to_file (codes "x") (codes "a\n") ∷ [])) }
    // awk 'BEGIN{print 1 >> "x"; print 2 > "x"}'
    ensures a_file_that_is_open_is_not_opened_again { MeansFrom (codes "BEGIN{print 1 >> \"x\"; print 2 > \"x\"}") plain (holding []) ample (Ended 0)
        (prints_with [] (to_file (codes "x") (codes "1\n2\n") ∷ [])) }
    // awk 'BEGIN{print 1; print system("echo c; exit 5")}'
    ensures a_command_is_run_and_gives_its_status { MeansFrom (codes "BEGIN{print 1; print system(\"echo c; exit 5\")}") plain (with_answers (pos 0) (pos 5) [])
        ample (Ended 0) (prints (codes "1\n5\n")) }
    // awk 'BEGIN{print 1; print 2 > "no/x"; print 3}'
    ensures an_output_that_is_not_opened_is_a_fault { MeansFrom (codes "BEGIN{print 1; print 2 > \"no/x\"; print 3}") plain without_outputs ample
        (Fault OutputNotOpened) (prints_with (codes "1\n") ([])) }
    // awk 'BEGIN{print "a" | "cat; exit 3"; print close("cat; exit 3")}'
    ensures a_command_that_is_closed_gives_its_status { MeansFrom (codes "BEGIN{print \"a\" | \"cat; exit 3\"; print close(\"cat; exit 3\")}") plain
        (with_answers (pos 3) (pos 0) []) ample (Ended 0)
        (prints_with (codes "3\n") (to_command (codes "cat; exit 3") (codes "a\n") ∷ [])) }
    // awk 'BEGIN{print 1 > "x"; print fflush("x"), fflush("y"), fflush()}'
    ensures fflush_knows_the_outputs_that_are_open { MeansFrom (codes "BEGIN{print 1 > \"x\"; print fflush(\"x\"), fflush(\"y\"), fflush()}") plain (holding [])
        ample (Ended 0) (prints_with (codes "0 -1 0\n") (to_file (codes "x") (codes "1\n") ∷ [])) }
{}
