// Rows of expressions: operators, comparisons, assignments, conditions.

ghost use Rattle.std.specs.Prelude.{List, [], ◌∷◌, codes};
ghost use Rattle.awk_semantics.specs.declared.outcome.Outcome.TheVariants.{Ended, Fault};
ghost use Rattle.awk_semantics.specs.declared.fault.Fault.TheVariants.{DivisionByZero, NumberOutOfRange};
ghost use Rattle.awk_rows.specs.definitions.Row.{Gives, GivesOf};

/// Numbers are whole, and leave their range by a fault.
pub fn arithmetic()
    // awk 'BEGIN{print 1 " " -1}'
    ensures a_minus_behind_a_text_subtracts { Gives (codes "BEGIN{print 1 \" \" -1}") (Ended 0) (codes "1-1\n") }
    // awk 'BEGIN{a=8;b=2;print a/b/b, (a)/b/b}'
    ensures division_goes_from_left_to_right { Gives (codes "BEGIN{a=8;b=2;print a/b/b, (a)/b/b}") (Ended 0) (codes "2 2\n") }
    // awk 'BEGIN{print 1; x=170141183460469231731687303715884105727; print x+1}'
    ensures a_sum_above_the_greatest_number_is_a_fault { Gives (codes "BEGIN{print 1; x=170141183460469231731687303715884105727; print x+1}") (Fault NumberOutOfRange)
        (codes "1\n") }
    // awk 'BEGIN{print 1, 1/0}'
    ensures a_division_by_zero_is_a_fault { Gives (codes "BEGIN{print 1, 1/0}") (Fault DivisionByZero) [] }
    // awk 'BEGIN{print 1; print 1/0}'
    ensures what_was_printed_before_a_fault_is_left { Gives (codes "BEGIN{print 1; print 1/0}") (Fault DivisionByZero) (codes "1\n") }
    // awk 'BEGIN{print -2^2, 2^3^2, 7%-3, -7%3, -7/2}'
    ensures powers_and_remainders_have_the_sign_of_their_left_side { Gives (codes "BEGIN{print -2^2, 2^3^2, 7%-3, -7%3, -7/2}") (Ended 0) (codes "-4 512 1 -1 -3\n") }
    // awk 'BEGIN{print (-2)^127; print -(-2)^127}'
    ensures the_least_number_has_no_opposite { Gives (codes "BEGIN{print (-2)^127; print -(-2)^127}") (Fault NumberOutOfRange)
        (codes "-170141183460469231731687303715884105728\n") }
{}

/// What is compared, chosen and assigned.
pub fn conditions()
    // awk '{print ($1>$2), ($1>"9")}'
    ensures fields_are_compared_as_numbers_and_texts_as_texts { GivesOf (codes "{print ($1>$2), ($1>\"9\")}") (codes "10 9\n") (Ended 0) (codes "1 0\n") }
    // awk '{$1="10"; print ($1<9)}'
    ensures an_assigned_field_is_compared_as_a_text { GivesOf (codes "{$1=\"10\"; print ($1<9)}") (codes "x\n") (Ended 0) (codes "1\n") }
    // awk 'BEGIN{print (x==0), (x==""), length(x)}'
    ensures what_was_never_assigned_is_zero_and_empty { Gives (codes "BEGIN{print (x==0), (x==\"\"), length(x)}") (Ended 0) (codes "1 1 0\n") }
    // awk 'BEGIN{x=1; print x++ + ++x, x}'
    ensures an_increment_gives_the_value_before_it_or_behind_it { Gives (codes "BEGIN{x=1; print x++ + ++x, x}") (Ended 0) (codes "4 3\n") }
    // awk 'BEGIN{print (1>2)?"x":"y"}'
    ensures a_parenthesis_behind_print_begins_its_expression { Gives (codes "BEGIN{print (1>2)?\"x\":\"y\"}") (Ended 0) (codes "y\n") }
    // awk 'BEGIN{x=1; x && y=5; print y}'
    ensures an_assignment_may_stand_right_of_and { Gives (codes "BEGIN{x=1; x && y=5; print y}") (Ended 0) (codes "5\n") }
    // awk 'BEGIN{0 || y=2 || 0; print y}'
    ensures an_assignment_may_stand_right_of_or { Gives (codes "BEGIN{0 || y=2 || 0; print y}") (Ended 0) (codes "1\n") }
    // awk 'BEGIN{x ? a=1 : b=2; print a+0, b}'
    ensures an_assignment_may_stand_in_both_choices { Gives (codes "BEGIN{x ? a=1 : b=2; print a+0, b}") (Ended 0) (codes "0 2\n") }
    // awk 'BEGIN{x=1 && y=7; print x, y}'
    ensures an_assignment_takes_in_what_stands_right_of_it { Gives (codes "BEGIN{x=1 && y=7; print x, y}") (Ended 0) (codes "1 7\n") }
{}
