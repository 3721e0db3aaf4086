// Rows of texts that are refused.

ghost use Rattle.std.specs.Prelude.{List, [], ◌∷◌, codes};
ghost use Rattle.awk_lex.specs.declared.refusal.RefusalCode.TheVariants.{ArrayAndScalar, EscapeRefused, FunctionAsVariable, NameLeftOut, NotAProgram, NumberRefused, OpenPattern, OpenString, StatementOutOfPlace, UnexpectedByte, UnknownFunction};
ghost use Rattle.awk_rows.specs.definitions.Refusal.{IsRefused};

/// Texts that break off between their tokens.
pub fn breaks()
    // awk 'BEGIN{print\0 1}'
    ensures a_byte_that_begins_no_token { IsRefused (66 ∷ 69 ∷ 71 ∷ 73 ∷ 78 ∷ 123 ∷ 112 ∷ 114 ∷ 105 ∷ 110 ∷ 116 ∷ 0 ∷ 32 ∷ 49 ∷ 125 ∷ []) UnexpectedByte }
    // awk 'BEGIN{print "a'
    ensures a_string_that_is_not_closed { IsRefused (codes "BEGIN{print \"a") OpenString }
    // awk 'BEGIN{x="\q"}'
    ensures an_escape_that_stands_for_nothing { IsRefused (codes "BEGIN{x=\"\\q\"}") EscapeRefused }
    // awk '/a'
    ensures a_pattern_that_is_not_closed { IsRefused (codes "/a") OpenPattern }
    // awk 'BEGIN{x=1.5}'
    ensures a_number_with_a_fraction { IsRefused (codes "BEGIN{x=1.5}") NumberRefused }
{}

/// Tokens that no tree spells, or one that is too high.
pub fn no_programs()
    // awk 'BEGIN{print 1 < 2 < 3}'
    ensures comparisons_do_not_stand_in_a_row { IsRefused (codes "BEGIN{print 1 < 2 < 3}") NotAProgram }
    // awk 'BEGIN{x=2**3}'
    ensures two_stars_are_no_power { IsRefused (codes "BEGIN{x=2**3}") NotAProgram }
    // awk '{print $-1}'
    ensures a_minus_does_not_stand_behind_a_dollar { IsRefused (codes "{print $-1}") NotAProgram }
    // awk 'BEGIN{!x=1}'
    ensures an_assignment_does_not_stand_right_of_not { IsRefused (codes "BEGIN{!x=1}") NotAProgram }
    // awk 'BEGIN{print 1>2?"x":"y"}'
    ensures a_condition_does_not_stand_behind_a_redirection { IsRefused (codes "BEGIN{print 1>2?\"x\":\"y\"}") NotAProgram }
    // awk 'BEGIN{x + y = 1}'
    ensures an_assignment_does_not_stand_right_of_a_sum { IsRefused (codes "BEGIN{x + y = 1}") NotAProgram }
    // awk 'BEGIN{1 == y = 2}'
    ensures an_assignment_does_not_stand_right_of_a_comparison { IsRefused (codes "BEGIN{1 == y = 2}") NotAProgram }
    // awk 'BEGIN{sub(/a/,"x","lit")}'
    ensures sub_exchanges_in_a_place { IsRefused (codes "BEGIN{sub(/a/,\"x\",\"lit\")}") NotAProgram }
    // awk 'BEGIN{split("a")}'
    ensures split_has_two_arguments_or_three { IsRefused (codes "BEGIN{split(\"a\")}") NotAProgram }
{}

/// Programs whose names or statements are refused.
pub fn names()
    // awk 'function f(p){p[1]=1} BEGIN{x=1; f(x)}'
    ensures a_number_is_passed_for_an_array { IsRefused (codes "function f(p){p[1]=1} BEGIN{x=1; f(x)}") ArrayAndScalar }
    // awk 'function f(p){g(p)} function g(q){q[1]=1} BEGIN{f(x); x=1}'
    ensures an_array_is_found_through_two_calls { IsRefused (codes "function f(p){g(p)} function g(q){q[1]=1} BEGIN{f(x); x=1}") ArrayAndScalar }
    // awk 'function f(p){return length(p)} BEGIN{a[1];print f(a)}'
    ensures a_length_alone_makes_no_array { IsRefused (codes "function f(p){return length(p)} BEGIN{a[1];print f(a)}") ArrayAndScalar }
    // awk 'BEGIN{f(1)}'
    ensures a_function_is_called_that_is_not_there { IsRefused (codes "BEGIN{f(1)}") UnknownFunction }
    // awk 'BEGIN{next}'
    ensures next_stands_in_no_begin { IsRefused (codes "BEGIN{next}") StatementOutOfPlace }
    // awk 'BEGIN{nextfile}'
    ensures nextfile_stands_in_no_begin { IsRefused (codes "BEGIN{nextfile}") StatementOutOfPlace }
    // awk 'BEGIN{print sin(1)}'
    ensures the_name_of_a_function_that_is_left_out { IsRefused (codes "BEGIN{print sin(1)}") NameLeftOut }
    // awk 'BEGIN{f=1} function f(){}'
    ensures a_function_is_used_as_a_variable { IsRefused (codes "BEGIN{f=1} function f(){}") FunctionAsVariable }
{}
