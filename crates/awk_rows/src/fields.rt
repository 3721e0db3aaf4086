// Rows of records and fields: how they are separated, assigned and joined again.

ghost use Rattle.std.specs.Prelude.{List, [], ◌∷◌, codes};
ghost use Rattle.awk_semantics.specs.declared.outcome.Outcome.TheVariants.{Ended, Fault};
ghost use Rattle.awk_semantics.specs.declared.fault.Fault.TheVariants.{FieldNumberOutOfRange};
ghost use Rattle.awk_rows.specs.definitions.Outside.{assigned, given, prints};
ghost use Rattle.awk_rows.specs.definitions.Row.{MeansFrom, Gives, GivesOf, ample};

/// Fields that are read and assigned.
pub fn places()
    // awk '{FS=":"; print $1}'
    ensures a_new_separator_holds_from_the_next_record_on { GivesOf (codes "{FS=\":\"; print $1}") (codes "a:b c\nd:e f\n") (Ended 0) (codes "a:b\nd\n") }
    // awk '{$2="x"; OFS="-"; print}'
    ensures an_assigned_field_joins_the_record_again { GivesOf (codes "{$2=\"x\"; OFS=\"-\"; print}") (codes "a b c\nd e f\n") (Ended 0) (codes "a x c\nd-x-f\n") }
    // awk '{NF=2; print; $5="z"; print; print NF}'
    ensures an_assigned_count_cuts_and_an_assigned_field_fills_up { GivesOf (codes "{NF=2; print; $5=\"z\"; print; print NF}") (codes "a b c\n") (Ended 0)
        (codes "a b\na b   z\n5\n") }
    // awk -v 'OFS=-' '{$7="q"; print NF; print}'
    ensures a_field_far_behind_makes_empty_ones { MeansFrom (codes "{$7=\"q\"; print NF; print}") (assigned ((codes "OFS", codes "-") ∷ []))
        (given (codes "a b\n")) ample (Ended 0) (prints (codes "7\na-b-----q\n")) }
    // awk '{$0="x y z"; print $2, NF}'
    ensures an_assigned_record_is_separated_again { GivesOf (codes "{$0=\"x y z\"; print $2, NF}") (codes "a\n") (Ended 0) (codes "y 3\n") }
    // awk 'BEGIN{NF=-1}'
    ensures a_negative_count_is_a_fault { Gives (codes "BEGIN{NF=-1}") (Fault FieldNumberOutOfRange) [] }
    // awk 'BEGIN{print $(-1)}'
    ensures a_negative_field_is_a_fault { Gives (codes "BEGIN{print $(-1)}") (Fault FieldNumberOutOfRange) [] }
    // awk 'BEGIN{NF=16777217}'
    ensures a_count_above_the_most_fields_is_a_fault { Gives (codes "BEGIN{NF=16777217}") (Fault FieldNumberOutOfRange) [] }
    // awk '{print $1}'
    ensures the_first_field_of_each_record { GivesOf (codes "{print $1}") (codes "a b c\na b c\na b c\na b c\na b c\na b c\na b c\na b c\na b c\na b c\n")
        (Ended 0) (codes "a\na\na\na\na\na\na\na\na\na\n") }
    // awk '{$1="x"; OFS="-"; $2="y"; print}'
    ensures the_separator_of_the_last_assignment_joins { GivesOf (codes "{$1=\"x\"; OFS=\"-\"; $2=\"y\"; print}") (codes "a b c\n") (Ended 0) (codes "x-y-c\n") }
    // awk '{FS=":"; $0="a:b"; FS=" "; print $1}'
    ensures an_assigned_record_is_separated_by_the_separator_of_then { GivesOf (codes "{FS=\":\"; $0=\"a:b\"; FS=\" \"; print $1}") (codes "q\n") (Ended 0) (codes "a\n") }
    // awk -v 'FS=:' '{print $2}'
    ensures a_separator_of_one_byte { MeansFrom (codes "{print $2}") (assigned ((codes "FS", codes ":") ∷ [])) (given (codes "a:b\n")) ample
        (Ended 0) (prints (codes "b\n")) }
    // awk '{print length($0)}'
    ensures bytes_of_any_value_are_characters { GivesOf (codes "{print length($0)}") (0 ∷ 255 ∷ 10 ∷ []) (Ended 0) (codes "2\n") }
{}

/// Where a record ends.
pub fn separators()
    // awk -v 'RS=' -v 'FS=:' '{print NF}'
    ensures paragraphs_have_a_newline_as_a_second_separator { MeansFrom (codes "{print NF}") (assigned ((codes "RS", []) ∷ (codes "FS", codes ":") ∷ []))
        (given (codes "\n\na b\nc\n\n\n\nd\n")) ample (Ended 0) (prints (codes "2\n1\n")) }
    // awk -v 'RS=' 'NR==1{RS="\n"} {print NR ":" $0}'
    ensures a_new_record_separator_holds_from_the_next_record_on { MeansFrom (codes "NR==1{RS=\"\\n\"} {print NR \":\" $0}") (assigned ((codes "RS", []) ∷ []))
        (given (codes "a\n\n\nb\n")) ample (Ended 0) (prints (codes "1:a\n2:\n3:b\n")) }
    // awk -v 'RS=;' '{print NR ":" $1}'
    ensures a_semicolon_separates_records { MeansFrom (codes "{print NR \":\" $1}") (assigned ((codes "RS", codes ";") ∷ [])) (given (codes "a;b;;c"))
        ample (Ended 0) (prints (codes "1:a\n2:b\n3:\n4:c\n")) }
    // awk -v 'RS=;' '{print NR ":" $1}'
    ensures a_newline_is_kept_in_the_last_record { MeansFrom (codes "{print NR \":\" $1}") (assigned ((codes "RS", codes ";") ∷ [])) (given (codes "a;b;;c\n"))
        ample (Ended 0) (prints (codes "1:a\n2:b\n3:\n4:c\n")) }
    // awk -v 'RS=' '{print; exit}'
    ensures a_paragraph_ends_at_empty_lines { MeansFrom (codes "{print; exit}") (assigned ((codes "RS", []) ∷ [])) (given (codes "a\n\nb")) ample (Ended 0)
        (prints (codes "a\n")) }
    // awk 'NR==3{exit}'
    ensures a_record_may_be_passed_over { GivesOf (codes "NR==3{exit}") (codes "a\nb\nc\n") (Ended 0) [] }
    // awk 'NR==1{RS=";"} {print}'
    ensures a_separator_may_change_within_the_input { GivesOf (codes "NR==1{RS=\";\"} {print}") (codes "a\nb;c\n") (Ended 0) (codes "a\nb\nc\n\n") }
    // awk -v 'RS=aab' '{print}'
    ensures a_separator_of_several_bytes_stands_for_itself { MeansFrom (codes "{print}") (assigned ((codes "RS", codes "aab") ∷ [])) (given (codes "xaaaby")) ample
        (Ended 0) (prints (codes "xa\ny\n")) }
    // awk -v 'RS=a.' '{print NR ":" $0}'
    ensures a_point_in_a_separator_of_several_bytes_is_a_point { MeansFrom (codes "{print NR \":\" $0}") (assigned ((codes "RS", codes "a.") ∷ [])) (given (codes "1ab2a.3"))
        ample (Ended 0) (prints (codes "1:1ab2\n2:3\n")) }
{}
