// Rows of extended regular expressions: what matches, what is exchanged, where texts are split.

ghost use Rattle.std.specs.Prelude.{List, [], ◌∷◌, codes};
ghost use Rattle.awk_semantics.specs.declared.outcome.Outcome.TheVariants.{Ended, Fault};
ghost use Rattle.awk_semantics.specs.declared.fault.Fault.TheVariants.{PatternRefused};
ghost use Rattle.awk_rows.specs.definitions.Outside.{assigned, given, prints};
ghost use Rattle.awk_rows.specs.definitions.Row.{MeansFrom, Gives, GivesOf, ample};

/// Which texts match, and where.
pub fn matches()
    // awk '/b/'
    ensures a_pattern_alone_prints_its_records { GivesOf (codes "/b/") (codes "ab\nc\n") (Ended 0) (codes "ab\n") }
    // awk '{print ($1 ~ /^a+$/), ($1 !~ "b")}'
    ensures a_match_and_none { GivesOf (codes "{print ($1 ~ /^a+$/), ($1 !~ \"b\")}") (codes "aa\nab\n") (Ended 0) (codes "1 1\n0 0\n") }
    // awk 'BEGIN{print match("abc",/b*/), RLENGTH; print match("bc",/b*/), RLENGTH}'
    ensures an_empty_match_stands_at_the_first_place { Gives (codes "BEGIN{print match(\"abc\",/b*/), RLENGTH; print match(\"bc\",/b*/), RLENGTH}") (Ended 0)
        (codes "1 0\n1 1\n") }
    // awk 'BEGIN{print "a.b" ~ "a\\.b", "axb" ~ "a\\.b"}'
    ensures a_text_is_read_as_a_pattern_where_it_is_matched { Gives (codes "BEGIN{print \"a.b\" ~ \"a\\\\.b\", \"axb\" ~ \"a\\\\.b\"}") (Ended 0) (codes "1 0\n") }
    // awk 'BEGIN{print "a" ~ "("}'
    ensures a_text_that_is_no_pattern_is_a_fault_where_it_is_matched { Gives (codes "BEGIN{print \"a\" ~ \"(\"}") (Fault PatternRefused) [] }
    // awk 'BEGIN{print "aa" ~ /^a**$/}'
    ensures two_stars_are_as_one { Gives (codes "BEGIN{print \"aa\" ~ /^a**$/}") (Ended 0) (codes "1\n") }
    // awk '/=/'
    ensures a_pattern_may_begin_with_an_equals_sign { GivesOf (codes "/=/") (codes "a=b\nc\n") (Ended 0) (codes "a=b\n") }
    // awk 'BEGIN{match("xabcabc",/abc|abcab|b/); print RSTART, RLENGTH}'
    ensures of_the_leftmost_matches_the_longest_is_found { GivesOf (codes "BEGIN{match(\"xabcabc\",/abc|abcab|b/); print RSTART, RLENGTH}") [] (Ended 0) (codes "2 5\n") }
    // awk '/b/,/c/'
    ensures a_range_begins_again { GivesOf (codes "/b/,/c/") (codes "a\nb\nc\nb\nd\n") (Ended 0) (codes "b\nc\nb\nd\n") }
    // awk 'BEGIN{print match("aab",/(a|ab)(b)?$/), RLENGTH}'
    ensures the_longest_match_goes_to_the_end { GivesOf (codes "BEGIN{print match(\"aab\",/(a|ab)(b)?$/), RLENGTH}") [] (Ended 0) (codes "2 2\n") }
    // awk '/\000/{print "m"}'
    ensures a_pattern_may_name_the_byte_zero { GivesOf (codes "/\\000/{print \"m\"}") (0 ∷ 255 ∷ 10 ∷ []) (Ended 0) (codes "m\n") }
    // awk '/^.[^a]$/{print "m"}'
    ensures any_byte_is_a_character { GivesOf (codes "/^.[^a]$/{print \"m\"}") (0 ∷ 255 ∷ 10 ∷ []) (Ended 0) (codes "m\n") }
{}

/// What sub and gsub leave, and where split and FS separate.
pub fn exchanges()
    // awk '{n=gsub(/b*/,"X"); print n, $0}'
    ensures empty_matches_are_exchanged_but_not_behind_a_match { GivesOf (codes "{n=gsub(/b*/,\"X\"); print n, $0}") (codes "abc\n") (Ended 0) (codes "3 XaXcX\n") }
    // awk '{n=gsub(/x*/,"-"); print n, $0}'
    ensures an_empty_match_is_exchanged_at_each_place { GivesOf (codes "{n=gsub(/x*/,\"-\"); print n, $0}") (codes "abc\n") (Ended 0) (codes "4 -a-b-c-\n") }
    // awk 'BEGIN{s="a.b"; sub(/\./,"[&\\&\\\\]",s); print s}'
    ensures an_ampersand_is_the_match_unless_it_is_escaped { Gives (codes "BEGIN{s=\"a.b\"; sub(/\\./,\"[&\\\\&\\\\\\\\]\",s); print s}") (Ended 0) (codes "a[.&\\]b\n") }
    // awk 'BEGIN{FS="(("}'
    ensures a_separator_that_is_no_pattern_is_a_fault_before_any_input { Gives (codes "BEGIN{FS=\"((\"}") (Fault PatternRefused) [] }
    // awk 'BEGIN{n=split("a1b22c",a,/[0-9]+/); print n, a[1] a[3]; print split("",a), length(a[1])}'
    ensures a_text_is_split_by_a_pattern { Gives (codes "BEGIN{n=split(\"a1b22c\",a,/[0-9]+/); print n, a[1] a[3]; print split(\"\",a), length(a[1])}")
        (Ended 0) (codes "3 ac\n0 0\n") }
    // awk 'BEGIN{print split(" a ",x,/ /), split(" a ",x," ")}'
    ensures a_blank_as_a_pattern_is_one_blank { Gives (codes "BEGIN{print split(\" a \",x,/ /), split(\" a \",x,\" \")}") (Ended 0) (codes "3 1\n") }
    // awk -v 'FS=ab+' '{print NF, $2}'
    ensures fields_are_separated_by_a_pattern { MeansFrom (codes "{print NF, $2}") (assigned ((codes "FS", codes "ab+") ∷ [])) (given (codes "xabbyabz\n"))
        ample (Ended 0) (prints (codes "3 y\n")) }
{}
